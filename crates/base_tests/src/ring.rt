use ring128::*;
use std::test::Fail;

#[test]
fn operations_wrap(rt: HostRuntime) {
    assert_eq!(rt; mul(1 << 127, 2), 0);
    assert_eq!(rt; sub(0, 1), u128::MAX);
    assert_eq!(rt; add(u128::MAX, 2), 1);
    assert_eq!(rt; neg(1), u128::MAX);
}

#[test]
fn lists_place_by_place(rt: HostRuntime) {
    assert_eq!(rt; dot(&[2, 3], &[5, 7]), 31);
    let mut numbers = [1, u128::MAX, 3];
    add_into(&mut numbers, &[10, 20, 30]);
    assert_eq!(rt; numbers, [11, 19, 33]);
    scale_into(&mut numbers, 2);
    assert_eq!(rt; numbers, [22, 38, 66]);
}

#[test]
fn words_give_their_vector_back(rt: HostRuntime) -> Result<(), Fail> {
    assert!(rt; Words::new(rt.alloc()).is_empty());
    let words = Words::from_vec(vec![in rt.alloc(); 4, 5]?);
    assert_eq!(rt; words.len(), 2);
    assert_eq!(rt; words.as_slice()[1], 5);
    assert_eq!(rt; words.into_vec().as_slice()[0], 4);
    Ok(())
}
