use text_reading::{count_pieces, cut, number};

#[test]
fn numbers(rt: HostRuntime) {
    let table: [(&str, Option<u64>); 12] = [
        ("0", Some(0)),
        ("007", Some(7)),
        ("00000000000000000012", Some(12)),
        ("18446744073709551615", Some(u64::MAX)),
        ("18446744073709551616", None),
        ("99999999999999999999", None),
        ("000000000000000000001", None),
        ("", None),
        ("+1", None),
        ("-0", None),
        (" 1", None),
        ("1a", None),
    ];
    for (text, value) in table {
        assert_eq!(rt; number(text.as_bytes()), value, "of {text}");
    }
}

#[test]
fn cuts(rt: HostRuntime) {
    let table: [(&str, &str, Option<&str>, usize); 5] = [
        ("a,b,c", "a", Some("b,c"), 3),
        (",", "", Some(""), 2),
        ("a,", "a", Some(""), 2),
        ("a", "a", None, 1),
        ("", "", None, 1),
    ];
    for (text, front, after, pieces) in table {
        let (had, rest) = cut(text.as_bytes(), b',');
        assert!(rt; had == front.as_bytes(), "the front of {text}");
        assert!(rt;
            rest == after.map(|a| a.as_bytes()),
            "after the mark of {text}"
        );
        assert_eq!(rt; count_pieces(text.as_bytes(), b','), pieces, "of {text}");
    }
}
