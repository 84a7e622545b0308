use onehot_column::*;
use prg_chacha::Seed;
use replicated_share::reveal;
use std::test::Fail;
use table_schema::{Row, Widths};

const ONE_COLUMN: Widths = Widths {
    columns: 1,
    bits: [2, 0, 0, 0, 0, 0],
};

const TWO_COLUMNS: Widths = Widths {
    columns: 2,
    bits: [1, 2, 0, 0, 0, 0],
};

fn row(columns: u8, buckets: [u8; 6], value: i64) -> Row {
    Row {
        columns,
        buckets,
        value,
    }
}

#[test]
fn a_code_is_one_at_each_bucket(rt: HostRuntime) -> Result<(), Fail> {
    let one = row(1, [3, 0, 0, 0, 0, 0], 10);
    assert!(rt; ONE_COLUMN.holds(&one));
    let cells = code(rt.alloc(), &ONE_COLUMN, &one).ok().ok_or("memory")?;
    assert_eq!(rt; cells.as_slice(), [0, 0, 0, 1, 10].as_slice());
    // A value below zero is its size taken from 2^128.
    let below = row(1, [0; 6], -5);
    assert!(rt; ONE_COLUMN.holds(&below));
    let cells = code(rt.alloc(), &ONE_COLUMN, &below).ok().ok_or("memory")?;
    assert_eq!(rt;
        cells.as_slice(),
        [
            1,
            0,
            0,
            0,
            340_282_366_920_938_463_463_374_607_431_768_211_451
        ]
        .as_slice()
    );
    let lowest = row(1, [1, 0, 0, 0, 0, 0], -4_294_967_295);
    assert!(rt; ONE_COLUMN.holds(&lowest));
    let cells = code(rt.alloc(), &ONE_COLUMN, &lowest).ok().ok_or("memory")?;
    assert_eq!(rt;
        cells.as_slice(),
        [
            0,
            1,
            0,
            0,
            340_282_366_920_938_463_463_374_607_427_473_244_161
        ]
        .as_slice()
    );
    let two = row(2, [0, 2, 0, 0, 0, 0], 4_294_967_295);
    assert!(rt; TWO_COLUMNS.holds(&two));
    let cells = code(rt.alloc(), &TWO_COLUMNS, &two).ok().ok_or("memory")?;
    assert_eq!(rt;
        cells.as_slice(),
        [1, 0, 0, 0, 1, 0, 4_294_967_295].as_slice()
    );
    Ok(())
}

#[test]
fn the_pieces_reveal_the_code(rt: HostRuntime) -> Result<(), Fail> {
    let row = row(1, [3, 0, 0, 0, 0, 0], 10);
    let seed = Seed { words: [0; 8] };
    assert!(rt; ONE_COLUMN.holds(&row));
    let pieces = pieces(rt.alloc(), &ONE_COLUMN, &row, &seed)
        .ok()
        .ok_or("memory")?;
    let (zero, one, two) = (&pieces.zero, &pieces.one, &pieces.two);
    assert_eq!(rt; (zero.server, one.server, two.server), (0, 1, 2));
    for (i, want) in [0, 0, 0, 1, 10].iter().enumerate() {
        assert!(rt; i < zero.cells.len() && i < one.cells.len() && i < two.cells.len());
        assert_eq!(rt;
            reveal(zero.cells.at(i), one.cells.at(i), two.cells.at(i)),
            *want,
            "at {i}"
        );
    }
    let (first, second) = zero.column(&ONE_COLUMN, 0);
    assert_eq!(rt; (first.len(), second.len()), (4, 4));
    assert!(rt; zero.cells.first.as_slice().starts_with(first));
    assert!(rt; zero.cells.second.as_slice().starts_with(second));
    assert!(rt; !zero.cells.is_empty() && !one.cells.is_empty() && !two.cells.is_empty());
    assert_eq!(rt; reveal(zero.value(), one.value(), two.value()), 10);
    Ok(())
}
