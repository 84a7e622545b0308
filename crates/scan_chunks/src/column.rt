use ring128::Words;

/// A column of a shelf in memory: how many cells a row has, and the firsts and the seconds of the cells, row after row.
#[derive(Drop)]
pub struct Column {
    pub width: u64,
    pub first: Words,
    pub second: Words,
}
