/// A row: the bucket of each column in order, with entries past the columns 0, and its value, which may be below zero.
#[derive(Clone, Copy, Debug, PartialEq, Eq)]
pub struct Row {
    pub columns: u8,
    pub buckets: [u8; 6],
    pub value: i64,
}
