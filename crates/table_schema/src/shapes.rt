/// What a query asks for: how many rows pass, or the sum of their values.
#[derive(Clone, Copy, Debug, PartialEq, Eq)]
pub enum Aggregate {
    Count,
    Sum,
}

/// What a predicate asks of a bucket: that it is one bucket, at most one, or within two.
#[derive(Clone, Copy, Debug, PartialEq, Eq)]
pub enum Kind {
    Point,
    AtMost,
    Interval,
}

/// What is not secret of a predicate: its column, from 0, and its kind.
#[derive(Clone, Copy, Debug, PartialEq, Eq)]
pub struct Part {
    pub column: u8,
    pub kind: Kind,
}

/// What is not secret of a query: what it asks for, and its first `count` parts (1 to 4). The parts past
/// those have column 0 and kind Point.
#[derive(Clone, Copy, Debug, PartialEq, Eq)]
pub struct Shape {
    pub aggregate: Aggregate,
    pub count: u8,
    pub parts: [Part; 4],
}
