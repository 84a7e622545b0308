use table_schema::{Shape, Widths};

/// The numbers of a query that are not secret: of how many rows it is, over which widths, and its shape.
#[derive(Clone, Copy, Debug, PartialEq, Eq)]
pub struct Sizes {
    pub rows: u64,
    pub widths: Widths,
    pub shape: Shape,
}
