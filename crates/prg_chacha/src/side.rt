/// A side of a node of a tree: bit 0 goes left, bit 1 goes right.
#[derive(Clone, Copy, Debug, PartialEq, Eq)]
pub enum Side {
    Left,
    Right,
}
