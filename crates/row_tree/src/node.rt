/// A node of a tree over places. That of height h and index j stands for the places from j * 2^h to (j + 1) * 2^h - 1.
#[derive(Clone, Copy, Debug, PartialEq, Eq)]
pub struct Node {
    pub height: u8,
    pub index: u32,
}
