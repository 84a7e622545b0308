/// Why no table was opened: its cells are too many, or there is no memory.
#[derive(Clone, Copy, Debug, PartialEq, Eq)]
pub enum OpenFault {
    /// The capacity does not fit the widths. `had` is how many cells the table would have.
    Cells { had: u64 },
    Memory,
}
