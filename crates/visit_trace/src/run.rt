//! A run of visits: chunks of one column that follow each other.
ghost use Rattle.std.specs.Prelude.{◌≤◌};

/// The chunks of a column from the first to the last, each once, rising.
#[derive(Clone, Copy)]
pub(crate) struct Run {
    pub(crate) column: u8,
    pub(crate) first: u32,
    pub(crate) last: u32,
    pub(crate) ghost rising: { first ≤ last },
}
