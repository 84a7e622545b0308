/// What the client opened in a run: the sum of the words that it received.
#[derive(Clone, Copy, Debug, PartialEq, Eq)]
pub struct Opened {
    pub total: u128,
}

/// What the client opened in the two runs.
#[derive(Clone, Copy, Debug, PartialEq, Eq)]
pub struct OpenedPair {
    pub total: u128,
    pub weighted: u128,
}
