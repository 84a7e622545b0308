//! Places, seen as a list.
ghost use Rattle.std.specs.Prelude.{◌≡◌};

use std::marker::Model;

/// Where rows stand in the order, in the order of the rows; seen as a list of numbers.
#[derive(Drop)]
pub struct Places {
    list: Vec<u64>,
}

impl Model for Places {
    ghost use Rattle.std.specs.Prelude.{List, ℕ};

    ghost Value = { List ℕ };

    ghost view = { λ p. p.list.items };
}

impl Places {
    /// These places.
    pub(crate) fn from_vec(list: Vec<u64>) -> Places
        ensures { result ≡ list.items }
    {
        Places { list }
    }

    /// The places.
    pub fn as_slice(&self) -> &[u64]
        ensures { result.now ≡ self.now }
    {
        self.list.as_slice()
    }

    /// The places, as a vector.
    pub(crate) fn into_vec(self) -> Vec<u64>
        ensures { result.items ≡ self }
    {
        self.list
    }
}
