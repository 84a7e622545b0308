//! Steps in order.
ghost use Rattle.std.specs.Prelude.{◌≡◌, ◌==◌, length};

use std::marker::Model;

/// A step of a replay, with its actor (0 to 15) and, of some, a server (0 to 2) or the place of a query (0 to 15): the actor
/// draws the next input row, places its open row at a server, looks at a server, fixes the next server, or asks a query.
#[derive(Clone, Copy, Debug, PartialEq, Eq)]
pub enum Step {
    Draw { actor: u8 },
    Place { actor: u8, server: u8 },
    Look { actor: u8, server: u8 },
    Fix { actor: u8 },
    Answer { actor: u8, query: u8 },
}

/// The steps of a replay, seen as their list.
#[derive(Debug, Drop)]
pub struct Schedule {
    steps: Vec<Step>,
}

impl Model for Schedule {
    ghost use Rattle.std.specs.Prelude.{List};
    ghost use Rattle.waldo_words.specs.declared.schedule.Step.{Step};

    ghost Value = { List Step };

    ghost view = { λ s. s.steps.items };
}

impl Schedule {
    /// The steps of a list.
    pub fn from_vec(steps: Vec<Step>) -> Schedule
        ensures { result ≡ steps.items }
    {
        Schedule { steps }
    }

    /// The list of the steps.
    pub fn into_vec(self) -> Vec<Step>
        ensures { result.items ≡ self }
    {
        self.steps
    }

    /// The steps.
    pub fn as_slice(&self) -> &[Step]
        ensures { result.now ≡ self.now }
    {
        self.steps.as_slice()
    }

    /// How many there are.
    pub fn len(&self) -> usize
        ensures { result ≡ length self.now }
    {
        self.steps.len()
    }

    /// Whether there is none.
    pub fn is_empty(&self) -> bool
        ensures { result ≡ (length self.now == 0) }
    {
        self.steps.is_empty()
    }
}
