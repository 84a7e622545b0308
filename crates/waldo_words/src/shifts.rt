//! Shifts of words, in order.
ghost use Rattle.std.specs.Prelude.{◌≡◌, ◌==◌, ◌∷◌, ◌++◌, [], OnErr, OnOk, length};

use std::alloc::{AllocError, Global};
use std::marker::Model;

/// What is added to a word: a number, or a number of times the key of the query.
#[derive(Clone, Copy, Debug, PartialEq, Eq)]
pub enum Amount {
    Plain(u128),
    TimesKey(u128),
}

/// A word of a message, both from 0 (the message up to 50, the word below 65,536), and what is added to it.
#[derive(Clone, Copy, Debug, PartialEq, Eq)]
pub struct ShiftWord {
    pub message: u64,
    pub word: u64,
    pub amount: Amount,
}

/// Shifts of words, seen as their list.
#[derive(Debug, Drop)]
pub struct ShiftWords {
    shifts: Vec<ShiftWord>,
}

impl Model for ShiftWords {
    ghost use Rattle.std.specs.Prelude.{List};
    ghost use Rattle.waldo_words.specs.declared.shifts.ShiftWord.{ShiftWord};

    ghost Value = { List ShiftWord };

    ghost view = { λ s. s.shifts.items };
}

impl ShiftWords {
    /// No shifts, which takes no memory.
    pub(crate) fn new(alloc: Global) -> ShiftWords
        ensures { result ≡ [] }
    {
        ShiftWords {
            shifts: Vec::new(alloc),
        }
    }

    /// The shifts of a list.
    pub fn from_vec(shifts: Vec<ShiftWord>) -> ShiftWords
        ensures { result ≡ shifts.items }
    {
        ShiftWords { shifts }
    }

    /// The list of the shifts.
    pub fn into_vec(self) -> Vec<ShiftWord>
        ensures { result.items ≡ self }
    {
        self.shifts
    }

    /// Adds one at the end. Out of memory, the list is as before.
    pub(crate) fn push(&mut self, shift: ShiftWord) -> Result<(), AllocError>
        ensures added { OnOk result (self.new ≡ self.old ++ shift ∷ []) }
        ensures kept { OnErr result (self.new ≡ self.old) }
    {
        self.shifts.push(shift)?;
        Ok(())
    }

    /// The shifts.
    pub fn as_slice(&self) -> &[ShiftWord]
        ensures { result.now ≡ self.now }
    {
        self.shifts.as_slice()
    }

    /// How many there are.
    pub fn len(&self) -> usize
        ensures { result ≡ length self.now }
    {
        self.shifts.len()
    }

    /// Whether there is none.
    pub fn is_empty(&self) -> bool
        ensures { result ≡ (length self.now == 0) }
    {
        self.shifts.is_empty()
    }
}
