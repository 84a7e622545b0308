ghost use Rattle.std.specs.Prelude.{◌≡◌, ◌<◌, ◌^◌, All, [], ◌∷◌, ◌++◌, OnOk, OnErr};

use ring128::{Memory, add};
use std::alloc::Global;
use std::marker::Model;

/// A number to be added to one word of one message, both counted from 0.
#[derive(Clone, Copy, Debug, PartialEq, Eq)]
pub struct Shift {
    pub message: u64,
    pub word: u64,
    pub amount: u128,
}

impl Shift {
    ghost use Rattle.wire_line.specs.Shifts.{shifted};

    // Adds the amount to the word, where the message is this one and has the word.
    fn add_to(&self, message: u64, words: &mut [u128])
        requires { All (λ w. w < 2 ^ 128) words.old }
        ensures { words.new ≡ shifted (self.now ∷ []) message words.old }
    {
        if self.message == message && self.word < words.len() as u64 {
            let word = self.word as usize;
            words[word] = add(words[word], self.amount);
        }
    }
}

/// A list of shifts. Those of one word add up; one whose message or word is not there does nothing.
#[derive(Drop)]
pub struct Shifts {
    items: Vec<Shift>,
}

impl Model for Shifts {
    ghost use Rattle.std.specs.Prelude.{List};
    ghost use Rattle.wire_line.specs.declared.shifts.Shift.{Shift};

    ghost Value = { List Shift };

    ghost view = { λ s. s.items.items };
}

impl Shifts {
    ghost use Rattle.wire_line.specs.Shifts.{shifted};

    /// No shifts; it takes no memory.
    pub fn new(alloc: Global) -> Shifts
        ensures { result ≡ [] }
    {
        Shifts {
            items: Vec::new(alloc),
        }
    }

    /// Adds a shift at the end.
    pub fn push(&mut self, shift: Shift) -> Result<(), Memory>
        ensures ok { OnOk result (self.new ≡ self.old ++ shift ∷ []) }
        ensures err { OnErr result (self.new ≡ self.old) }
    {
        self.items.push(shift)?;
        Ok(())
    }

    // Adds to the words of a message what is to be added to them.
    pub(crate) fn add_to(&self, message: u64, words: &mut [u128])
        ensures { words.new ≡ shifted self.now message words.old }
    {
        for shift in self.items.iter() {
            shift.add_to(message, words);
        }
    }
}
