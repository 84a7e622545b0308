ghost use Rattle.std.specs.Prelude.{◌≡◌, [], ⊤, Some};

use crate::message::{Message, Peer};
use crate::wire::Wire;
use ring128::{Memory, Words};
use std::alloc::Global;
use std::marker::Model;

/// A wire that alters nothing and keeps each message. Its count is always 0.
#[derive(Drop)]
pub struct RecordWire {
    messages: Vec<Message>,
}

impl Model for RecordWire {
    ghost use Rattle.std.specs.Prelude.{List};
    ghost use Rattle.wire_line.specs.declared.message.Message.{Message};

    ghost Value = { List Message };

    ghost view = { λ w. w.messages.items };
}

impl RecordWire {
    /// A wire without messages yet; it takes no memory.
    pub fn new(alloc: Global) -> RecordWire
        ensures { result ≡ [] }
    {
        RecordWire {
            messages: Vec::new(alloc),
        }
    }

    /// The messages that were carried, the first one first.
    pub fn messages(&self) -> &[Message]
        ensures { result.now ≡ self.now }
    {
        self.messages.as_slice()
    }
}

impl Wire for RecordWire {
    ghost sight = { record { reported = λ w. Some w; alterations = λ _. 0; passes = λ _ _ _. ⊤ } };

    fn altered(&self) -> u64 {
        0
    }

    fn carry(&mut self, sender: Peer, receiver: Peer, words: &mut [u128]) -> Result<(), Memory> {
        let alloc = *self.messages.allocator();
        let sent = Words::from_vec(Vec::from_slice(alloc, words)?);
        let received = Words::from_vec(Vec::from_slice(alloc, words)?);
        self.messages.push(Message {
            sender,
            receiver,
            sent,
            received,
        })?;
        Ok(())
    }

    ghost none_passes = { λ _. tt };

    ghost both_pass = { λ _ _ _ _ _ _ _. tt };
}
