ghost use Rattle.std.specs.Prelude.{◌≡◌, [], ◌∷◌, OnOk, OnErr};
ghost use Rattle.wire_line.specs.Messages.{message_of, Went};
ghost use Rattle.wire_line.specs.Sights.{Sight, NonePasses, BothPass};

use crate::message::Peer;
use ring128::Memory;

/// What carries the messages of a query.
pub trait Wire {
    // What contracts see of a wire: its messages, its count of alterations, and what its kind says besides.
    ghost sight: { Sight Self };

    /// The count of alterations. It never falls; at 2^64 - 1 it stands still, and counts as risen.
    fn altered(&self) -> u64
        ensures { result ≡ sight.alterations self.now };

    /// Carries a message. After Ok the words that were received stand in `words`; they are those that were sent, unless
    /// the count rose. Out of memory nothing was carried.
    fn carry(&mut self, sender: Peer, receiver: Peer, words: &mut [u128]) -> Result<(), Memory>
        ensures carried { OnOk result (Went sight self.old (message_of sender receiver words.old words.new ∷ []) self.new) }

        ensures words_kept { OnErr result (words.new ≡ words.old) }
        ensures reported_kept { OnErr result (sight.reported self.new ≡ sight.reported self.old) }
        ensures count_kept { OnErr result (sight.alterations self.new ≡ sight.alterations self.old) }
        ensures passes_kept { OnErr result (sight.passes self.old [] self.new) };

    // Without a message nothing has changed.
    ghost none_passes: { NonePasses sight };

    // What was carried in two calls was carried in one go.
    ghost both_pass: { BothPass sight };
}
