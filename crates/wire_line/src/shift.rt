ghost use Rattle.std.specs.Prelude.{◌≡◌, ◌+◌, ◌-◌, ◌^◌, [], length, vec_len, min, if◌then◌else◌, nat_eq};
ghost use Rattle.std.specs.Cmp.Lexicographic.{pointwise};

use crate::lent::LentWire;
use crate::message::{Message, Peer};
use crate::shifts::Shifts;
use crate::wire::Wire;
use fault_count::raised;
use ring128::{Memory, Words};
use std::alloc::Global;

/// A wire that shifts words of the messages which the wire below it carries. It counts its messages from 0 and keeps
/// them, also where the wire below reports nothing. Its count is that of the wire below plus the number of messages that
/// it changed.
#[derive(Drop)]
pub struct ShiftWire<W> {
    inner: W,
    shifts: Shifts,
    messages: Vec<Message>,
    changed: u64,
}

impl<W: Wire> ShiftWire<W> {
    ghost use Rattle.wire_line.specs.Shown.{shown};

    /// The wire over this one, without messages yet; it takes no memory.
    pub fn over(alloc: Global, inner: W, shifts: Shifts) -> ShiftWire<W>
        ensures { shown result ≡ record { inner = inner; shifts = shifts; messages = []; changed = 0 } }
    {
        ShiftWire {
            inner,
            shifts,
            messages: Vec::new(alloc),
            changed: 0,
        }
    }

    /// The wire below, as its messages have left it.
    pub fn into_inner(self) -> W
        ensures { result ≡ (shown self).inner }
    {
        let ShiftWire {
            inner,
            shifts: _,
            messages: _,
            changed: _,
        } = self;
        inner
    }
}

impl<'a, W: Wire> ShiftWire<LentWire<'a, W>> {
    ghost use Rattle.wire_line.specs.Shown.{shown};

    /// The wire below, where it was lent.
    pub fn into_lent(self) -> &'a mut W
        ensures same_wire { result.ghost_name ≡ (shown self.entry).inner.inner.ghost_name }
        ensures value { result.now ≡ (shown self.entry).inner.inner.now }
    {
        let ShiftWire {
            inner,
            shifts: _,
            messages: _,
            changed: _,
        } = self;
        let LentWire { inner: last } = inner;
        last
    }
}

impl<W: Wire> Wire for ShiftWire<W> {
    ghost use Rattle.wire_line.specs.Shown.{shown, sight_over};
    ghost use Rattle.wire_line.specs.ShiftLaws.{none_shifted, both_shifted};

    ghost sight = { sight_over W.sight };

    fn altered(&self) -> u64 {
        self.inner.altered().saturating_add(self.changed)
    }

    fn carry(&mut self, sender: Peer, receiver: Peer, words: &mut [u128]) -> Result<(), Memory> {
        let alloc = *self.messages.allocator();
        let sent = Words::from_vec(Vec::from_slice(alloc, words)?);
        let mut received = Vec::from_slice(alloc, words)?;
        self.messages.reserve(1)?;

        self.inner.carry(sender, receiver, words)?;
        refill(&mut received, words);
        self.shifts.add_to(self.messages.len() as u64, words);
        self.changed = count_change(self.changed, &received, words);
        refill(&mut received, words);
        self.messages.push_reserved(Message {
            sender,
            receiver,
            sent,
            received: Words::from_vec(received),
        });
        Ok(())
    }

    ghost none_passes = { λ w. none_shifted W.sight W.none_passes (shown w) };

    ghost both_pass = { λ w v u. both_shifted W.sight W.both_pass (shown w) (shown v) (shown u) };
}

// One more where the words that were received below are not those after the shifts.
fn count_change(changed: u64, below: &[u128], words: &[u128]) -> u64
    ensures { result ≡ min (changed + (if pointwise nat_eq below.now words.now then 0 else 1)) (2 ^ 64 - 1) }
{
    if below == words {
        changed
    } else {
        raised(changed)
    }
}

// Puts these words in the place of others.
fn refill(list: &mut Vec<u128>, words: &[u128])
    requires { vec_len list.old ≡ length words.now }
    ensures { list.new.items ≡ words.now }
{
    list.as_mut_slice().copy_from_slice(words);
}
