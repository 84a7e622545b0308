//! Three messages, one after another.
ghost use Rattle.std.specs.Prelude.{◌≡◌, List, [], ◌∷◌, length, IfOk, OnErr};
ghost use Rattle.wire_line.specs.declared.message.Message.{Message};
ghost use Rattle.wire_line.specs.Messages.{message_of, Went};
ghost use Rattle.visit_trace.specs.Seen.{GrewBy, message_seen};
ghost use Rattle.server_rounds.specs.Groups.{by_server, AsLong, IsGroup, Received};
ghost use Rattle.server_rounds.specs.Noted.{group_seen};

use crate::way::Way;
use ring128::{Memory, Words};
use std::alloc::Global;
use visit_trace::Trace;
use wire_line::{Peer, Wire};

/// A list of words for each of the three servers.
#[derive(Drop)]
pub struct Trio {
    pub zero: Words,
    pub one: Words,
    pub two: Words,
}

impl Trio {
    /// A copy, to be carried.
    pub(crate) fn copied(&self, alloc: Global) -> Result<Trio, Memory>
        ensures zero { IfOk result (λ t. t.zero ≡ self.now.zero) }
        ensures one { IfOk result (λ t. t.one ≡ self.now.one) }
        ensures two { IfOk result (λ t. t.two ≡ self.now.two) }
    {
        Ok(Trio {
            zero: Words::from_vec(Vec::from_slice(alloc, self.zero.as_slice())?),
            one: Words::from_vec(Vec::from_slice(alloc, self.one.as_slice())?),
            two: Words::from_vec(Vec::from_slice(alloc, self.two.as_slice())?),
        })
    }
}

// Carries words, and gives those that were received. The length is noted first.
fn carry<W: Wire>(
    wire: &mut W,
    trace: &mut Trace,
    sender: Peer,
    receiver: Peer,
    words: Words,
) -> Result<Words, Memory>
    ensures carried { IfOk result (λ got. Went W.sight wire.old (message_of sender receiver words got ∷ []) wire.new) }
    ensures long { IfOk result (λ got. length got ≡ length words) }
    ensures kept { OnErr result (Went W.sight wire.old [] wire.new) }
    ensures trace { GrewBy trace.old trace.new (message_seen sender receiver (length words)) result }
{
    let mut carried = words.into_vec();
    trace.note_message(sender, receiver, carried.len() as u64)?;
    wire.carry(sender, receiver, carried.as_mut_slice())?;
    Ok(Words::from_vec(carried))
}

/// Carries the three messages of a step, notes their lengths, and gives what was received.
pub fn carry_three<W: Wire>(
    wire: &mut W,
    trace: &mut Trace,
    way: Way,
    words: Trio,
) -> Result<Trio, Memory>
    ensures long { IfOk result (λ got. AsLong got.zero got.one got.two words.zero words.one words.two) }
    ensures messages { (ms : List Message) × Went W.sight wire.old ms wire.new
        × IsGroup way (by_server words.zero words.one words.two) ms
        × IfOk result (λ got. Received ms got.zero got.one got.two) }
    ensures trace { GrewBy trace.old trace.new (group_seen way (length words.zero) (length words.one) (length words.two)) result }
{
    let Trio { zero, one, two } = words;
    let zero = carry(wire, trace, way.sender(0), way.receiver(0), zero)?;
    let one = carry(wire, trace, way.sender(1), way.receiver(1), one)?;
    let two = carry(wire, trace, way.sender(2), way.receiver(2), two)?;
    Ok(Trio { zero, one, two })
}
