//! What the servers hold after they sent each other their words.
ghost use Rattle.std.specs.Prelude.{◌≡◌, ◌<◌, List, length, IfOk};
ghost use Rattle.wire_line.specs.declared.message.Message.{Message};
ghost use Rattle.wire_line.specs.Messages.{Went};
ghost use Rattle.visit_trace.specs.Seen.{GrewBy};
ghost use Rattle.server_rounds.specs.Groups.{by_server, first_of, second_of, AreLong, AreReshared, IsGroup};
ghost use Rattle.server_rounds.specs.Noted.{group_seen};

use crate::carry::{Trio, carry_three};
use crate::way::Way;
use replicated_share::PairList;
use ring128::Memory;
use share_product::accept_reshare;
use std::alloc::Global;
use std::marker::Model;
use visit_trace::Trace;
use wire_line::Wire;

/// The pairs of three servers.
#[derive(Drop)]
pub struct Held {
    zero: PairList,
    one: PairList,
    two: PairList,
}

impl Model for Held {
    ghost use Rattle.server_rounds.specs.Groups.{Pairs};

    ghost Value = { Pairs };

    ghost view = { λ h. record {
      zero = record { first = h.zero.first; second = h.zero.second };
      one = record { first = h.one.first; second = h.one.second };
      two = record { first = h.two.first; second = h.two.second };
    } };
}

impl Held {
    /// The pairs of server 0.
    pub fn zero(&self) -> &PairList
        ensures first { result.now.first ≡ self.now.zero.first }
        ensures second { result.now.second ≡ self.now.zero.second }
    {
        &self.zero
    }

    /// The pairs of server 1.
    pub fn one(&self) -> &PairList
        ensures first { result.now.first ≡ self.now.one.first }
        ensures second { result.now.second ≡ self.now.one.second }
    {
        &self.one
    }

    /// The pairs of server 2.
    pub fn two(&self) -> &PairList
        ensures first { result.now.first ≡ self.now.two.first }
        ensures second { result.now.second ≡ self.now.two.second }
    {
        &self.two
    }

    /// The pairs of server 0, 1 or 2.
    pub fn of_server(&self, server: u8) -> &PairList
        requires { server < 3 }
        ensures first { result.now.first ≡ first_of self.now server }
        ensures second { result.now.second ≡ second_of self.now server }
    {
        match server {
            0 => &self.zero,
            1 => &self.one,
            _ => &self.two,
        }
    }
}

/// Each server sends its words to the one before it, and then holds them beside those that it received. Their lengths are noted.
pub fn reshare<W: Wire>(
    alloc: Global,
    wire: &mut W,
    trace: &mut Trace,
    words: Trio,
) -> Result<Held, Memory>
    requires one { length words.one ≡ length words.zero }
    requires two { length words.two ≡ length words.zero }
    ensures long { IfOk result (λ held. AreLong (length words.zero) held) }
    ensures messages { (ms : List Message) × Went W.sight wire.old ms wire.new
        × IsGroup Way.Around (by_server words.zero words.one words.two) ms
        × IfOk result (λ held. AreReshared held ms) }
    ensures trace { GrewBy trace.old trace.new (group_seen Way.Around (length words.zero) (length words.zero) (length words.zero)) result }
{
    let sent = words.copied(alloc)?;
    let got = carry_three(wire, trace, Way::Around, sent)?;
    Ok(Held {
        zero: accept_reshare(words.zero, got.one),
        one: accept_reshare(words.one, got.two),
        two: accept_reshare(words.two, got.zero),
    })
}
