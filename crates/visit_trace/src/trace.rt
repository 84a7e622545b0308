//! Traces, and what is noted in them.
ghost use Rattle.std.specs.Prelude.{◌≡◌, ◌↔◌, ◌<◌, ◌++◌, IsTrue, OnOk, OnErr, vec_len, vec_capacity};
ghost use Rattle.visit_trace.specs.Seen.{AddsPrefix, Grew, GrewBy, alike, is_server, length_at, message_seen, nothing, only_at, seen_by};

use crate::runs::Runs;
use crate::visits::Visits;
use ring128::Memory;
use scan_chunks::Visit;
use std::alloc::Global;
use std::marker::Model;
use wire_line::Peer;

/// What one server sees.
#[derive(Drop)]
pub(crate) struct Notes {
    pub(crate) visits: Runs,
    pub(crate) lengths: Vec<u64>,
}

impl Notes {
    /// Nothing.
    pub(crate) fn new(alloc: Global) -> Notes
        ensures visits { result.visits ≡ nothing.visits }
        ensures lengths { result.lengths.items ≡ nothing.lengths }
    {
        Notes {
            visits: Runs::new(alloc),
            lengths: Vec::new(alloc),
        }
    }

    // Adds what other notes hold, the visits first.
    fn add(&mut self, other: &Notes) -> Result<(), Memory>
        ensures visits { OnOk result (self.new.visits ≡ self.old.visits ++ other.now.visits) }
        ensures lengths { OnOk result (self.new.lengths.items ≡ self.old.lengths.items ++ other.now.lengths.items) }
        ensures fewer { OnErr result (AddsPrefix self.old.visits self.new.visits other.now.visits) }
        ensures shorter { OnErr result (AddsPrefix self.old.lengths.items self.new.lengths.items other.now.lengths.items) }
    {
        self.visits.add(other.visits.as_slice())?;
        self.lengths.extend_from_slice(&other.lengths)?;
        Ok(())
    }
}

/// What the three servers see of queries: at each the chunks that it visited, and the lengths in words of the messages that it
/// sent or received, in order.
#[derive(Drop)]
pub struct Trace {
    pub(crate) zero: Notes,
    pub(crate) one: Notes,
    pub(crate) two: Notes,
}

impl Model for Trace {
    ghost use Rattle.visit_trace.specs.Seen.{AllSeen};

    ghost Value = { AllSeen };

    ghost view = { λ t. record {
      zero = record { visits = t.zero.visits; lengths = t.zero.lengths.items };
      one = record { visits = t.one.visits; lengths = t.one.lengths.items };
      two = record { visits = t.two.visits; lengths = t.two.lengths.items };
    } };
}

impl Trace {
    /// A trace of nothing; it takes no memory.
    pub fn new(alloc: Global) -> Trace
        ensures { result ≡ alike nothing }
    {
        Trace {
            zero: Notes::new(alloc),
            one: Notes::new(alloc),
            two: Notes::new(alloc),
        }
    }

    /// The chunks that server 0, 1 or 2 visited, in order; none for another number.
    pub fn visits(&self, server: u8) -> Visits<'_>
        ensures { result ≡ (seen_by self.now server).visits }
    {
        match server {
            0 => self.zero.visits.iter(),
            1 => self.one.visits.iter(),
            2 => self.two.visits.iter(),
            _ => Visits::over(&[]),
        }
    }

    /// The lengths in words of the messages that server 0, 1 or 2 sent or received, in order; none for another number.
    pub fn lengths(&self, server: u8) -> &[u64]
        ensures { result.now ≡ (seen_by self.now server).lengths }
    {
        match server {
            0 => self.zero.lengths.as_slice(),
            1 => self.one.lengths.as_slice(),
            2 => self.two.lengths.as_slice(),
            _ => &[],
        }
    }

    /// Notes visits of server 0, 1 or 2 behind those that stand there; for another number nothing is noted. Out of memory the
    /// trace stays as it was.
    pub fn note_visits(&mut self, server: u8, visits: &[Visit]) -> Result<(), Memory>
        ensures noted { OnOk result (Grew self.old self.new (only_at server (record { visits = visits.now; lengths = nothing.lengths }))) }
        ensures kept { OnErr result (self.new ≡ self.old) }
    {
        match server {
            0 => self.zero.visits.add_visits(visits)?,
            1 => self.one.visits.add_visits(visits)?,
            2 => self.two.visits.add_visits(visits)?,
            _ => {}
        }
        Ok(())
    }

    /// Notes the length in words of a message at each server that sends or receives it. Out of memory the trace stays as it was.
    pub fn note_message(&mut self, sender: Peer, receiver: Peer, length: u64) -> Result<(), Memory>
        ensures noted { OnOk result (Grew self.old self.new (message_seen sender receiver length)) }
        ensures kept { OnErr result (self.new ≡ self.old) }
    {
        self.zero.lengths.reserve(1)?;
        self.one.lengths.reserve(1)?;
        self.two.lengths.reserve(1)?;
        note_length(&mut self.zero.lengths, 0, sender, receiver, length);
        note_length(&mut self.one.lengths, 1, sender, receiver, length);
        note_length(&mut self.two.lengths, 2, sender, receiver, length);
        Ok(())
    }

    /// Notes all that another trace holds, at each server behind what stands there. Out of memory each server has a prefix of it.
    pub fn note_trace(&mut self, other: &Trace) -> Result<(), Memory>
        ensures { GrewBy self.old self.new other.now result }
    {
        self.zero.add(&other.zero)?;
        self.one.add(&other.one)?;
        self.two.add(&other.two)
    }
}

// Whether this is the server of that number.
fn is_server(number: u8, peer: Peer) -> bool
    requires { number < 3 }
    ensures { IsTrue result ↔ IsTrue (is_server number peer) }
{
    match peer {
        Peer::Client => false,
        Peer::Server0 => number == 0,
        Peer::Server1 => number == 1,
        Peer::Server2 => number == 2,
    }
}

// Notes a length where the server sends or receives the message, for which there is room.
fn note_length(lengths: &mut Vec<u64>, number: u8, sender: Peer, receiver: Peer, length: u64)
    requires number { number < 3 }
    requires room { vec_len lengths.old < vec_capacity lengths.old }
    ensures { lengths.new.items ≡ lengths.old.items ++ length_at number sender receiver length }
{
    if is_server(number, sender) || is_server(number, receiver) {
        lengths.push_reserved(length);
    }
}

/// Whether two traces are the same: at each server the same visits and the same lengths, in order.
pub fn same(a: &Trace, b: &Trace) -> bool
    ensures { IsTrue result ↔ (a.now ≡ b.now) }
{
    same_notes(&a.zero, &b.zero) && same_notes(&a.one, &b.one) && same_notes(&a.two, &b.two)
}

// Whether a server sees the same.
fn same_notes(a: &Notes, b: &Notes) -> bool
    ensures { IsTrue result ↔ ((a.now.visits ≡ b.now.visits) × (a.now.lengths.items ≡ b.now.lengths.items)) }
{
    same_visits(a.visits.iter(), b.visits.iter())
        && same_lengths(a.lengths.as_slice(), b.lengths.as_slice())
}

// Whether two visits are the same.
fn same_visit(a: Visit, b: Visit) -> bool
    ensures { IsTrue result ↔ (a ≡ b) }
{
    a.column == b.column && a.chunk == b.chunk
}

// Whether visits are the same, in order.
fn same_visits(a: Visits<'_>, b: Visits<'_>) -> bool
    ensures { IsTrue result ↔ (a ≡ b) }
{
    let mut theirs = b;
    for visit in a {
        let Some(other) = theirs.next() else {
            return false;
        };
        if !same_visit(visit, other) {
            return false;
        }
    }
    theirs.next().is_none()
}

// Whether lengths are the same.
fn same_lengths(a: &[u64], b: &[u64]) -> bool
    ensures { IsTrue result ↔ (a.now ≡ b.now) }
{
    a == b
}
