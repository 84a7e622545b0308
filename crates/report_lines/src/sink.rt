//! Sinks of bytes.
ghost use Rattle.std.specs.Prelude.{◌≡◌, ◌↔◌, ◌+◌, ◌-◌, ◌<◌, ◌⊎◌, ◌++◌, [], length, take, IfOk, IsErr, OnErr, Contains, Some, None};
ghost use Rattle.fault_count.specs.Causes.{HasCause, next};
ghost use Rattle.fault_count.specs.Streams.{ByteSight};
ghost use Rattle.report_lines.specs.Sink.{Takes};

use fault_count::raised;
use ring128::Memory;
use std::alloc::Global;
use std::marker::Model;

/// A put failed, and only a prefix of the piece was taken.
#[derive(Clone, Copy, Debug, PartialEq, Eq)]
pub struct Failed;

/// A sink of bytes. It may report the bytes that it has taken, and counts its faults.
pub trait Sink {
    // What contracts see of a sink: the bytes taken so far, where it reports them, and how many puts have failed.
    ghost sight: { ByteSight Self };

    /// How many puts have failed; the count stops at 2^64 - 1.
    fn faults(&self) -> u64
        ensures { result ≡ sight.faults self.now };

    /// Takes the whole piece; or fails, raises its count, and has taken a prefix of the piece.
    fn put(&mut self, piece: &[u8]) -> Result<(), Failed>
        ensures bytes { Takes (sight.bytes self.old) (sight.bytes self.new) result piece.now }
        ensures cause { HasCause (sight.faults self.old) (sight.faults self.new) result };
}

/// A sink in memory with room for `room` bytes, some of whose puts fail.
#[derive(Drop)]
pub struct MemorySink {
    bytes: Vec<u8>,
    room: usize,
    number: u64,
    failing: Vec<u64>,
    faults: u64,
}

impl Model for MemorySink {
    ghost use Rattle.std.specs.Prelude.{◌≤◌, vec_len, vec_capacity};
    ghost use Rattle.report_lines.specs.Sink.{Output};

    ghost Value = { Output };

    ghost view = { λ s. record { taken = s.bytes.items; room = s.room; number = s.number; failing = s.failing.items; faults = s.faults } };

    ghost invariant = { λ s. (vec_len s.bytes ≤ s.room) × (s.room ≤ vec_capacity s.bytes) };
}

impl MemorySink {
    /// An empty sink that takes `room` bytes in all, and whose puts with these numbers, from 0, fail. Its
    /// memory is taken here, so a put needs none.
    pub fn new(alloc: Global, room: u64, failing: &[u64]) -> Result<MemorySink, Memory>
        ensures { IfOk result (λ s. s ≡ record { taken = []; room = room; number = 0; failing = failing.now; faults = 0 }) }
    {
        let room = room as usize;
        Ok(MemorySink {
            bytes: Vec::with_capacity(alloc, room)?,
            room,
            number: 0,
            failing: Vec::from_slice(alloc, failing)?,
            faults: 0,
        })
    }

    /// The bytes taken.
    pub fn bytes(&self) -> &[u8]
        ensures { result.now ≡ self.now.taken }
    {
        self.bytes.as_slice()
    }
}

impl Sink for MemorySink {
    ghost sight = { record { bytes = λ s. Some s.taken; faults = λ s. s.faults } };

    fn faults(&self) -> u64 {
        self.faults
    }

    fn put(&mut self, piece: &[u8]) -> Result<(), Failed>
        ensures bytes { Takes (Some self.old.taken) (Some self.new.taken) result piece.now }
        ensures cause { HasCause self.old.faults self.new.faults result }

        // Just the puts with the numbers given fail, and those past the room.
        ensures fails { IsErr result
            ↔ (Contains self.old.failing self.old.number ⊎ (self.old.room < length self.old.taken + length piece.now)) }
        ensures by_number { Contains self.old.failing self.old.number → self.new.taken ≡ self.old.taken }
        ensures by_room { ¬ (Contains self.old.failing self.old.number)
            → self.new.taken ≡ self.old.taken ++ take (self.old.room - length self.old.taken) piece.now }

        // What else there is: the next number, and one fault more.
        ensures number { self.new.number ≡ next self.old.number }
        ensures fault { OnErr result (self.new.faults ≡ next self.old.faults) }
        ensures failing { self.new.failing ≡ self.old.failing }
        ensures room { self.new.room ≡ self.old.room }
    {
        let number = self.number;
        self.number = raised(number);
        if self.failing.contains(&number) {
            self.faults = raised(self.faults);
            return Err(Failed);
        }
        let free = self.room - self.bytes.len();
        if free < piece.len() {
            self.bytes.extend_from_slice(&piece[..free]).unwrap();
            self.faults = raised(self.faults);
            return Err(Failed);
        }
        self.bytes.extend_from_slice(piece).unwrap();
        Ok(())
    }
}

/// A sink that keeps nothing, reports nothing and never fails.
#[derive(Clone, Copy, Debug)]
pub struct SureSink;

impl SureSink {
    /// The sink.
    pub fn new() -> SureSink {
        SureSink
    }
}

impl Sink for SureSink {
    ghost sight = { record { bytes = λ _. None; faults = λ _. 0 } };

    fn faults(&self) -> u64 {
        0
    }

    fn put(&mut self, _piece: &[u8]) -> Result<(), Failed> {
        Ok(())
    }
}
