//! Sources of bytes.
ghost use Rattle.std.specs.Prelude.{◌≡◌, ◌↔◌, IfOk, IsErr, OnErr, Contains, Some, length, min};
ghost use Rattle.std.specs.Io.{ReadsAtMost};
ghost use Rattle.std.specs.Io.KnownBytes.{ReadConsumes};
ghost use Rattle.fault_count.specs.Causes.{HasCause, next};
ghost use Rattle.fault_count.specs.Streams.{ByteSight};

use fault_count::raised;
use ring128::Memory;
use std::alloc::Global;
use std::io::Read;
use std::marker::Model;

/// A read failed, and nothing was taken.
#[derive(Clone, Copy, Debug, PartialEq, Eq)]
pub struct Failed;

/// A source of bytes. It may report the bytes that it has left, and counts its faults.
pub trait Source {
    // What contracts see of a source: the bytes left, where it reports them, and how many reads have failed.
    ghost sight: { ByteSight Self };

    /// How many reads have failed; the count stops at 2^64 - 1.
    fn faults(&self) -> u64
        ensures { result ≡ sight.faults self.now };

    /// Moves some of the bytes left to the start of the buffer and says how many; or fails, raises its
    /// count, and has taken nothing. 0 for a buffer that is not empty is the end of the input.
    fn read(&mut self, buffer: &mut [u8]) -> Result<usize, Failed>
        ensures bound { ReadsAtMost result buffer.new }
        ensures bytes { ReadConsumes (sight.bytes self.old) (sight.bytes self.new) result buffer.new }
        ensures cause { HasCause (sight.faults self.old) (sight.faults self.new) result };
}

/// Bytes in memory, some of whose reads fail.
#[derive(Drop)]
pub struct MemorySource {
    bytes: Vec<u8>,
    at: usize,
    number: u64,
    failing: Vec<u64>,
    faults: u64,
}

impl Model for MemorySource {
    ghost use Rattle.std.specs.Prelude.{◌≤◌, drop, vec_len};
    ghost use Rattle.row_source.specs.Source.{Input};

    ghost Value = { Input };

    ghost view = { λ s. record { left = drop s.at s.bytes.items; number = s.number; failing = s.failing.items; faults = s.faults } };

    ghost invariant = { λ s. s.at ≤ vec_len s.bytes };
}

impl MemorySource {
    /// A source of these bytes, whose reads with these numbers, from 0, fail.
    pub fn new(alloc: Global, bytes: &[u8], failing: &[u64]) -> Result<MemorySource, Memory>
        ensures { IfOk result (λ s. s ≡ record { left = bytes.now; number = 0; failing = failing.now; faults = 0 }) }
    {
        Ok(MemorySource {
            bytes: Vec::from_slice(alloc, bytes)?,
            at: 0,
            number: 0,
            failing: Vec::from_slice(alloc, failing)?,
            faults: 0,
        })
    }
}

impl Source for MemorySource {
    ghost sight = { record { bytes = λ s. Some s.left; faults = λ s. s.faults } };

    fn faults(&self) -> u64 {
        self.faults
    }

    fn read(&mut self, buffer: &mut [u8]) -> Result<usize, Failed>
        ensures bound { ReadsAtMost result buffer.new }
        ensures bytes { ReadConsumes (Some self.old.left) (Some self.new.left) result buffer.new }
        ensures cause { HasCause self.old.faults self.new.faults result }

        // Just the reads with the numbers given fail; each other one gives as much as the buffer takes.
        ensures fails { IsErr result ↔ Contains self.old.failing self.old.number }
        ensures full { IfOk result (λ n. n ≡ min (length buffer.new) (length self.old.left)) }

        // What else there is: the next number, and one fault more.
        ensures number { self.new.number ≡ next self.old.number }
        ensures fault { OnErr result (self.new.faults ≡ next self.old.faults) }
        ensures failing { self.new.failing ≡ self.old.failing }
    {
        let number = self.number;
        self.number = raised(number);
        if self.failing.contains(&number) {
            self.faults = raised(self.faults);
            return Err(Failed);
        }
        let mut rest = &self.bytes[self.at..];
        match rest.read(buffer) {
            Ok(count) => {
                self.at += count;
                Ok(count)
            }
            Err(_) => unreachable!(),
        }
    }
}

/// Bytes in memory, of which each read succeeds.
#[derive(Drop)]
pub struct SureSource {
    bytes: Vec<u8>,
    at: usize,
}

impl Model for SureSource {
    ghost use Rattle.std.specs.Prelude.{◌≤◌, List, ℕ, drop, vec_len};

    ghost Value = { List ℕ };

    ghost view = { λ s. drop s.at s.bytes.items };

    ghost invariant = { λ s. s.at ≤ vec_len s.bytes };
}

impl SureSource {
    /// A source of these bytes.
    pub fn new(alloc: Global, bytes: &[u8]) -> Result<SureSource, Memory>
        ensures { IfOk result (λ s. s ≡ bytes.now) }
    {
        Ok(SureSource {
            bytes: Vec::from_slice(alloc, bytes)?,
            at: 0,
        })
    }
}

impl Source for SureSource {
    ghost sight = { record { bytes = λ s. Some s; faults = λ _. 0 } };

    fn faults(&self) -> u64 {
        0
    }

    fn read(&mut self, buffer: &mut [u8]) -> Result<usize, Failed>
        ensures bound { ReadsAtMost result buffer.new }
        ensures bytes { ReadConsumes (Some self.old) (Some self.new) result buffer.new }
        ensures cause { HasCause 0 0 result }
        ensures full { IfOk result (λ n. n ≡ min (length buffer.new) (length self.old)) }
    {
        let mut rest = &self.bytes[self.at..];
        match rest.read(buffer) {
            Ok(count) => {
                self.at += count;
                Ok(count)
            }
            Err(_) => unreachable!(),
        }
    }
}
