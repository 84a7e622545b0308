//! A source over any reader and a sink over any writer, each with a count of its faults.
ghost use Rattle.std.specs.Prelude.{◌≡◌};

use fault_count::raised;
use report_lines::Sink;
use row_source::Source;
use std::io::{Read, Write};

/// A source over a reader. It reports the bytes that the reader reports.
#[derive(Drop)]
pub struct Reading<R> {
    inner: R,
    faults: u64,
}

impl<R: Read> Reading<R> {
    /// A source with no fault so far.
    pub fn new(inner: R) -> Reading<R>
        ensures left { ⟦<Reading<R> as Source>⟧.sight.bytes result ≡ R.remaining inner }
        ensures none { ⟦<Reading<R> as Source>⟧.sight.faults result ≡ 0 }
    {
        Reading { inner, faults: 0 }
    }
}

impl<R: Read> Source for Reading<R> {
    ghost sight = { record { bytes = λ s. R.remaining s.inner; faults = λ s. s.faults } };

    fn faults(&self) -> u64 {
        self.faults
    }

    fn read(&mut self, buffer: &mut [u8]) -> Result<usize, row_source::Failed> {
        match self.inner.read(buffer) {
            Ok(count) => Ok(count),
            Err(_) => {
                self.faults = raised(self.faults);
                Err(row_source::Failed)
            }
        }
    }
}

/// A sink over a writer. It reports the bytes that the writer reports.
#[derive(Drop)]
pub struct Writing<W> {
    inner: W,
    faults: u64,
}

impl<W: Write> Writing<W> {
    /// A sink with no fault so far.
    pub fn new(inner: W) -> Writing<W>
        ensures taken { ⟦<Writing<W> as Sink>⟧.sight.bytes result ≡ W.contents inner }
        ensures none { ⟦<Writing<W> as Sink>⟧.sight.faults result ≡ 0 }
    {
        Writing { inner, faults: 0 }
    }
}

impl<W: Write> Sink for Writing<W> {
    ghost sight = { record { bytes = λ s. W.contents s.inner; faults = λ s. s.faults } };

    fn faults(&self) -> u64 {
        self.faults
    }

    // A write that takes nothing of a piece that is not empty counts as a failure.
    fn put(&mut self, piece: &[u8]) -> Result<(), report_lines::Failed> {
        let mut rest = piece;
        while !rest.is_empty() {
            match self.inner.write(rest) {
                Ok(0) | Err(_) => {
                    self.faults = raised(self.faults);
                    return Err(report_lines::Failed);
                }
                Ok(count) => rest = &rest[count..],
            }
        }
        Ok(())
    }
}

#[cfg(test)]
mod tests;
