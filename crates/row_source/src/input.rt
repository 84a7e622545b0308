//! A whole input, within a bound.
ghost use Rattle.std.specs.Prelude.{◌≡◌, ◌^◌, ◌<◌, IfOk, IfErr};
ghost use Rattle.fault_count.specs.Streams.{change};
ghost use Rattle.row_source.specs.Input.{HasReadFault, Reads, most_bytes};
ghost use Rattle.row_source.specs.Input.Reading.{Whole};
ghost use Rattle.row_source.specs.declared.input.ReadFault.TheVariants.{Memory};

use crate::source::Source;
use std::alloc::{AllocError, Global};

/// The most bytes of an input.
pub const LIMIT: u64 = 16_777_216;

/// How many bytes are asked for at a time.
const BUFFER: usize = 8192;

/// Why an input was not read whole.
#[derive(Clone, Copy, Debug, PartialEq, Eq)]
pub enum ReadFault {
    /// A read failed.
    Failed,
    /// The input has a byte past the most that are read, and that byte was taken.
    TooLong,
    /// There is not enough memory; some bytes may have been taken.
    Memory,
}

impl From<AllocError> for ReadFault {
    ghost from_gives = { λ _ e. e ≡ Memory };

    fn from(_error: AllocError) -> ReadFault {
        ReadFault::Memory
    }
}

// All bytes of a source that has at most `limit` of them.
fn read_within<S: Source>(alloc: Global, source: &mut S, limit: u64) -> Result<Vec<u8>, ReadFault>
    requires { limit < 2 ^ 32 }
    ensures whole { IfOk result (λ v. Reads limit (Whole v.items) (change S.sight source.old source.new)) }
    ensures fault { IfErr result (λ f. HasReadFault limit f (change S.sight source.old source.new)) }
{
    let limit = limit as usize;
    let mut bytes = Vec::new(alloc);
    let mut buffer = [0u8; BUFFER];
    while bytes.len() <= limit {
        let room = BUFFER.min(limit + 1 - bytes.len());
        match source.read(&mut buffer[..room]) {
            Ok(0) => return Ok(bytes),
            Ok(count) => bytes.extend_from_slice(&buffer[..count])?,
            Err(_) => return Err(ReadFault::Failed),
        }
    }
    Err(ReadFault::TooLong)
}

/// All bytes of a source, to its end, where there are at most 16,777,216. It makes at most that many reads
/// and one more.
pub fn read_all<S: Source>(alloc: Global, source: &mut S) -> Result<Vec<u8>, ReadFault>
    ensures whole { IfOk result (λ v. Reads most_bytes (Whole v.items) (change S.sight source.old source.new)) }
    ensures fault { IfErr result (λ f. HasReadFault most_bytes f (change S.sight source.old source.new)) }
{
    read_within(alloc, source, LIMIT)
}
