ghost use Rattle.std.specs.Prelude.{◌≡◌};

use std::alloc::{AllocError, AllocFailed};

/// Why a list of words is no key.
#[derive(Clone, Copy, Debug, PartialEq, Eq)]
pub enum KeyFault {
    /// The list has `had` words, and a key of that many bits has `wanted`.
    Length { had: u64, wanted: u64 },
    /// The control word of this level, counted from 0, is the first that is above 3.
    Bits { level: u8 },
    /// Out of memory.
    Memory,
}

impl From<AllocError> for KeyFault {
    ghost use Rattle.key_tree.specs.declared.fault.KeyFault.TheVariants.{Memory};

    ghost from_gives = { λ _ e. e ≡ Memory };

    fn from(_error: AllocError) -> KeyFault {
        KeyFault::Memory
    }
}

impl<T: Drop> From<AllocFailed<T>> for KeyFault {
    ghost use Rattle.key_tree.specs.declared.fault.KeyFault.TheVariants.{Memory};

    ghost from_gives = { λ _ e. e ≡ Memory };

    fn from(_error: AllocFailed<T>) -> KeyFault {
        KeyFault::Memory
    }
}

impl From<ring128::Memory> for KeyFault {
    ghost use Rattle.key_tree.specs.declared.fault.KeyFault.TheVariants.{Memory};

    ghost from_gives = { λ _ e. e ≡ Memory };

    fn from(_error: ring128::Memory) -> KeyFault {
        KeyFault::Memory
    }
}
