use std::alloc::{AllocError, AllocFailed};

/// Why a piece of a schema's text is no column, in the order in which the causes are looked for.
#[derive(Clone, Copy, Debug, PartialEq, Eq)]
pub enum SchemaWhy {
    /// What stands before the first `:` is not 1 to 16 bytes, a small letter first, then small letters,
    /// digits and underscores; or it is `value`.
    Name,
    /// The bits are not one digit from 1 to 8.
    Bits,
    /// What follows the `@` is no number.
    Start,
    /// What follows the `/` is no number, or is 0.
    Step,
}

/// Why a text is no schema: the first fault from the left.
#[derive(Clone, Copy, Debug, PartialEq, Eq)]
pub enum SchemaFault {
    /// The text has more pieces than a table has columns at most; looked for before all others.
    Count { had: u64 },
    /// The piece with this index, from 0, is no column.
    Column { index: u8, why: SchemaWhy },
    /// The piece with this index, from 0, is a column whose name an earlier one has.
    Repeated { index: u8 },
    /// There is not enough memory.
    Memory,
}

impl From<AllocError> for SchemaFault {
    ghost use Rattle.std.specs.Prelude.{◌≡◌};
    ghost use Rattle.table_schema.specs.declared.faults.SchemaFault.TheVariants.{Memory};

    ghost from_gives = { λ _ e. e ≡ Memory };

    fn from(_e: AllocError) -> SchemaFault {
        SchemaFault::Memory
    }
}

impl<T: Drop> From<AllocFailed<T>> for SchemaFault {
    ghost use Rattle.std.specs.Prelude.{◌≡◌};
    ghost use Rattle.table_schema.specs.declared.faults.SchemaFault.TheVariants.{Memory};

    ghost from_gives = { λ _ e. e ≡ Memory };

    fn from(_e: AllocFailed<T>) -> SchemaFault {
        SchemaFault::Memory
    }
}
