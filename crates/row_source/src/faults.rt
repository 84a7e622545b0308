use report_lines::RowWhy;
use ring128::Memory;
use std::alloc::AllocFailed;

/// Why an input gives no rows: the first of these causes.
#[derive(Clone, Copy, Debug, PartialEq, Eq)]
pub enum RowFault {
    /// The first record is not the columns' names in order and then `value`, or there is no record.
    Header,
    /// The record with this number, from 1 after the header, is the first that is no row.
    BadRecord { number: u64, why: RowWhy },
    /// There are more records after the header than the capacity; looked for before any bad record.
    TooMany { capacity: u32 },
    /// There is not enough memory.
    Memory,
}

impl<T: Drop> From<AllocFailed<T>> for RowFault {
    ghost use Rattle.std.specs.Prelude.{◌≡◌};
    ghost use Rattle.row_source.specs.declared.faults.RowFault.TheVariants as fault;

    ghost from_gives = { λ _ e. e ≡ fault.Memory };

    fn from(_e: AllocFailed<T>) -> RowFault {
        RowFault::Memory
    }
}

impl From<Memory> for RowFault {
    ghost use Rattle.std.specs.Prelude.{◌≡◌};
    ghost use Rattle.row_source.specs.declared.faults.RowFault.TheVariants as fault;

    ghost from_gives = { λ _ e. e ≡ fault.Memory };

    fn from(_e: Memory) -> RowFault {
        RowFault::Memory
    }
}
