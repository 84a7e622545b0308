//! Why a call on a table did not do what it is for.
ghost use Rattle.std.specs.Prelude.{◌≡◌};
ghost use Rattle.waldo_table.specs.Faults.{as_asked, at_server};

use crate::prepared::Prepared;

/// The pass had no draw left, and nothing was drawn: the table's capacity in rows, and the prepared row, which the caller
/// has back.
#[derive(Drop)]
pub struct Full {
    pub capacity: u32,
    pub prepared: Prepared,
}

/// Why the three servers did not agree. The pass's floor stays in both cases.
#[derive(Clone, Copy, Debug, PartialEq, Eq)]
pub enum AgreeFault {
    /// At the look of this call the server (0, 1 or 2) had only the first `had` rows, fewer than the floor. The servers
    /// before it had at least `floor`; those after it were not looked at.
    Again { server: u8, had: u64, floor: u64 },
    /// Memory ran out.
    Memory,
}

/// Why a query was not answered.
#[derive(Clone, Copy, Debug, PartialEq, Eq)]
pub enum AskFault {
    /// No agreement, as [`AgreeFault::Again`] says. No message was carried.
    Again { server: u8, had: u64, floor: u64 },
    /// The check refused the opened pair, which is here: the total, and the total under the weights. It comes only where
    /// the wire altered a message.
    Altered { total: u128, weighted: u128 },
    /// Memory ran out, before the agreement or after it.
    Memory,
}

impl AgreeFault {
    pub(crate) fn asked(self) -> AskFault
        ensures { result ≡ as_asked self }
    {
        match self {
            AgreeFault::Again { server, had, floor } => AskFault::Again { server, had, floor },
            AgreeFault::Memory => AskFault::Memory,
        }
    }
}

// Why no snapshot was taken at a server.
#[derive(Clone, Copy)]
pub(crate) enum FixFault {
    Below { had: u64 },
    Memory,
}

impl FixFault {
    pub(crate) fn at(self, server: u8, floor: u64) -> AgreeFault
        ensures { result ≡ at_server server floor self }
    {
        match self {
            FixFault::Below { had } => AgreeFault::Again { server, had, floor },
            FixFault::Memory => AgreeFault::Memory,
        }
    }
}
