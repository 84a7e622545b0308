//! The line of an agreement, and of an ask.
ghost use Rattle.std.specs.Prelude.{◌≡◌, Err};
ghost use Rattle.race_play.specs.Lines.{line_of_ask, line_of_back, line_of_fault};
ghost use Rattle.waldo_table.specs.Asks.{IsNeverAgain};

use report_lines::{Line, Who};
use ring128::Memory;
use table_schema::Aggregate;
use waldo_table::{AgreeFault, Agreed, Answered, AskFault};

// The line of a writer for what its agreement came to.
pub(crate) fn line_of_back(writer: u8, agreed: Result<Agreed, AgreeFault>) -> Result<Line, Memory>
    ensures { result ≡ line_of_back writer agreed }
{
    match agreed {
        Ok(agreed) => Ok(Line::Back {
            writer,
            rows: agreed.rows(),
        }),
        Err(fault) => line_of_fault(writer, fault),
    }
}

// The line of a writer that met a server without some row.
fn line_of_fault(writer: u8, fault: AgreeFault) -> Result<Line, Memory>
    ensures { result ≡ line_of_fault writer fault }
{
    match fault {
        AgreeFault::Again { server, had, floor } => Ok(Line::BackAgain {
            writer,
            server,
            had,
            floor,
        }),
        AgreeFault::Memory => Err(Memory),
    }
}

// The line of an ask over this number of rows.
pub(crate) fn line_of_ask(
    who: Who,
    rows: u64,
    aggregate: Aggregate,
    asked: Result<Answered, AskFault>,
) -> Result<Line, Memory>
    requires { IsNeverAgain asked }
    ensures { result ≡ line_of_ask who rows aggregate asked }
{
    match asked {
        Ok(answered) => Ok(Line::Answer {
            who,
            rows,
            aggregate,
            total: answered.total,
        }),
        Err(AskFault::Altered { total, weighted }) => Ok(Line::Altered {
            who,
            rows,
            total,
            weighted,
        }),
        Err(AskFault::Again { .. }) => unreachable!(),
        Err(AskFault::Memory) => Err(Memory),
    }
}
