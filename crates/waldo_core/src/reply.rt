//! What is replied to an event.
ghost use Rattle.std.specs.Prelude.{◌≡◌};
ghost use Rattle.waldo_core.specs.Outcomes.{named, replied};

use crate::events::{Event, Reply, StepFault};
use agreed_rows::{AnswerFault, Answered};
use ring128::Memory;

/// What the client replies to a query over this many rows, as it was answered. The only error is that it was out of memory.
pub(crate) fn reply_over(
    rows: u64,
    answered: Result<Answered, AnswerFault>,
) -> Result<Option<Reply>, Memory>
    ensures { result ≡ replied rows answered }
{
    match answered {
        Ok(Answered { rows, total }) => Ok(Some(Reply::Answered { rows, total })),
        Err(fault) => match fault {
            AnswerFault::Altered { total, weighted } => Ok(Some(Reply::Altered {
                rows,
                total,
                weighted,
            })),
            AnswerFault::Memory => Err(Memory),
        },
    }
}

/// The outcome of an event: one without a reply is not allowed.
pub(crate) fn outcome_of(
    event: Event,
    done: Result<Option<Reply>, Memory>,
) -> Result<Reply, StepFault>
    ensures { result ≡ named event done }
{
    match done {
        Ok(Some(reply)) => Ok(reply),
        Ok(None) => Err(StepFault::NotAllowed { event }),
        Err(_) => Err(StepFault::Memory),
    }
}
