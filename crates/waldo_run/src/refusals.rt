//! Replies of one line: to words and inputs that are refused.
ghost use Rattle.std.specs.Prelude.{◌≡◌, ◌≢◌, IfOk};
ghost use Rattle.row_source.specs.declared.faults.RowFault.TheVariants as row;
ghost use Rattle.row_source.specs.declared.input.ReadFault.TheVariants as input;
ghost use Rattle.waldo_words.specs.declared.faults.WordFault.TheVariants as words;
ghost use Rattle.waldo_run.specs.Replies.{refusal, row_refusal, unread};

use crate::reply::{Reply, single_line};
use report_lines::Line;
use ring128::Memory;
use row_source::{ReadFault, RowFault};
use std::alloc::Global;
use waldo_words::WordFault;

/// The reply to words that are refused.
pub(crate) fn refused_words(alloc: Global, fault: WordFault) -> Result<Reply, Memory>
    ensures { IfOk result (λ reply. (reply ≡ refusal fault) × (fault ≢ words.Memory)) }
{
    match fault {
        WordFault::Word { index } => single_line(alloc, 2, Line::BadWord { index }),
        WordFault::Missing { name } => single_line(alloc, 2, Line::Missing { name }),
        WordFault::Memory => Err(Memory),
    }
}

/// The reply to an input that was not read whole.
pub(crate) fn unread_input(alloc: Global, fault: ReadFault) -> Result<Reply, Memory>
    ensures { IfOk result (λ reply. (reply ≡ unread fault) × (fault ≢ input.Memory)) }
{
    match fault {
        ReadFault::Failed => single_line(alloc, 3, Line::ReadFault),
        ReadFault::TooLong => single_line(alloc, 5, Line::TooLong),
        ReadFault::Memory => Err(Memory),
    }
}

/// The reply to an input that gives no rows.
pub(crate) fn refused_rows(alloc: Global, fault: RowFault) -> Result<Reply, Memory>
    ensures { IfOk result (λ reply. (reply ≡ row_refusal fault) × (fault ≢ row.Memory)) }
{
    match fault {
        RowFault::Header => single_line(alloc, 5, Line::Header),
        RowFault::BadRecord { number, why } => single_line(
            alloc,
            5,
            Line::BadRecord { number, why },
        ),
        RowFault::TooMany { capacity } => single_line(alloc, 5, Line::TooMany { capacity }),
        RowFault::Memory => Err(Memory),
    }
}
