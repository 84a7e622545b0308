//! The client's check, bucket by bucket.
ghost use Rattle.std.specs.Prelude.{◌≡◌, length, IfOk};
ghost use Rattle.weighted_check.specs.Check.{checked};
ghost use Rattle.bucket_groups.specs.Check.{AreJudged, answer_of, answers_of};

use crate::run::GroupTotals;
use ring128::Memory;
use std::alloc::Global;
use std::marker::Model;
use weighted_check::check;

/// What the client answers for a bucket: the count or sum, which may be negative, or the pair as it was opened where that is refused.
#[derive(Clone, Copy, Debug, PartialEq, Eq)]
pub enum GroupAnswer {
    Good { total: i64 },
    Altered { total: u128, weighted: u128 },
}

/// The answers of all buckets, in order.
#[derive(Drop)]
pub struct GroupAnswers {
    items: Vec<GroupAnswer>,
}

impl Model for GroupAnswers {
    ghost use Rattle.std.specs.Prelude.{List};
    ghost use Rattle.bucket_groups.specs.declared.check.GroupAnswer.{GroupAnswer};

    ghost Value = { List GroupAnswer };

    ghost view = { λ a. a.items.items };
}

impl GroupAnswers {
    /// The answers.
    pub fn as_slice(&self) -> &[GroupAnswer]
        ensures { result.now ≡ self.now }
    {
        self.items.as_slice()
    }
}

// The answer of a bucket.
fn answer(total: u128, weighted: u128, key: u128) -> GroupAnswer
    ensures { result ≡ answer_of (checked total weighted key) }
{
    match check(total, weighted, key) {
        Ok(total) => GroupAnswer::Good { total },
        Err(pair) => GroupAnswer::Altered {
            total: pair.total,
            weighted: pair.weighted,
        },
    }
}

/// For each bucket what `check` answers for its own pair. The only error is out of memory.
pub fn check_groups(alloc: Global, totals: &GroupTotals, key: u128) -> Result<GroupAnswers, Memory>
    requires { length totals.now.total ≡ length totals.now.weighted }
    ensures answers { IfOk result (λ a. a ≡ answers_of totals.now.total totals.now.weighted key) }
    ensures accepts { IfOk result (λ a. AreJudged totals.now.total totals.now.weighted key a) }
{
    let (total, weighted) = (totals.total.as_slice(), totals.weighted.as_slice());
    let mut items = Vec::with_capacity(alloc, total.len())?;
    for b in 0..total.len() {
        items.push_reserved(answer(total[b], weighted[b], key));
    }
    Ok(GroupAnswers { items })
}
