//! The visits of a trace, one after another.
ghost use Rattle.std.specs.Prelude.{◌≡◌};
ghost use Rattle.std.specs.Iterator.{YieldsFirst, item_count};
ghost use Rattle.visit_trace.specs.Runs.{visits_of};

use crate::run::Run;
use scan_chunks::Visit;
use std::marker::Model;

/// An iterator over visits, in order; it is seen as the list of those that it has left.
#[derive(Drop)]
pub struct Visits<'a> {
    run: Option<Run>,
    others: &'a [Run],
}

impl<'a> Model for Visits<'a> {
    ghost use Rattle.std.specs.Prelude.{List};
    ghost use Rattle.scan_chunks.specs.declared.visit.Visit.{Visit};
    ghost use Rattle.visit_trace.specs.Runs.{visits_from};

    ghost Value = { List Visit };

    ghost view = { λ v. visits_from v.run v.others.now };
}

impl<'a> Visits<'a> {
    /// Those of runs.
    pub(crate) fn over(runs: &'a [Run]) -> Visits<'a>
        ensures { result ≡ visits_of runs.now }
    {
        match runs.split_first() {
            None => Visits {
                run: None,
                others: runs,
            },
            Some((run, others)) => Visits {
                run: Some(*run),
                others,
            },
        }
    }
}

impl<'a> Iterator for Visits<'a> {
    type Item = Visit;

    ghost next_gives = { YieldsFirst (λ v. v) };

    ghost remaining = { item_count (λ v. v) };

    #[tactic(auto, using(crate::proofs::Stretches::without_first, crate::proofs::Stretches::one_visit))]
    fn next(&mut self) -> Option<Visit> {
        let run = self.run?;
        if run.first < run.last {
            self.run = Some(Run {
                column: run.column,
                first: run.first + 1,
                last: run.last,
            });
        } else {
            *self = Visits::over(self.others);
        }
        Some(Visit {
            column: run.column,
            chunk: run.first,
        })
    }
}
