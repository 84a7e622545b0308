//! The report of a race.
ghost use Rattle.std.specs.Prelude.{◌≡◌, ◌∷◌, ◌++◌, OnOk, IfOk, length};
ghost use Rattle.std.specs.List.{list_any};
ghost use Rattle.report_lines.specs.declared.lines.Line.TheVariants as lines;
ghost use Rattle.race_play.specs.Reports.{is_altered, place_lines};

use crate::said::Said;
use crate::together::Raced;
use report_lines::{Line, Report};
use ring128::Memory;
use std::alloc::Global;

/// What a race came to: a report, and whether the check refused the pair that some query opened.
#[derive(Drop)]
pub struct Ran {
    pub report: Report,
    pub altered: bool,
}

// A line for each place.
fn push_places(report: &mut Report, order: &[u64]) -> Result<(), Memory>
    ensures { OnOk result (report.new ≡ report.old ++ place_lines 0 order.now) }
{
    for place in 0..order.len() {
        report.push(Line::Place {
            place: place as u64,
            row: order[place],
        })?;
    }
    Ok(())
}

// Lines behind others.
fn push_lines(report: &mut Report, lines: Vec<Line>) -> Result<(), Memory>
    ensures { OnOk result (report.new ≡ report.old ++ lines.items) }
{
    for line in lines {
        report.push(line)?;
    }
    Ok(())
}

// Whether the line is that of a pair that the check refused.
fn is_altered(line: &Line) -> bool
    ensures { result ≡ is_altered line.now }
{
    matches!(
        line,
        Line::Altered { .. } | Line::TreeAltered { .. } | Line::GroupAltered { .. }
    )
}

/// Whether the check refused a pair.
pub fn any_altered(lines: &[Line]) -> bool
    ensures { result ≡ list_any is_altered lines.now }
{
    for line in lines {
        if is_altered(line) {
            return true;
        }
    }
    false
}

/// The lines of a race: how many rows there are, the place of each, the writers' lines, the askers', and those of the last queries.
/// The only error is out of memory.
pub(crate) fn report_of(alloc: Global, raced: Raced, ends: Said) -> Result<Ran, Memory>
    ensures text { IfOk result (λ r. r.report ≡ lines.Rows (length raced.order.items)
        ∷ place_lines 0 raced.order.items ++ raced.backs.items ++ raced.asks ++ ends) }
    ensures altered { IfOk result (λ r. r.altered ≡ list_any is_altered r.report) }
{
    let mut report = Report::new(alloc);
    report.push(Line::Rows {
        count: raced.order.len() as u64,
    })?;
    push_places(&mut report, raced.order.as_slice())?;
    push_lines(&mut report, raced.backs)?;
    push_lines(&mut report, raced.asks.into_lines())?;
    push_lines(&mut report, ends.into_lines())?;
    let altered = any_altered(report.lines());
    Ok(Ran { report, altered })
}
