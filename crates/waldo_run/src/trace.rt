//! The report of `trace`.
ghost use Rattle.std.specs.Prelude.{◌≡◌, ◌++◌, IfOk, OnOk};
ghost use Rattle.report_lines.specs.declared.lines.Line.TheVariants as lines;
ghost use Rattle.waldo_run.specs.Traces.{refused_line, trace_lines, traced};

use crate::seen::{Counts, Noted};
use report_lines::{Line, Report};
use ring128::Memory;
use std::alloc::Global;

// Adds the line of a query whose pair was refused.
fn push_refused(report: &mut Report, line: &Line) -> Result<(), Memory>
    ensures { OnOk result (report.new ≡ report.old ++ refused_line line.now) }
{
    if let Line::Altered {
        who,
        rows,
        total,
        weighted,
    } = line
    {
        report.push(Line::Altered {
            who: *who,
            rows: *rows,
            total: *total,
            weighted: *weighted,
        })?;
    }
    Ok(())
}

// The line of what a server saw of a query.
fn seen_line(index: u64, server: u8, counts: Counts) -> Line
    ensures { result ≡ lines.Trace index server counts.visits counts.words }
{
    Line::Trace {
        index,
        server,
        visits: counts.visits,
        words: counts.words,
    }
}

// Adds the lines of what each server saw of a query.
fn push_seen(report: &mut Report, index: u64, seen: &Noted) -> Result<(), Memory>
    ensures { OnOk result (report.new ≡ report.old ++ trace_lines index seen.now) }
{
    report.push(seen_line(index, 0, seen.zero))?;
    report.push(seen_line(index, 1, seen.one))?;
    report.push(seen_line(index, 2, seen.two))?;
    Ok(())
}

/// The report of `trace`, from that of `ask` and from what was seen of each query. The only error is out of memory.
pub(crate) fn traced(alloc: Global, seen: &[Noted], report: &Report) -> Result<Report, Memory>
    ensures { IfOk result (λ r. r ≡ traced 0 seen.now report.now) }
{
    let lines = report.lines();
    let mut traced = Report::new(alloc);
    for i in 0..seen.len().min(lines.len()) {
        push_refused(&mut traced, &lines[i])?;
        push_seen(&mut traced, i as u64, &seen[i])?;
    }
    Ok(traced)
}
