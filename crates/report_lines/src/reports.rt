//! A report and its text.
ghost use Rattle.std.specs.Prelude.{◌≡◌, [], ◌∷◌, ◌++◌, IfOk, OnErr, OnOk};
ghost use Rattle.report_lines.specs.Line.{text_of};

use crate::lines::Line;
use ring128::Memory;
use std::alloc::Global;
use std::fmt::Write;
use std::marker::Model;

/// A report, seen as the list of its lines.
#[derive(Drop)]
pub struct Report {
    lines: Vec<Line>,
}

impl Model for Report {
    ghost use Rattle.std.specs.Prelude.{List};
    ghost use Rattle.report_lines.specs.declared.lines.Line.{Line};

    ghost Value = { List Line };

    ghost view = { λ r. r.lines.items };
}

impl Report {
    /// A report without lines, which takes no memory.
    pub fn new(alloc: Global) -> Report
        ensures { result ≡ [] }
    {
        Report {
            lines: Vec::new(alloc),
        }
    }

    /// Adds a line at the end. Out of memory, the report is as before.
    pub fn push(&mut self, line: Line) -> Result<(), Memory>
        ensures added { OnOk result (self.new ≡ self.old ++ line ∷ []) }
        ensures kept { OnErr result (self.new ≡ self.old) }
    {
        self.lines.push(line)?;
        Ok(())
    }

    /// The lines.
    pub fn lines(&self) -> &[Line]
        ensures { result.now ≡ self.now }
    {
        self.lines.as_slice()
    }
}

/// The text of a report: each line's text in order, each with a line feed.
pub fn text(alloc: Global, report: &Report) -> Result<Vec<u8>, Memory>
    ensures { IfOk result (λ text. text.items ≡ text_of report.now) }
{
    let lines = report.lines();
    let mut text = String::new(alloc);
    for line in lines {
        writeln!(text, "{line}")?;
    }
    Ok(text.into_bytes())
}
