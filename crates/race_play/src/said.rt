//! Lines, seen as a list.
ghost use Rattle.std.specs.Prelude.{◌≡◌, [], ◌∷◌, ◌++◌, OnOk};

use report_lines::Line;
use ring128::Memory;
use std::alloc::Global;
use std::marker::Model;

/// What was said: lines, seen as a list.
#[derive(Drop)]
pub struct Said {
    lines: Vec<Line>,
}

impl Model for Said {
    ghost use Rattle.std.specs.Prelude.{List};
    ghost use Rattle.report_lines.specs.declared.lines.Line.{Line};

    ghost Value = { List Line };

    ghost view = { λ s. s.lines.items };
}

impl Said {
    /// Nothing said, which takes no memory.
    pub fn new(alloc: Global) -> Said
        ensures { result ≡ [] }
    {
        Said {
            lines: Vec::new(alloc),
        }
    }

    /// Puts a line behind the others. The only error is out of memory.
    pub fn push(&mut self, line: Line) -> Result<(), Memory>
        ensures { OnOk result (self.new ≡ self.old ++ line ∷ []) }
    {
        self.lines.push(line)?;
        Ok(())
    }

    /// Puts other lines behind these. The only error is out of memory.
    pub fn push_all(&mut self, more: Said) -> Result<(), Memory>
        ensures { OnOk result (self.new ≡ self.old ++ more) }
    {
        for line in more.lines {
            self.lines.push(line)?;
        }
        Ok(())
    }

    /// The lines.
    pub fn into_lines(self) -> Vec<Line>
        ensures { result.items ≡ self }
    {
        self.lines
    }
}
