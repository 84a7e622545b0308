//! Visits, kept as runs of chunks: a trace of many queries over many rows takes little memory.
ghost use Rattle.std.specs.Prelude.{◌≡◌, ◌↔◌, ◌+◌, ◌<◌, ◌≤◌, ◌++◌, [], ◌∷◌, IfOk, OnOk, OnErr, IfSome, IsSome, vec_len, vec_capacity};
ghost use Rattle.visit_trace.specs.Runs.{run_visits, visits_of};

use crate::run::Run;
use crate::visits::Visits;
use ring128::Memory;
use scan_chunks::Visit;
use std::alloc::Global;
use std::marker::Model;

// The run of one visit.
fn one_visit(visit: Visit) -> Run
    ensures { run_visits result ≡ visit ∷ [] }
{
    Run {
        column: visit.column,
        first: visit.chunk,
        last: visit.chunk,
    }
}

// One run for two, where the second one goes on where the first one ends.
fn joined(run: Run, next: Run) -> Option<Run>
    ensures visits { IfSome result (λ whole. run_visits whole ≡ run_visits run ++ run_visits next) }
    ensures when { IsSome result ↔ ((next.column ≡ run.column) × (next.first ≡ run.last + 1)) }
{
    if next.column == run.column && run.last < next.first && next.first - run.last == 1 {
        return Some(Run {
            column: run.column,
            first: run.first,
            last: next.last,
        });
    }
    None
}

// Adds a run, for which there is room: one that goes on where the last one ends makes that one longer.
fn add_run(runs: &mut Vec<Run>, run: Run)
    requires { vec_len runs.old < vec_capacity runs.old }
    ensures visits { visits_of runs.new.items ≡ visits_of runs.old.items ++ run_visits run }
    ensures one { vec_len runs.new ≤ vec_len runs.old + 1 }
    ensures room { vec_capacity runs.new ≡ vec_capacity runs.old }
{
    match runs.pop() {
        None => runs.push_reserved(run),
        Some(last) => match joined(last, run) {
            Some(whole) => runs.push_reserved(whole),
            None => {
                runs.push_reserved(last);
                runs.push_reserved(run);
            }
        },
    }
}

// The runs of visits.
fn runs_of(alloc: Global, visits: &[Visit]) -> Result<Vec<Run>, Memory>
    ensures { IfOk result (λ runs. visits_of runs.items ≡ visits.now) }
{
    let mut runs = Vec::new(alloc);
    let Some((first, others)) = visits.split_first() else {
        return Ok(runs);
    };
    let mut run = one_visit(*first);
    for visit in others {
        let next = one_visit(*visit);
        match joined(run, next) {
            Some(whole) => run = whole,
            None => {
                runs.push(run)?;
                run = next;
            }
        }
    }
    runs.push(run)?;
    Ok(runs)
}

/// Visits in order, seen as a list.
#[derive(Drop)]
pub(crate) struct Runs {
    runs: Vec<Run>,
}

impl Model for Runs {
    ghost use Rattle.std.specs.Prelude.{List};
    ghost use Rattle.scan_chunks.specs.declared.visit.Visit.{Visit};
    ghost use Rattle.visit_trace.specs.Runs.{visits_of};

    ghost Value = { List Visit };

    ghost view = { λ r. visits_of r.runs.items };
}

impl Runs {
    /// No visits; it takes no memory.
    pub(crate) fn new(alloc: Global) -> Runs
        ensures { result ≡ [] }
    {
        Runs {
            runs: Vec::new(alloc),
        }
    }

    /// The visits, one after another.
    pub(crate) fn iter(&self) -> Visits<'_>
        ensures { result ≡ self.now }
    {
        Visits::over(self.runs.as_slice())
    }

    /// The runs.
    pub(crate) fn as_slice(&self) -> &[Run]
        ensures { visits_of result.now ≡ self.now }
    {
        self.runs.as_slice()
    }

    /// Adds the visits of runs. Out of memory nothing is added.
    pub(crate) fn add(&mut self, runs: &[Run]) -> Result<(), Memory>
        ensures added { OnOk result (self.new ≡ self.old ++ visits_of runs.now) }
        ensures kept { OnErr result (self.new ≡ self.old) }
    {
        self.runs.reserve(runs.len())?;
        for run in runs {
            add_run(&mut self.runs, *run);
        }
        Ok(())
    }

    /// Adds visits. Out of memory nothing is added.
    pub(crate) fn add_visits(&mut self, visits: &[Visit]) -> Result<(), Memory>
        ensures added { OnOk result (self.new ≡ self.old ++ visits.now) }
        ensures kept { OnErr result (self.new ≡ self.old) }
    {
        let alloc = *self.runs.allocator();
        let runs = runs_of(alloc, visits)?;
        self.add(runs.as_slice())
    }
}
