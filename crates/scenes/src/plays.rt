//! Playing one line of a script.

ghost use Rattle.scenes.specs.Scenes.{Keeps};

use crate::names::digests;
use crate::stages::{Outcome, Stage};
use crate::steps::Step;
use crate::steps::makes::step;
use device::digests::Digest;
use fleet::fleets::Report;
use script::faults::Fault;
use script::labels::labels;
use script::lines::reads::read;
use std::alloc::Global;

/// A refused line changes nothing.
pub fn play_line(stage: &mut Option<Stage>, heap: Global, line: &str) -> Result<Outcome, Fault>
    ensures refuses { Keeps stage.old stage.new result }
{
    let words = line.split_whitespace().collect::<Vec<&str>>(heap)?;
    let (line, programs) = read(words.as_slice())?;
    let programs = labels(heap, programs)?;
    let step = step(line, programs.as_slice())?;
    let digests = digests(heap, programs.as_slice())?;
    match step {
        Step::Fleet { machines, judges } => begin(
            stage,
            heap,
            digests.as_slice(),
            machines,
            judges,
        ),
        step => match stage {
            Some(stage) => stage.take(heap, step, digests.as_slice()),
            None => Err(Fault::NoFleet),
        },
    }
}

/// A new fleet; nothing of an older one is kept.
fn begin(
    stage: &mut Option<Stage>,
    heap: Global,
    bad: &[Digest],
    machines: u32,
    judges: u32,
) -> Result<Outcome, Fault>
    ensures refuses { Keeps stage.old stage.new result }
{
    *stage = Some(Stage::new(heap, bad, machines, judges)?);
    Ok(Outcome::Reported(Ok(Report::Done)))
}
