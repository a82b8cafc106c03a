//! Playing a script, line after line.

use crate::scripts::{Fault, Step, bare, parse, programs};
use crate::tells::Outcome;
use crate::words::Label;
use device::chips::{Answer, Command, Signature, Thing};
use device::digests::{Data, Digest};
use fleet::fleets::{Act, Event, Fleet, Report};
use std::alloc::Global;
use std::io;
use verifier::judges::{Reply, Word};

const FIRST: &str = "first";

/// A fleet, and the copies that were kept of what it gave out.
#[derive(Drop)]
struct Stage {
    fleet: Option<Fleet>,
    /// The latest first.
    signatures: Vec<Kept<Signature>>,
    things: Vec<Kept<Thing>>,
}

#[derive(Clone, Copy)]
struct Kept<T> {
    name: Label,
    value: T,
}

/// Prints each line and what came of it.
pub fn play(rt: &HostRuntime, text: &str) -> io::Result<()> {
    let heap = rt.alloc();
    let mut stage = Stage::new(heap);
    for (i, raw) in text.lines().enumerate() {
        let line = bare(raw);
        if line.is_empty() {
            continue;
        }
        match stage.play_line(heap, line) {
            Ok(outcome) => println!(rt; "{line} -> {outcome}")?,
            Err(why) => {
                let k = i.saturating_add(1);
                println!(rt; "line {k}: {why}")?;
            }
        }
    }
    Ok(())
}

impl Stage {
    fn new(heap: Global) -> Stage {
        Stage {
            fleet: None,
            signatures: Vec::new(heap),
            things: Vec::new(heap),
        }
    }

    fn play_line(&mut self, heap: Global, line: &str) -> Result<Outcome, Fault> {
        let words: Vec<&str> = line.split_whitespace().collect(heap)?;
        let step = parse(words.as_slice())?;
        let digests = programs(heap, words.as_slice())?;
        self.take(heap, &step, digests.as_slice())
    }

    fn take(&mut self, heap: Global, step: &Step, digests: &[Digest]) -> Result<Outcome, Fault> {
        match step {
            Step::Fleet(machines, judges) => self.begin(heap, digests, *machines, *judges),
            Step::Play(event) => self.report(heap, *event, digests),
            Step::Keep(event, name) => self.keep(heap, *event, *name),
            Step::Open(machine, name) => self.open(heap, *machine, *name),
            Step::Answer(judge, chip, data, list, name) => self.answer(
                heap, *judge, *chip, *data, *list, *name,
            ),
            Step::Has(data) => {
                let fleet = self.fleet.as_ref().ok_or(Fault::NoFleet)?;
                Ok(Outcome::Has(fleet.has(*data)))
            }
        }
    }

    /// The thing of this name is brought to the machine.
    // A function of its own, as `answer`: what it holds is laid out for a line of this kind alone.
    fn open(&mut self, heap: Global, machine: usize, name: Label) -> Result<Outcome, Fault> {
        let thing = find(self.things.as_slice(), name)?;
        let act = Act::Give(Command::Open(thing));
        self.report(heap, Event::At(machine, act), &[])
    }

    /// The signature of this name is brought to the judge by the net.
    fn answer(
        &mut self,
        heap: Global,
        judge: usize,
        chip: u32,
        data: Data,
        list: u16,
        name: Label,
    ) -> Result<Outcome, Fault> {
        let signature = find(self.signatures.as_slice(), name)?;
        let reply = Reply {
            chip,
            data,
            list,
            signature,
        };
        self.report(heap, Event::Net(judge, Word::Answer(reply)), &[])
    }

    /// A new fleet; nothing of an older one is kept.
    fn begin(
        &mut self,
        heap: Global,
        bad: &[Digest],
        machines: u32,
        judges: u32,
    ) -> Result<Outcome, Fault> {
        let first: Label = FIRST.parse()?;
        let fleet = Fleet::new(heap, first.digest(), bad, machines, judges)?;
        *self = Stage {
            fleet: Some(fleet),
            ..Stage::new(heap)
        };
        Ok(Outcome::Reported(Ok(Report::Done)))
    }

    fn report(&mut self, heap: Global, event: Event, digests: &[Digest]) -> Result<Outcome, Fault> {
        let fleet = self.fleet.as_mut().ok_or(Fault::NoFleet)?;
        Ok(Outcome::Reported(fleet.play(heap, event, digests)))
    }

    /// A signature or a thing that comes is kept.
    fn keep(&mut self, heap: Global, event: Event, name: Label) -> Result<Outcome, Fault> {
        let outcome = self.report(heap, event, &[])?;
        match outcome {
            Outcome::Reported(Ok(Report::Answered(Answer::Signed(value)))) => {
                self.signatures.insert(0, Kept { name, value })?;
            }
            Outcome::Reported(Ok(Report::Answered(Answer::Closed(value)))) => {
                self.things.insert(0, Kept { name, value })?;
            }
            _ => {}
        }
        Ok(outcome)
    }
}

/// The latest under this name.
fn find<T: Copy>(kept: &[Kept<T>], name: Label) -> Result<T, Fault> {
    match kept.iter().find(|one| one.name == name) {
        Some(one) => Ok(one.value),
        None => Err(Fault::NotKept),
    }
}
