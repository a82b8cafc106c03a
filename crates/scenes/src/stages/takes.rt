//! What a step does to a stage.

ghost use Rattle.std.specs.Prelude.{◌≡◌, [], IfOk};
ghost use Rattle.scenes.specs.Scenes.{Opens, taken, Refuses, met, found_in, reported, kept_by};
ghost use Rattle.scenes.specs.declared.steps.Step.TheVariants as steps;

use crate::names::first;
use crate::stages::looks::{copy, signature, thing};
use crate::stages::{Kept, Outcome, Stage};
use crate::steps::Step;
use device::chips::Command;
use device::digests::{Data, Digest};
use fleet::fleets::{Act, Event, Fleet};
use script::faults::Fault;
use script::labels::Label;
use std::alloc::{AllocError, Global};
use verifier::judges::{Reply, Word};

impl Stage {
    /// A new fleet of so many machines and judges, of which these programs are bad; nothing is kept yet.
    pub fn new(
        heap: Global,
        bad: &[Digest],
        machines: u32,
        judges: u32,
    ) -> Result<Stage, AllocError>
        ensures { IfOk result (λ s. Opens bad.now machines judges s) }
    {
        let fleet = Fleet::new(heap, first(), bad, machines, judges)?;
        Ok(Stage {
            fleet,
            kept: Vec::new(heap),
        })
    }

    /// Plays one step; the digests are those that come beside a word to a judge. A refused step changes nothing.
    pub fn take(&mut self, heap: Global, step: Step, digests: &[Digest]) -> Result<Outcome, Fault>
        ensures exact { (self.new, result) ≡ taken (met result) (found_in result) self.old step digests.now }
        ensures refuses { Refuses self.old self.new result }
    {
        self.play(heap, step, digests)
    }

    fn play(&mut self, heap: Global, step: Step, digests: &[Digest]) -> Result<Outcome, Fault>
        ensures { (self.new, result) ≡ taken (met result) (found_in result) self.old step digests.now }
    {
        match step {
            Step::Fleet { .. } => Err(Fault::Shape),
            Step::Play(event) => self.report(heap, event, digests),
            Step::Keep(event, name) => self.keep(heap, event, name),
            Step::Open { machine, name } => self.open(heap, machine, name),
            Step::Answer {
                judge,
                chip,
                data,
                list,
                name,
            } => self.answer(heap, judge, chip, data, list, name),
            Step::Has(data) => Ok(Outcome::Has(self.fleet.has(data))),
        }
    }

    fn report(&mut self, heap: Global, event: Event, digests: &[Digest]) -> Result<Outcome, Fault>
        ensures { (self.new, result) ≡ reported (found_in result) self.old event digests.now }
    {
        Ok(Outcome::Reported(self.fleet.play(heap, event, digests)))
    }

    /// A signature or a thing that comes is kept. There is room for it before anything is played.
    fn keep(&mut self, heap: Global, event: Event, name: Label) -> Result<Outcome, Fault>
        ensures { (self.new, result) ≡ kept_by (met result) (found_in result) self.old event name }
    {
        self.kept.reserve(1)?;
        let report = self.fleet.play(heap, event, &[]);
        if let Some(answer) = copy(report) {
            // There is room, so nothing fails here.
            let _ = self.kept.insert(0, Kept { name, answer });
        }
        Ok(Outcome::Reported(report))
    }

    fn open(&mut self, heap: Global, machine: usize, name: Label) -> Result<Outcome, Fault>
        ensures { (self.new, result) ≡ taken (met result) (found_in result) self.old (steps.Open machine name) [] }
    {
        let thing = thing(self.kept.as_slice(), name).ok_or(Fault::NotKept)?;
        self.report(
            heap,
            Event::At(machine, Act::Give(Command::Open(thing))),
            &[],
        )
    }

    fn answer(
        &mut self,
        heap: Global,
        judge: usize,
        chip: u32,
        data: Data,
        list: u16,
        name: Label,
    ) -> Result<Outcome, Fault>
        ensures { (self.new, result) ≡ taken (met result) (found_in result) self.old (steps.Answer judge chip «data» list name) [] }
    {
        let signature = signature(self.kept.as_slice(), name).ok_or(Fault::NotKept)?;
        let reply = Reply {
            chip,
            data,
            list,
            signature,
        };
        self.report(heap, Event::Net(judge, Word::Answer(reply)), &[])
    }
}
