//! One event after another.

ghost use Rattle.std.specs.Prelude.{◌≡◌, []};
ghost use Rattle.fleet.specs.Runs.{PlaySteps, Tells};
ghost use Rattle.fleet.specs.Sights.{found, played};
ghost use Rattle.fleet.specs.declared.fleets.Event.TheVariants as kinds;

use crate::fleets::{Event, Fault, Fleet, Report};
use boot::disks::{File, Name};
use device::digests::Digest;
use std::alloc::Global;

impl Fleet {
    /// Plays one event; the digests are those that come beside a word to a judge.
    pub fn play(&mut self, heap: Global, event: Event, digests: &[Digest]) -> Result<Report, Fault>
        ensures exact { (self.new, result) ≡ played (found result) self.old event digests.now }
        ensures steps { PlaySteps self.old event digests.now (self.new, result) }
        ensures tells { Tells self.old event digests.now (self.new, result) }
    {
        self.answer(heap, event, digests)
    }

    fn answer(&mut self, heap: Global, event: Event, digests: &[Digest]) -> Result<Report, Fault>
        ensures { (self.new, result) ≡ played (found result) self.old event digests.now }
    {
        match event {
            Event::At(i, act) => self.at(i, act),
            Event::Office(j, word, draw) => self.office(heap, j, word, digests, draw),
            Event::Net(j, word) => self.net(j, word),
            Event::Fall(j) => self.fall(j),
            Event::Write(name, file, swapped) => self.write(name, file, swapped),
            Event::Wipe => self.wipe(),
        }
    }

    fn write(&mut self, name: Name, file: File, swapped: File) -> Result<Report, Fault>
        ensures { (self.new, result) ≡ played (found result) self.old (kinds.Write name file swapped) [] }
    {
        self.outside.disk.add(name, file, swapped)?;
        Ok(Report::Done)
    }

    fn wipe(&mut self) -> Result<Report, Fault>
        ensures { (self.new, result) ≡ played (found result) self.old kinds.Wipe [] }
    {
        self.outside.disk.clear();
        Ok(Report::Done)
    }
}
