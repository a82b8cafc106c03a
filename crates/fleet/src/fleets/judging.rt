//! What a judge is told, and what is reported of what it says.

ghost use Rattle.std.specs.Prelude.{◌≡◌, ◌<◌, [], vec_items, vec_len, vec_capacity};
ghost use Rattle.fleet.specs.Sights.{found, played, heard_of, report_of};
ghost use Rattle.fleet.specs.declared.fleets.Event.TheVariants as kinds;

use crate::fleets::{Fault, Fleet, Outside, Report};
use device::digests::{Data, Digest};
use std::alloc::Global;
use verifier::judges::{Said, Word};

impl Fleet {
    /// A word by the office's line. There is room for what outsiders may hear before the judge is told anything.
    pub(crate) fn office(
        &mut self,
        heap: Global,
        j: usize,
        word: Word,
        digests: &[Digest],
        draw: Option<Data>,
    ) -> Result<Report, Fault>
        ensures { (self.new, result) ≡ played (found result) self.old (kinds.Office j word draw) digests.now }
    {
        let judge = self.judges.get_mut(j).ok_or(Fault::Nobody)?;
        self.outside.heard.reserve(1)?;
        let said = judge.office(heap, word, digests, draw)?;
        hear(&mut self.outside.heard, said);
        Ok(self.outside.report(word, said))
    }

    /// A word by the net; no judge asks for it.
    pub(crate) fn net(&mut self, j: usize, word: Word) -> Result<Report, Fault>
        ensures { (self.new, result) ≡ played (found result) self.old (kinds.Net j word) [] }
    {
        let judge = self.judges.get_mut(j).ok_or(Fault::Nobody)?;
        let said = judge.net(word)?;
        Ok(self.outside.report(word, said))
    }

    /// The judge loses all that it was given.
    pub(crate) fn fall(&mut self, j: usize) -> Result<Report, Fault>
        ensures { (self.new, result) ≡ played (found result) self.old (kinds.Fall j) [] }
    {
        let judge = self.judges.get_mut(j).ok_or(Fault::Nobody)?;
        judge.fall();
        Ok(Report::Done)
    }
}

impl Outside {
    /// An acceptance is reported with what really ran.
    fn report(&self, word: Word, said: Said) -> Report
        ensures { result ≡ report_of (vec_items self.now.shown) word said }
    {
        match said {
            Said::Accepted(acceptance) => Report::Accepted(acceptance, self.ran_for(word)),
            Said::Done | Said::Asks(..) => Report::Told(said),
        }
    }
}

/// Outsiders hear what a judge asks; there is room for it.
fn hear(heard: &mut Vec<Data>, said: Said)
    requires { vec_len heard.old < vec_capacity heard.old }
    ensures { vec_items heard.new ≡ heard_of said (vec_items heard.old) }
{
    if let Said::Asks(_, data) = said {
        heard.insert(0, data).unwrap();
    }
}
