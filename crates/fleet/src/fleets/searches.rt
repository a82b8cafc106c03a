//! Looks through what a fleet remembers.

ghost use Rattle.std.specs.Prelude.{◌≡◌, vec_items};
ghost use Rattle.std.specs.List.{slice_get};
ghost use Rattle.device.specs.Rows.{row};
ghost use Rattle.device.specs.Things.{same_data};
ghost use Rattle.verifier.specs.Searches.{some};
ghost use Rattle.fleet.specs.Sights.{any_bad_of, really_ran_of, ran_for_of, signature_in};

use crate::fleets::{Fleet, Outside};
use boot::machines::Machine;
use device::chips::Signature;
use device::digests::Data;
use device::registers::Register;
use verifier::judges::Word;

impl Fleet {
    /// Whether outsiders have heard this.
    pub fn has(&self, data: Data) -> bool
        ensures { result ≡ some (same_data «data») self.now.heard }
    {
        self.outside.heard.contains(&data)
    }

    /// The machine of this number.
    pub fn machine(&self, i: usize) -> Option<Machine>
        ensures { result ≡ slice_get self.now.machines i }
    {
        self.machines.get(i).copied()
    }
}

impl Outside {
    /// Whether one of these programs is bad.
    pub(crate) fn tainted(&self, ran: Register) -> bool
        ensures { result ≡ any_bad_of (vec_items self.now.bad) (row ran) }
    {
        ran.as_slice()
            .iter()
            .any(|digest| self.bad.contains(digest))
    }

    /// What had been loaded when this signature was given out.
    fn really_ran(&self, signature: Signature) -> Option<Register>
        ensures { result ≡ really_ran_of (vec_items self.now.shown) signature }
    {
        self.shown
            .iter()
            .find(|shown| signature == shown.signature)
            .map(|shown| shown.ran)
    }

    /// The same for a word, if it brings a signature.
    pub(crate) fn ran_for(&self, word: Word) -> Option<Register>
        ensures { result ≡ ran_for_of (vec_items self.now.shown) (signature_in word) }
    {
        match word {
            Word::Answer(reply) => self.really_ran(reply.signature),
            _ => None,
        }
    }
}
