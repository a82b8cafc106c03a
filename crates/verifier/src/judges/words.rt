//! What each word does to a judge; what is refused changes nothing.

ghost use Rattle.std.specs.Prelude.{◌≡◌};
ghost use Rattle.verifier.specs.Worlds.{Begins, OfficeSteps, NetSteps, Refuses, Lacks, Falls};
ghost use Rattle.verifier.specs.Seats.{new_seat, listed, on_list, begins, signs, found, chip_of, list_of, good_of, ticks_of, ask_of, answer_of, office_of, net_of};

use crate::judges::ages::age;
use crate::judges::rows::{flag, gather};
use crate::judges::searches::{find_list, find_question, has_chip, has_digest};
use crate::judges::{Acceptance, Fault, Judge, List, Question, Reply, Said, Word};
use device::chips::Signature;
use device::digests::{Data, Digest};
use device::refusals::Refusal;
use device::registers::Register;
use std::alloc::Global;

const MAX_CHIPS: usize = 64;

const MAX_LISTS: usize = 256;

const MAX_GOOD: usize = 1024;

const MAX_QUESTIONS: usize = 64;

/// Ticks that a question stays open.
const PATIENCE: u32 = 60;

impl Judge {
    /// A judge that knows nothing but the first program.
    pub fn new(heap: Global, first: Digest) -> Judge
        ensures exact { result ≡ new_seat first }
        ensures begins { Begins result }
    {
        Judge {
            first,
            chips: Vec::new(heap),
            lists: Vec::new(heap),
            good: None,
            questions: Vec::new(heap),
        }
    }

    /// Whether the office's list has this digest.
    pub fn known(&self, digest: Digest) -> bool
        ensures { result ≡ on_list self.now.good digest }
    {
        has_digest(self.office_list(), digest)
    }

    fn office_list(&self) -> &[Digest]
        ensures { result.now ≡ listed self.now.good }
    {
        match &self.good {
            Some(good) => good.as_slice(),
            None => &[],
        }
    }
}

impl Judge {
    /// What comes by the office's line; the digests are those of a list, and `draw` is what was drawn for a question.
    pub fn office(
        &mut self,
        heap: Global,
        word: Word,
        digests: &[Digest],
        draw: Option<Data>,
    ) -> Result<Said, Fault>
        ensures exact { (self.new, result) ≡ office_of (found result) self.old word digests.now draw }
        ensures steps { OfficeSteps self.old word digests.now draw (self.new, result) }
        ensures refuses { Refuses self.old (self.new, result) }
        ensures lacks { Lacks self.old (self.new, result) }
    {
        self.hear(heap, word, digests, draw)
    }

    /// What comes by the net: only answers are taken.
    pub fn net(&mut self, word: Word) -> Result<Said, Fault>
        ensures exact { (self.new, result) ≡ net_of self.old word }
        ensures steps { NetSteps self.old word (self.new, result) }
        ensures refuses { Refuses self.old (self.new, result) }
    {
        self.hear_net(word)
    }

    /// The judge loses all that it was given, and its questions.
    pub fn fall(&mut self)
        ensures exact { self.new ≡ new_seat self.old.first }
        ensures steps { Falls self.old self.new }
    {
        self.forget();
    }

    fn forget(&mut self)
        ensures { self.new ≡ new_seat self.old.first }
    {
        self.chips.clear();
        self.lists.clear();
        self.good = None;
        self.questions.clear();
    }

    fn hear(
        &mut self,
        heap: Global,
        word: Word,
        digests: &[Digest],
        draw: Option<Data>,
    ) -> Result<Said, Fault>
        ensures { (self.new, result) ≡ office_of (found result) self.old word digests.now draw }
    {
        match word {
            Word::Ask(chip) => self.ask(chip, draw),
            Word::List(number) => self.list(number, digests),
            Word::Good => self.take_good(heap, digests),
            Word::Chip(chip) => self.chip(chip),
            Word::Ticks(ticks) => {
                self.ticks(ticks);
                Ok(Said::Done)
            }
            Word::Answer(reply) => self.answer(reply),
        }
    }

    fn hear_net(&mut self, word: Word) -> Result<Said, Fault>
        ensures { (self.new, result) ≡ net_of self.old word }
    {
        match word {
            Word::Answer(reply) => self.answer(reply),
            _ => Err(Fault::Refused(Refusal::Malformed)),
        }
    }
}

impl Judge {
    fn chip(&mut self, chip: u32) -> Result<Said, Fault>
        ensures { (self.new, result) ≡ chip_of (found result) self.old chip }
    {
        if self.chips.len() >= MAX_CHIPS || has_chip(&self.chips, chip) {
            return Err(Fault::Refused(Refusal::BadList));
        }
        self.chips.insert(0, chip)?;
        Ok(Said::Done)
    }

    fn list(&mut self, number: u16, digests: &[Digest]) -> Result<Said, Fault>
        ensures { (self.new, result) ≡ list_of (found result) self.old number digests.now }
    {
        if !begins(self.first, digests) || self.lists.len() >= MAX_LISTS {
            return Err(Fault::Refused(Refusal::BadList));
        }
        if find_list(&self.lists, number).is_some() {
            return Err(Fault::Refused(Refusal::BadList));
        }
        let row = gather(digests).ok_or(Refusal::BadList)?;
        self.lists.insert(0, List { number, row })?;
        Ok(Said::Done)
    }

    fn take_good(&mut self, heap: Global, digests: &[Digest]) -> Result<Said, Fault>
        ensures { (self.new, result) ≡ good_of (found result) self.old digests.now }
    {
        if digests.len() > MAX_GOOD || self.good.is_some() {
            return Err(Fault::Refused(Refusal::BadList));
        }
        self.good = Some(Vec::from_slice(heap, digests)?);
        Ok(Said::Done)
    }

    fn ticks(&mut self, ticks: u32)
        ensures { self.new ≡ (ticks_of self.old ticks).0 }
    {
        age(&mut self.questions, ticks);
    }

    fn ask(&mut self, chip: u32, draw: Option<Data>) -> Result<Said, Fault>
        ensures { (self.new, result) ≡ ask_of (found result) self.old chip draw }
    {
        if !has_chip(&self.chips, chip) {
            return Err(Fault::Refused(Refusal::UnknownChip));
        }
        let data = draw.ok_or(Refusal::NoDraws)?;
        let question = Question {
            chip,
            data,
            left: PATIENCE,
        };
        self.questions.insert(0, question)?;
        self.questions.truncate(MAX_QUESTIONS);
        Ok(Said::Asks(chip, data))
    }

    fn answer(&mut self, reply: Reply) -> Result<Said, Fault>
        ensures { (self.new, result) ≡ answer_of self.old reply }
    {
        if !has_chip(&self.chips, reply.chip) {
            return Err(Fault::Refused(Refusal::UnknownChip));
        }
        let i = find_question(&self.questions, reply.chip, reply.data).ok_or(Refusal::NoQuestion)?;
        let List { number, row } = find_list(&self.lists, reply.list).ok_or(Refusal::BadList)?;
        if !reply.signs(row) {
            return Err(Fault::Refused(Refusal::BadSignature));
        }
        self.questions.remove(i);
        let flags = flag(self.office_list(), row);
        Ok(Said::Accepted(Acceptance {
            list: number,
            row,
            flags,
        }))
    }
}

impl Reply {
    /// Whether just this chip, this data and this row were signed.
    fn signs(self, row: Register) -> bool
        ensures { result ≡ signs self row }
    {
        self.signature
            == Signature {
                chip: self.chip,
                data: self.data,
                register: row,
            }
    }
}

/// Whether the first digest of these is this one.
fn begins(first: Digest, digests: &[Digest]) -> bool
    ensures { result ≡ begins first digests.now }
{
    digests.first() == Some(&first)
}
