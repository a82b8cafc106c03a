//! Tests of the judge.

mod answers;
mod limits;

use crate::tests::{FIRST, data, digest, row};
use device::chips::Signature;
use device::digests::Digest;
use std::alloc::Global;
use std::process::Abort;
use verifier::judges::{Fault, Judge, Reply, Said, Word};

/// The number by which a word was refused.
fn number(outcome: Result<Said, Fault>) -> Option<u8> {
    match outcome {
        Err(Fault::Refused(why)) => Some(u8::from(why)),
        _ => None,
    }
}

/// A judge, and what a test needs to give it words.
#[derive(Drop)]
struct Bench<'a, R> {
    rt: &'a R,
    heap: Global,
    judge: Judge,
}

impl<'a, R: Abort> Bench<'a, R> {
    /// A judge that knows nothing but the first program.
    fn new(rt: &'a R, heap: Global) -> Bench<'a, R> {
        Bench {
            rt,
            heap,
            judge: Judge::new(heap, digest(FIRST)),
        }
    }

    /// A judge that knows chips 1 and 2, list 5 of the first program and program 1, and list 6 of the first program; chip
    /// 1 was asked with data 40.
    fn ready(rt: &'a R, heap: Global) -> Bench<'a, R> {
        let mut bench = Bench::new(rt, heap);
        bench.takes(Word::Chip(1), &[], "chip 1");
        bench.takes(Word::Chip(2), &[], "chip 2");
        bench.takes(Word::List(5), &[digest(FIRST), digest(1)], "list 5");
        bench.takes(Word::List(6), &[digest(FIRST)], "list 6");
        bench.asks(1, 40, "asked");
        bench
    }

    /// A word from the office with these digests, which the judge takes.
    fn takes(&mut self, word: Word, digests: &[Digest], note: &str) {
        let outcome = self.judge.office(self.heap, word, digests, None);
        assert!(self.rt; matches!(outcome, Ok(Said::Done)), "{}", note);
    }

    /// The same, which it refuses by this number.
    fn refuses(&mut self, word: Word, digests: &[Digest], why: u8, note: &str) {
        let outcome = self.judge.office(self.heap, word, digests, None);
        assert_eq!(self.rt; number(outcome), Some(why), "{}", note);
    }

    /// The office has the chip asked with this data, and the judge asks.
    fn asks(&mut self, chip: u32, n: u8, note: &str) {
        let outcome = self
            .judge
            .office(self.heap, Word::Ask(chip), &[], Some(data(n)));
        assert!(self.rt; matches!(outcome, Ok(Said::Asks(_, _))), "{}", note);
    }

    /// The same, and the judge does not ask.
    fn does_not_ask(&mut self, chip: u32, n: u8, why: u8, note: &str) {
        let outcome = self
            .judge
            .office(self.heap, Word::Ask(chip), &[], Some(data(n)));
        assert_eq!(self.rt; number(outcome), Some(why), "{}", note);
    }

    /// A word from the net, which the judge refuses.
    fn refuses_from_net(&mut self, word: Word, why: u8, note: &str) {
        assert_eq!(self.rt; number(self.judge.net(word)), Some(why), "{}", note);
    }

    /// An answer from the net, which the judge accepts.
    fn accepts(&mut self, reply: Reply, note: &str) {
        let outcome = self.judge.net(Word::Answer(reply));
        assert!(self.rt; matches!(outcome, Ok(Said::Accepted(_))), "{}", note);
    }

    fn net(&mut self, word: Word) -> Result<Said, Fault> {
        self.judge.net(word)
    }

    fn knows(&self, digest: Digest) -> bool {
        self.judge.known(digest)
    }

    fn fall(&mut self) {
        self.judge.fall();
    }
}

/// What chip 1 signs with the row of list 5 when it is asked with this data.
fn reply(n: u8) -> Reply {
    Reply {
        chip: 1,
        data: data(n),
        list: 5,
        signature: Signature {
            chip: 1,
            data: data(n),
            register: row(&[FIRST, 1]),
        },
    }
}
