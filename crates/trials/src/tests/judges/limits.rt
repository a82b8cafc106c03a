//! What the office gives a judge, and how much of it there may be.

use crate::tests::judges::{Bench, reply};
use crate::tests::{FIRST, digest};
use std::test::Fail;
use verifier::judges::Word;

#[test]
fn chip_65_is_refused_by_10(rt: HostRuntime) {
    let mut bench = Bench::new(&rt, rt.alloc());
    for chip in 0..64u32 {
        bench.takes(Word::Chip(chip), &[], "there is room");
    }
    bench.refuses(Word::Chip(64), &[], 10, "as told");
    bench.does_not_ask(64, 1, 8, "it is not known");
    bench.asks(63, 1, "the last is");
}

#[test]
fn chip_given_twice_is_refused_by_10(rt: HostRuntime) {
    let mut bench = Bench::ready(&rt, rt.alloc());
    bench.refuses(Word::Chip(1), &[], 10, "as told");
    bench.takes(Word::Chip(3), &[], "as told");
}

#[test]
fn list_of_17_is_refused_by_10(rt: HostRuntime) {
    let mut bench = Bench::ready(&rt, rt.alloc());
    let long = [digest(FIRST); 17];
    bench.refuses(Word::List(7), &long, 10, "given");
    let fits = [digest(FIRST); 16];
    bench.takes(Word::List(7), &fits, "16 are taken");
}

#[test]
fn list_without_the_first_program_is_refused_by_10(rt: HostRuntime) {
    let mut bench = Bench::ready(&rt, rt.alloc());
    bench.refuses(Word::List(7), &[], 10, "empty");
    let other = [digest(1), digest(FIRST)];
    bench.refuses(Word::List(7), &other, 10, "not first");
    let right = [digest(FIRST), digest(1)];
    bench.takes(Word::List(7), &right, "given");
}

#[test]
fn list_given_twice_is_refused_by_10(rt: HostRuntime) {
    let mut bench = Bench::ready(&rt, rt.alloc());
    let other = [digest(FIRST), digest(2)];
    bench.refuses(Word::List(5), &other, 10, "given");
    bench.accepts(reply(40), "the old one stays");
}

#[test]
fn list_257_is_refused_by_10(rt: HostRuntime) {
    let mut bench = Bench::new(&rt, rt.alloc());
    let list = [digest(FIRST)];
    for n in 0..256u16 {
        bench.takes(Word::List(n), &list, "there is room");
    }
    bench.refuses(Word::List(256), &list, 10, "given");
}

#[test]
fn office_list_of_1025_is_refused_by_10(rt: HostRuntime) -> Result<(), Fail> {
    let heap = rt.alloc();
    let mut bench = Bench::ready(&rt, heap);
    let long = vec![in heap; digest(1); 1025]?;
    bench.refuses(Word::Good, long.as_slice(), 10, "1025");
    assert!(rt; !bench.knows(digest(1)), "nothing is kept");
    let fits = vec![in heap; digest(1); 1024]?;
    bench.takes(Word::Good, fits.as_slice(), "1024");
    assert!(rt; bench.knows(digest(1)), "known");
    Ok(())
}

#[test]
fn office_list_given_twice_is_refused_by_10(rt: HostRuntime) {
    let mut bench = Bench::ready(&rt, rt.alloc());
    bench.takes(Word::Good, &[], "empty");
    let more = [digest(1)];
    bench.refuses(Word::Good, &more, 10, "given");
    assert!(rt; !bench.knows(digest(1)), "the old one stays");
}

#[test]
fn unknown_chip_is_not_asked(rt: HostRuntime) {
    let mut bench = Bench::ready(&rt, rt.alloc());
    bench.does_not_ask(3, 1, 8, "asked");
    bench.refuses(Word::Ask(3), &[], 8, "before 12");
    bench.refuses(Word::Ask(2), &[], 12, "nothing drawn");
}
