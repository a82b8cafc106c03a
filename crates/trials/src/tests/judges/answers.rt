//! What a judge says to answers, and when it puts a question out.

use crate::tests::judges::{Bench, reply};
use crate::tests::{FIRST, data, digest, give, row};
use device::chips::{Answer, Chip, Command, Signature};
use std::test::Fail;
use verifier::judges::{Reply, Said, Word};

#[test]
fn answer_is_accepted_once(rt: HostRuntime) {
    let mut bench = Bench::ready(&rt, rt.alloc());
    bench.accepts(reply(40), "answered");
    bench.refuses_from_net(Word::Answer(reply(40)), 9, "answered");
}

#[test]
fn accepted_row_is_told_with_what_the_office_knows(rt: HostRuntime) -> Result<(), Fail> {
    let mut bench = Bench::ready(&rt, rt.alloc());
    let good = [digest(3), digest(1)];
    bench.takes(Word::Good, &good, "given");
    let Ok(Said::Accepted(told)) = bench.net(Word::Answer(reply(40))) else {
        return Err(Fail::new("not accepted"));
    };
    assert_eq!(rt; told.list, 5);
    assert!(rt; told.row == row(&[FIRST, 1]));
    assert_eq!(rt; told.flags.len, 2);
    assert_eq!(rt; told.flags.known[0], false);
    assert_eq!(rt; told.flags.known[1], true);
    Ok(())
}

#[test]
fn what_a_chip_signed_is_accepted(rt: HostRuntime) -> Result<(), Fail> {
    let mut bench = Bench::ready(&rt, rt.alloc());
    let (chip, _) = give(Chip::new(1), Command::Put(digest(FIRST)))?;
    let (chip, _) = give(chip, Command::Put(digest(1)))?;
    let (_, Answer::Signed(signature)) = give(chip, Command::Sign(data(40)))? else {
        return Err(Fail::new("not signed"));
    };
    let shown = Reply {
        signature,
        ..reply(40)
    };
    bench.accepts(shown, "answered");
    Ok(())
}

#[test]
fn answer_of_an_unknown_chip_is_refused_by_8(rt: HostRuntime) {
    let mut bench = Bench::ready(&rt, rt.alloc());
    let unknown = Reply {
        chip: 3,
        ..reply(40)
    };
    bench.refuses_from_net(Word::Answer(unknown), 8, "answered");
}

#[test]
fn answer_to_no_question_is_refused_by_9(rt: HostRuntime) {
    let mut bench = Bench::ready(&rt, rt.alloc());
    bench.refuses_from_net(Word::Answer(reply(41)), 9, "never asked");
    let other = Reply {
        chip: 2,
        ..reply(40)
    };
    bench.refuses_from_net(Word::Answer(other), 9, "chip 1 was asked");
    let no_list = Reply {
        list: 7,
        ..reply(41)
    };
    bench.refuses_from_net(Word::Answer(no_list), 9, "before 10");
}

#[test]
fn answer_with_no_such_list_is_refused_by_10(rt: HostRuntime) {
    let mut bench = Bench::ready(&rt, rt.alloc());
    let no_list = Reply {
        list: 7,
        ..reply(40)
    };
    bench.refuses_from_net(Word::Answer(no_list), 10, "answered");
    bench.accepts(reply(40), "still open");
}

#[test]
fn signature_that_does_not_fit_is_refused_by_11(rt: HostRuntime) {
    let mut bench = Bench::ready(&rt, rt.alloc());
    let good = reply(40);
    let other_list = Reply { list: 6, ..good };
    bench.refuses_from_net(Word::Answer(other_list), 11, "of another row");
    let nonce = Signature {
        data: data(41),
        ..good.signature
    };
    let other_nonce = Reply {
        signature: nonce,
        ..good
    };
    bench.refuses_from_net(Word::Answer(other_nonce), 11, "of another nonce");
    let chip = Signature {
        chip: 2,
        ..good.signature
    };
    let other_chip = Reply {
        signature: chip,
        ..good
    };
    bench.refuses_from_net(Word::Answer(other_chip), 11, "of another chip");
    bench.accepts(good, "still open");
}

#[test]
fn question_65_puts_out_the_oldest(rt: HostRuntime) {
    let mut bench = Bench::ready(&rt, rt.alloc());
    for n in 50..113u8 {
        bench.asks(1, n, "asked");
    }
    bench.asks(1, 113, "the 65th");
    bench.refuses_from_net(Word::Answer(reply(40)), 9, "the oldest");
    bench.accepts(reply(50), "the second oldest");
    bench.accepts(reply(113), "the newest");
}

#[test]
fn question_64_puts_out_nothing(rt: HostRuntime) {
    let mut bench = Bench::ready(&rt, rt.alloc());
    for n in 50..113u8 {
        bench.asks(1, n, "asked");
    }
    bench.accepts(reply(40), "the oldest of 64");
}

#[test]
fn tick_60_puts_a_question_out(rt: HostRuntime) {
    let heap = rt.alloc();
    let mut early = Bench::ready(&rt, heap);
    early.takes(Word::Ticks(59), &[], "as told");
    early.accepts(reply(40), "after 59");
    let mut late = Bench::ready(&rt, heap);
    late.takes(Word::Ticks(60), &[], "as told");
    late.refuses_from_net(Word::Answer(reply(40)), 9, "after 60");
}

#[test]
fn ticks_add_up(rt: HostRuntime) {
    let mut bench = Bench::ready(&rt, rt.alloc());
    bench.takes(Word::Ticks(1), &[], "as told");
    bench.asks(1, 41, "asked");
    bench.takes(Word::Ticks(58), &[], "as told");
    bench.takes(Word::Ticks(1), &[], "as told");
    bench.refuses_from_net(Word::Answer(reply(40)), 9, "after 60");
    bench.accepts(reply(41), "after 59");
}

#[test]
fn net_may_only_answer(rt: HostRuntime) {
    let mut bench = Bench::ready(&rt, rt.alloc());
    bench.refuses_from_net(Word::Chip(3), 1, "chip");
    bench.refuses_from_net(Word::List(7), 1, "list");
    bench.refuses_from_net(Word::Good, 1, "good");
    bench.refuses_from_net(Word::Ticks(60), 1, "ticks");
    bench.refuses_from_net(Word::Ask(1), 1, "ask");
    bench.does_not_ask(3, 1, 8, "chip 3 is not known");
    bench.accepts(reply(40), "no time has passed");
}

#[test]
fn fallen_judge_knows_nothing(rt: HostRuntime) {
    let mut bench = Bench::ready(&rt, rt.alloc());
    bench.fall();
    bench.does_not_ask(1, 1, 8, "no chip to ask");
    bench.refuses_from_net(Word::Answer(reply(40)), 8, "no chip to hear");
    bench.takes(Word::Chip(1), &[], "as told");
    bench.refuses_from_net(Word::Answer(reply(40)), 9, "no question");
    bench.asks(1, 40, "asked");
    bench.refuses_from_net(Word::Answer(reply(40)), 10, "no list");
}
