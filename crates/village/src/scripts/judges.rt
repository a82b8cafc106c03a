//! What a judge is told.

use crate::scripts::{Fault, Step, label, number};
use fleet::fleets::Event;
use verifier::judges::Word;

fn office(judge: &str, word: Word) -> Result<Step, Fault> {
    Ok(Step::Play(Event::Office(number(judge)?, word, None)))
}

/// The programs come beside it.
pub fn good(rest: &[&str]) -> Result<Step, Fault> {
    match rest {
        [j, ..] => office(j, Word::Good),
        _ => Err(Fault::Shape),
    }
}

/// The programs come beside it.
pub fn rows(rest: &[&str]) -> Result<Step, Fault> {
    match rest {
        [j, list, ..] => office(j, Word::List(number(list)?)),
        _ => Err(Fault::Shape),
    }
}

pub fn chip(rest: &[&str]) -> Result<Step, Fault> {
    match rest {
        [j, chip] => office(j, Word::Chip(number(chip)?)),
        _ => Err(Fault::Shape),
    }
}

pub fn ticks(rest: &[&str]) -> Result<Step, Fault> {
    match rest {
        [j, ticks] => office(j, Word::Ticks(number(ticks)?)),
        _ => Err(Fault::Shape),
    }
}

pub fn ask(rest: &[&str]) -> Result<Step, Fault> {
    match rest {
        [j, chip, data] => {
            let draw = Some(label(data)?.data());
            let word = Word::Ask(number(chip)?);
            Ok(Step::Play(Event::Office(number(j)?, word, draw)))
        }
        _ => Err(Fault::Shape),
    }
}

pub fn answer(rest: &[&str]) -> Result<Step, Fault> {
    match rest {
        [j, chip, data, list, signature] => {
            let data = label(data)?.data();
            let list = number(list)?;
            Ok(Step::Answer(number(j)?, number(chip)?, data, list, label(signature)?))
        }
        _ => Err(Fault::Shape),
    }
}

pub fn fall(rest: &[&str]) -> Result<Step, Fault> {
    match rest {
        [j] => Ok(Step::Play(Event::Fall(number(j)?))),
        _ => Err(Fault::Shape),
    }
}

/// An office's word by the net.
pub fn net(rest: &[&str]) -> Result<Step, Fault> {
    match rest {
        [j, "chip", chip] => {
            let word = Word::Chip(number(chip)?);
            Ok(Step::Play(Event::Net(number(j)?, word)))
        }
        _ => Err(Fault::Shape),
    }
}
