//! What the tests share: short digests and data, rows of them, and refusals by their numbers.

mod chips;
mod judges;
mod loaders;

use device::chips::{Answer, Chip, Command};
use device::digests::{Data, Digest};
use device::refusals::Refusal;
use device::registers::Register;
use std::test::Fail;

/// The first program is that of digest 9.
const FIRST: u8 = 9;

fn digest(n: u8) -> Digest {
    Digest { bytes: [n; 32] }
}

fn data(n: u8) -> Data {
    Data { bytes: [n; 32] }
}

/// The row of these digests.
fn row(ns: &[u8]) -> Register {
    let mut row = Register::empty();
    for n in ns {
        if let Some(more) = row.with(digest(*n)) {
            row = more;
        }
    }
    row
}

/// What came of it, a refusal by its number.
fn told<T: Drop>(outcome: Result<T, Refusal>) -> Result<(), u8> {
    match outcome {
        Ok(_) => Ok(()),
        Err(why) => Err(u8::from(why)),
    }
}

/// The chip after a command, and its answer, where it does not refuse.
fn give(chip: Chip, command: Command) -> Result<(Chip, Answer), Fail> {
    match chip.answer(command) {
        Ok(given) => Ok(given),
        Err(_) => Err(Fail::new("refused")),
    }
}
