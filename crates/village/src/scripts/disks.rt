//! What outsiders do to the disk.

use crate::scripts::{Fault, Step, label};
use boot::disks::{File, Name, StartList};
use fleet::fleets::Event;

pub fn wipe(rest: &[&str]) -> Result<Step, Fault> {
    match rest {
        [] => Ok(Step::Play(Event::Wipe)),
        _ => Err(Fault::Shape),
    }
}

/// A program under its own name, and what stands there once it was read.
pub fn file(rest: &[&str]) -> Result<Step, Fault> {
    match rest {
        [name] => program(name, name),
        [name, "then", other] => program(name, other),
        _ => Err(Fault::Shape),
    }
}

fn program(name: &str, other: &str) -> Result<Step, Fault> {
    let name = label(name)?;
    let other = label(other)?;
    let before = File::Program(name.digest());
    let after = File::Program(other.digest());
    Ok(Step::Play(Event::Write(name.name(), before, after)))
}

/// `NAME P..`, or `NAME P.. further L`.
pub fn list(rest: &[&str]) -> Result<Step, Fault> {
    match rest {
        [name, programs @ .., "further", other] => {
            let name = label(name)?.name();
            let list = with(named(programs, true)?, other)?;
            Ok(written(name, list))
        }
        [name, programs @ ..] => {
            let name = label(name)?.name();
            Ok(written(name, named(programs, false)?))
        }
        [] => Err(Fault::Shape),
    }
}

fn written(name: Name, list: StartList) -> Step {
    let file = File::List(list);
    Step::Play(Event::Write(name, file, file))
}

/// A start list of these names.
fn named(words: &[&str], further: bool) -> Result<StartList, Fault> {
    let mut list = StartList {
        names: [Name { bytes: [0; 16] }; 8],
        count: 0,
        further,
    };
    for word in words {
        list = with(list, word)?;
    }
    Ok(list)
}

/// One name more.
fn with(list: StartList, word: &str) -> Result<StartList, Fault> {
    let mut names = list.names;
    let count = list.count;
    if count >= 8 {
        return Err(Fault::TooMany);
    }
    let name = label(word)?.name();
    names[count as usize] = name;
    Ok(StartList {
        names,
        count: count + 1,
        further: list.further,
    })
}
