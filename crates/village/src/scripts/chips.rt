//! What happens at a machine.

use crate::scripts::{Fault, Step, label, number, row};
use device::chips::{Command, Target};
use fleet::fleets::{Act, Event};

fn at(machine: &str, act: Act) -> Result<Step, Fault> {
    Ok(Step::Play(Event::At(number(machine)?, act)))
}

/// The same, where what comes of it is kept.
fn kept(machine: &str, act: Act, name: &str) -> Result<Step, Fault> {
    Ok(Step::Keep(Event::At(number(machine)?, act), label(name)?))
}

pub fn switch(rest: &[&str]) -> Result<Step, Fault> {
    match rest {
        [i] => at(i, Act::Switch),
        _ => Err(Fault::Shape),
    }
}

pub fn start(rest: &[&str]) -> Result<Step, Fault> {
    match rest {
        [i, list] => at(i, Act::Start(label(list)?.name())),
        _ => Err(Fault::Shape),
    }
}

pub fn load(rest: &[&str]) -> Result<Step, Fault> {
    match rest {
        [i, name] => at(i, Act::Load(label(name)?.name())),
        _ => Err(Fault::Shape),
    }
}

pub fn put(rest: &[&str]) -> Result<Step, Fault> {
    match rest {
        [i, program] => at(i, Act::Give(Command::Put(label(program)?.digest()))),
        _ => Err(Fault::Shape),
    }
}

pub fn run(rest: &[&str]) -> Result<Step, Fault> {
    match rest {
        [i, program] => at(i, Act::Run(label(program)?.digest())),
        _ => Err(Fault::Shape),
    }
}

pub fn sign(rest: &[&str]) -> Result<Step, Fault> {
    match rest {
        [i, data, "as", name] => kept(i, Act::Give(Command::Sign(label(data)?.data())), name),
        _ => Err(Fault::Shape),
    }
}

pub fn count(rest: &[&str]) -> Result<Step, Fault> {
    match rest {
        [i] => at(i, Act::Give(Command::Count)),
        _ => Err(Fault::Shape),
    }
}

pub fn read(rest: &[&str]) -> Result<Step, Fault> {
    match rest {
        [i] => at(i, Act::Give(Command::Read)),
        _ => Err(Fault::Shape),
    }
}

pub fn keep(rest: &[&str]) -> Result<Step, Fault> {
    closing(rest, true)
}

pub fn close(rest: &[&str]) -> Result<Step, Fault> {
    closing(rest, false)
}

/// `I DATA for ROW.. as T`.
fn closing(rest: &[&str], secret: bool) -> Result<Step, Fault> {
    let [machine, data, "for", row @ .., "as", name] = rest else {
        return Err(Fault::Shape);
    };
    if row.is_empty() {
        return Err(Fault::Shape);
    }
    let target = target(row)?;
    let data = label(data)?.data();
    let act = if secret {
        Act::Keep(target, data)
    } else {
        Act::Give(Command::Close(target, data))
    };
    kept(machine, act, name)
}

fn target(words: &[&str]) -> Result<Target, Fault> {
    match words {
        ["nowhere"] => Ok(Target::Nowhere),
        _ => Ok(Target::Row(row(words)?)),
    }
}

pub fn open(rest: &[&str]) -> Result<Step, Fault> {
    match rest {
        [i, name] => Ok(Step::Open(number(i)?, label(name)?)),
        _ => Err(Fault::Shape),
    }
}

pub fn cut(rest: &[&str]) -> Result<Step, Fault> {
    match rest {
        ["count", i, "before"] => at(i, Act::CutCount(false)),
        ["count", i, "after"] => at(i, Act::CutCount(true)),
        ["close", i] => at(i, Act::CutClose),
        _ => Err(Fault::Shape),
    }
}
