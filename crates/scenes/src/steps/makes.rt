//! Makes a step of a line and its programs.

ghost use Rattle.std.specs.Prelude.{◌≡◌};
ghost use Rattle.scenes.specs.Steps.{at_of, kept_of, office_of, file_of, then_of, row_from, target_of, added_name, names_from, list_of, written_of, no_names, is_after, step_of};
ghost use Rattle.device.specs.Rows.{empty_register};

use crate::names::{data, digest, name, nowhere};
use crate::steps::Step;
use boot::disks::{File, Name, StartList};
use device::chips::{Command, Target};
use device::registers::Register;
use fleet::fleets::{Act, Event};
use script::faults::Fault;
use script::labels::Label;
use script::lines::{Line, When};
use verifier::judges::Word;

/// The step of this line with these programs.
pub fn step(line: Line, programs: &[Label]) -> Result<Step, Fault>
    ensures { result ≡ step_of line programs.now }
{
    match line {
        Line::Fleet { machines, judges } => Ok(Step::Fleet { machines, judges }),
        Line::Wipe => Ok(Step::Play(Event::Wipe)),
        Line::File { name, then } => Ok(file(name, then.unwrap_or(name))),
        Line::List { name, further } => list(name, further, programs),
        Line::Switch { machine } => Ok(at(machine, Act::Switch)),
        Line::Start { machine, list } => Ok(at(machine, Act::Start(name(list)))),
        Line::Load {
            machine,
            name: file,
        } => Ok(at(machine, Act::Load(name(file)))),
        Line::Put { machine, program } => {
            Ok(at(machine, Act::Give(Command::Put(digest(program)))))
        }
        Line::Run { machine, program } => Ok(at(machine, Act::Run(digest(program)))),
        Line::Sign {
            machine,
            word,
            name,
        } => Ok(kept(machine, Act::Give(Command::Sign(data(word))), name)),
        Line::Count { machine } => Ok(at(machine, Act::Give(Command::Count))),
        Line::Read { machine } => Ok(at(machine, Act::Give(Command::Read))),
        Line::Keep {
            machine,
            word,
            name,
        } => {
            let target = target(programs).ok_or(Fault::TooMany)?;
            Ok(kept(machine, Act::Keep(target, data(word)), name))
        }
        Line::Close {
            machine,
            word,
            name,
        } => {
            let target = target(programs).ok_or(Fault::TooMany)?;
            let act = Act::Give(Command::Close(target, data(word)));
            Ok(kept(machine, act, name))
        }
        Line::Open { machine, name } => Ok(Step::Open {
            machine: machine as usize,
            name,
        }),
        Line::CutCount { machine, when } => Ok(at(machine, Act::CutCount(is_late(when)))),
        Line::CutClose { machine } => Ok(at(machine, Act::CutClose)),
        Line::Chip { judge, chip } => Ok(office(judge, Word::Chip(chip))),
        Line::Good { judge } => Ok(office(judge, Word::Good)),
        Line::Rows { judge, list } => Ok(office(judge, Word::List(list))),
        Line::Ticks { judge, ticks } => Ok(office(judge, Word::Ticks(ticks))),
        Line::Ask { judge, chip, word } => Ok(Step::Play(Event::Office(
            judge as usize,
            Word::Ask(chip),
            Some(data(word)),
        ))),
        Line::Answer {
            judge,
            chip,
            word,
            list,
            name,
        } => Ok(Step::Answer {
            judge: judge as usize,
            chip,
            data: data(word),
            list,
            name,
        }),
        Line::Fall { judge } => Ok(Step::Play(Event::Fall(judge as usize))),
        Line::Net { judge, chip } => {
            Ok(Step::Play(Event::Net(judge as usize, Word::Chip(chip))))
        }
        Line::Has { word } => Ok(Step::Has(data(word))),
    }
}

fn at(machine: u32, act: Act) -> Step
    ensures { result ≡ at_of machine act }
{
    Step::Play(Event::At(machine as usize, act))
}

/// The same, where what comes of it is kept.
fn kept(machine: u32, act: Act, name: Label) -> Step
    ensures { result ≡ kept_of machine act name }
{
    Step::Keep(Event::At(machine as usize, act), name)
}

/// To a judge, by the office's line.
fn office(judge: u32, word: Word) -> Step
    ensures { result ≡ office_of judge word }
{
    Step::Play(Event::Office(judge as usize, word, None))
}

/// Whether the counter is written before power is lost.
fn is_late(when: When) -> bool
    ensures { result ≡ is_after when }
{
    matches!(when, When::After)
}

/// A program under its own name, and what stands there once it was read.
fn file(label: Label, other: Label) -> Step
    ensures { result ≡ file_of label other }
{
    let before = File::Program(digest(label));
    let after = File::Program(digest(other));
    Step::Play(Event::Write(name(label), before, after))
}

/// The row of these programs, or no row; nothing where they are too many.
fn target(programs: &[Label]) -> Option<Target>
    ensures { result ≡ target_of programs.now }
{
    match programs {
        [only] if *only == nowhere() => Some(Target::Nowhere),
        _ => Some(Target::Row(row(programs)?)),
    }
}

// A loop and not `try_fold`, as `names` has it: at a register, which brings its own invariant, that was not proved.
fn row(programs: &[Label]) -> Option<Register>
    ensures { result ≡ row_from empty_register programs.now }
{
    let mut row = Register::empty();
    for program in programs {
        row = row.with(digest(*program))?;
    }
    Some(row)
}

/// A start list of these programs, and of the name of a further list if one follows.
fn list(name: Label, further: Option<Label>, programs: &[Label]) -> Result<Step, Fault>
    ensures { result ≡ list_of name further programs.now }
{
    let list = names(programs, further.is_some()).ok_or(Fault::TooMany)?;
    match further {
        None => Ok(written(name, list)),
        Some(label) => {
            let list = with(list, label).ok_or(Fault::TooMany)?;
            Ok(written(name, list))
        }
    }
}

fn written(label: Label, list: StartList) -> Step
    ensures { result ≡ written_of label list }
{
    let file = File::List(list);
    Step::Play(Event::Write(name(label), file, file))
}

fn names(programs: &[Label], further: bool) -> Option<StartList>
    ensures { result ≡ names_from (no_names further) programs.now }
{
    let none = StartList {
        names: [Name { bytes: [0; 16] }; 8],
        count: 0,
        further,
    };
    programs.iter().copied().try_fold(none, with)
}

/// One name more.
fn with(list: StartList, label: Label) -> Option<StartList>
    ensures { result ≡ added_name list label }
{
    let count = list.count;
    if count >= 8 {
        return None;
    }
    let mut names = list.names;
    names[count as usize] = name(label);
    Some(StartList {
        names,
        count: count + 1,
        ..list
    })
}
