//! Tests of the loader: programs 1 and 2 stand under names 1 and 2, the start list under name 10.

use crate::tests::{FIRST, digest, row, told};
use boot::disks::{Disk, File, Name, StartList};
use boot::machines::Machine;
use std::alloc::Global;
use std::process::Abort;
use std::test::Fail;

fn name(n: u8) -> Name {
    Name { bytes: [n; 16] }
}

fn program(n: u8) -> File {
    File::Program(digest(n))
}

/// A start list of name `a` and then `b`, as often as the count says.
fn list(a: u8, b: u8, count: u8, further: bool) -> File {
    let mut names = [name(b); 8];
    names[0] = name(a);
    File::List(StartList {
        names,
        count,
        further,
    })
}

/// A disk with the programs, and with this under name 10.
fn disk(heap: Global, file: File) -> Result<Disk, Fail> {
    let mut disk = Disk::new(heap);
    disk.add(name(1), program(1), program(1))?;
    disk.add(name(2), program(2), program(2))?;
    disk.add(name(10), file, file)?;
    Ok(disk)
}

/// Machine 1, newly made, started with this start list.
fn start(disk: &mut Disk, list: u8) -> (Machine, Result<(), u8>) {
    again(Machine::new(1), disk, list)
}

fn again(machine: Machine, disk: &mut Disk, list: u8) -> (Machine, Result<(), u8>) {
    let (machine, outcome) = machine.start(digest(FIRST), disk, name(list));
    (machine, told(outcome))
}

/// Whether just these programs were put in and loaded, in this order.
fn runs(machine: Machine, ns: &[u8]) -> bool {
    let row = row(ns);
    machine.chip.register() == row && machine.ran == row
}

/// Starts from a disk with this under name 10, which has to be refused by 7 after just these programs.
fn refused(rt: &impl Abort, heap: Global, file: File, ns: &[u8], note: &str) -> Result<(), Fail> {
    let mut disk = disk(heap, file)?;
    let (machine, outcome) = start(&mut disk, 10);
    assert_eq!(rt; outcome, Err(7), "{note}");
    assert!(rt; runs(machine, ns), "loaded: {note}");
    Ok(())
}

#[test]
fn list_is_loaded_in_its_order(rt: HostRuntime) -> Result<(), Fail> {
    let mut disk = disk(rt.alloc(), list(1, 2, 2, false))?;
    let (machine, outcome) = start(&mut disk, 10);
    assert_eq!(rt; outcome, Ok(()));
    assert!(rt; runs(machine, &[FIRST, 1, 2]));
    let (machine, outcome) = again(machine, &mut disk, 10);
    assert_eq!(rt; outcome, Ok(()), "again");
    assert!(rt; runs(machine, &[FIRST, 1, 2]), "again");
    Ok(())
}

#[test]
fn further_list_is_loaded_after_the_first(rt: HostRuntime) -> Result<(), Fail> {
    let mut disk = disk(rt.alloc(), list(2, 11, 2, true))?;
    let more = list(1, 1, 1, false);
    disk.add(name(11), more, more)?;
    let (machine, outcome) = start(&mut disk, 10);
    assert_eq!(rt; outcome, Ok(()));
    assert!(rt; runs(machine, &[FIRST, 2, 1]));
    Ok(())
}

#[test]
fn missing_list_is_refused_by_7(rt: HostRuntime) -> Result<(), Fail> {
    let mut disk = disk(rt.alloc(), list(1, 2, 2, false))?;
    let (machine, outcome) = start(&mut disk, 12);
    assert_eq!(rt; outcome, Err(7));
    assert!(rt; runs(machine, &[FIRST]));
    Ok(())
}

#[test]
fn list_that_is_a_program_is_refused_by_7(rt: HostRuntime) -> Result<(), Fail> {
    refused(&rt, rt.alloc(), program(3), &[FIRST], "a program")
}

#[test]
fn count_of_0_is_refused_by_7(rt: HostRuntime) -> Result<(), Fail> {
    refused(&rt, rt.alloc(), list(1, 2, 0, false), &[FIRST], "count 0")?;
    let further = list(1, 2, 0, true);
    refused(&rt, rt.alloc(), further, &[FIRST], "with a further list")
}

#[test]
fn count_of_9_is_refused_by_7(rt: HostRuntime) -> Result<(), Fail> {
    refused(&rt, rt.alloc(), list(1, 2, 9, false), &[FIRST], "count 9")?;
    let mut disk = disk(rt.alloc(), list(1, 2, 8, false))?;
    let (machine, outcome) = start(&mut disk, 10);
    assert_eq!(rt; outcome, Ok(()), "8 are taken");
    assert!(rt; runs(machine, &[FIRST, 1, 2, 2, 2, 2, 2, 2, 2]));
    Ok(())
}

#[test]
fn missing_program_is_refused_by_7(rt: HostRuntime) -> Result<(), Fail> {
    refused(&rt, rt.alloc(), list(1, 12, 2, false), &[FIRST], "missing")?;
    let names_a_list = list(1, 10, 2, false);
    refused(
        &rt,
        rt.alloc(),
        names_a_list,
        &[FIRST],
        "a list is no program",
    )
}

#[test]
fn missing_further_list_leaves_what_was_loaded(rt: HostRuntime) -> Result<(), Fail> {
    refused(
        &rt,
        rt.alloc(),
        list(1, 12, 2, true),
        &[FIRST, 1],
        "missing",
    )
}

#[test]
fn list_that_names_itself_is_loaded_once(rt: HostRuntime) -> Result<(), Fail> {
    refused(&rt, rt.alloc(), list(1, 10, 2, true), &[FIRST, 1], "itself")
}

#[test]
fn swapped_program_is_loaded_as_it_was_read(rt: HostRuntime) -> Result<(), Fail> {
    let mut disk = disk(rt.alloc(), list(3, 3, 2, false))?;
    disk.add(name(3), program(3), program(4))?;
    let (machine, outcome) = start(&mut disk, 10);
    assert_eq!(rt; outcome, Ok(()));
    assert!(rt; runs(machine, &[FIRST, 3, 4]));
    Ok(())
}

#[test]
fn asked_program_is_loaded_last(rt: HostRuntime) -> Result<(), Fail> {
    let mut disk = disk(rt.alloc(), list(1, 1, 1, false))?;
    let (machine, _) = start(&mut disk, 10);
    let Ok(machine) = machine.ask(&mut disk, name(2)) else {
        return Err(Fail::new("refused"));
    };
    assert!(rt; runs(machine, &[FIRST, 1, 2]));
    assert_eq!(rt; told(machine.ask(&mut disk, name(12))), Err(7), "missing");
    assert!(rt; runs(machine, &[FIRST, 1, 2]), "missing");
    Ok(())
}

#[test]
fn nobody_asks_before_anything_runs(rt: HostRuntime) -> Result<(), Fail> {
    let mut disk = disk(rt.alloc(), list(1, 2, 2, false))?;
    let machine = Machine::new(1);
    assert_eq!(rt; told(machine.ask(&mut disk, name(1))), Err(1));
    assert!(rt; runs(machine, &[]));
    assert_eq!(rt; told(machine.ask(&mut disk, name(12))), Err(1), "before 7");
    Ok(())
}
