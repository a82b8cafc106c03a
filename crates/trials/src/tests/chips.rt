//! Tests of the chip.

use crate::tests::{data, digest, give, row, told};
use device::chips::{Answer, Chip, Command, Content, Seal, Target, Thing};
use std::test::Fail;

/// The counter that the chip tells.
fn counter(chip: Chip) -> Option<u64> {
    match chip.answer(Command::Read) {
        Ok((_, Answer::Now(counter, _))) => Some(counter),
        _ => None,
    }
}

/// A chip of this number with digest 1 put in.
fn chip_with_one(id: u32) -> Result<Chip, Fail> {
    let (chip, _) = give(Chip::new(id), Command::Put(digest(1)))?;
    Ok(chip)
}

/// What the chip closes: data 5 for this target.
fn closes(chip: Chip, target: Target) -> Result<Thing, Fail> {
    match give(chip, Command::Close(target, data(5)))? {
        (_, Answer::Closed(thing)) => Ok(thing),
        _ => Err(Fail::new("not closed")),
    }
}

fn opens(chip: Chip, thing: Thing) -> Result<(), u8> {
    told(chip.answer(Command::Open(thing)))
}

fn counted(chip: Chip) -> Result<Chip, Fail> {
    let (chip, _) = give(chip, Command::Count)?;
    Ok(chip)
}

#[test]
fn seventeenth_put_is_refused_and_changes_nothing(rt: HostRuntime) -> Result<(), Fail> {
    let mut chip = Chip::new(7);
    for n in 0..16u8 {
        let (next, answer) = give(chip, Command::Put(digest(n)))?;
        assert!(rt; matches!(answer, Answer::Done), "there is room");
        chip = next;
    }
    assert_eq!(rt; told(chip.answer(Command::Put(digest(16)))), Err(0));
    assert_eq!(rt; chip.register().len(), 16);
    assert_eq!(rt; counter(chip), Some(0));
    Ok(())
}

#[test]
fn closed_data_is_opened_under_the_same_row_and_counter(rt: HostRuntime) -> Result<(), Fail> {
    let chip = counted(chip_with_one(7)?)?;
    let thing = closes(chip, Target::Row(row(&[1])))?;
    let (_, Answer::Opened(inside)) = give(chip, Command::Open(thing))? else {
        return Err(Fail::new("not opened"));
    };
    assert!(rt; inside == data(5));
    Ok(())
}

#[test]
fn altered_data_under_a_seal_is_refused_by_2(rt: HostRuntime) -> Result<(), Fail> {
    let chip = chip_with_one(7)?;
    let thing = closes(chip, Target::Row(row(&[1])))?;
    let altered = Thing {
        content: Content {
            data: data(6),
            ..thing.content
        },
        ..thing
    };
    assert_eq!(rt; opens(chip, altered), Err(2));
    let older = counted(chip.switched_on())?;
    assert_eq!(rt; opens(older, altered), Err(2), "before 3 and 4");
    assert_eq!(rt; opens(chip, thing), Ok(()), "unaltered");
    Ok(())
}

#[test]
fn seal_of_another_chip_is_refused_by_2(rt: HostRuntime) -> Result<(), Fail> {
    let chip = chip_with_one(7)?;
    let other = chip_with_one(8)?;
    let thing = closes(other, Target::Row(row(&[1])))?;
    assert_eq!(rt; opens(chip, thing), Err(2));
    assert_eq!(rt; opens(other, thing), Ok(()), "by its own chip");
    let claimed = Thing {
        seal: Seal {
            chip: 7,
            ..thing.seal
        },
        ..thing
    };
    assert_eq!(rt; opens(other, claimed), Err(2), "the seal says 7");
    Ok(())
}

#[test]
fn thing_for_another_row_is_refused_by_3(rt: HostRuntime) -> Result<(), Fail> {
    let chip = chip_with_one(7)?;
    let other = closes(chip, Target::Row(row(&[2])))?;
    assert_eq!(rt; opens(chip, other), Err(3), "another digest");
    let longer = closes(chip, Target::Row(row(&[1, 1])))?;
    assert_eq!(rt; opens(chip, longer), Err(3), "a longer row");
    let shorter = closes(chip, Target::Row(row(&[])))?;
    assert_eq!(rt; opens(chip, shorter), Err(3), "the empty row");
    let nowhere = closes(chip, Target::Nowhere)?;
    assert_eq!(rt; opens(chip, nowhere), Err(3), "nowhere");
    Ok(())
}

#[test]
fn thing_under_another_counter_is_refused_by_4(rt: HostRuntime) -> Result<(), Fail> {
    let chip = chip_with_one(7)?;
    let thing = closes(chip, Target::Row(row(&[1])))?;
    assert_eq!(rt; opens(counted(chip)?, thing), Err(4), "an older counter");
    let newer = closes(counted(chip)?, Target::Row(row(&[1])))?;
    assert_eq!(rt; opens(chip, newer), Err(4), "a newer counter");
    let switched = counted(chip.switched_on())?;
    assert_eq!(rt; opens(switched, thing), Err(3), "another row too");
    Ok(())
}

#[test]
fn program_that_claims_to_be_the_switch_is_refused_by_1(rt: HostRuntime) -> Result<(), Fail> {
    let chip = counted(chip_with_one(7)?)?;
    assert_eq!(rt; told(chip.answer(Command::SwitchedOn)), Err(1));
    assert!(rt; chip.register() == row(&[1]), "the row stays");
    assert_eq!(rt; counter(chip), Some(1));
    Ok(())
}

#[test]
fn switch_empties_the_register_and_keeps_the_counter(rt: HostRuntime) -> Result<(), Fail> {
    let chip = counted(counted(chip_with_one(7)?)?)?;
    assert_eq!(rt; chip.register().len(), 1, "before");
    let after = chip.switched_on();
    assert_eq!(rt; after.register().len(), 0);
    assert_eq!(rt; counter(after), Some(2));
    assert_eq!(rt; after.id(), 7);
    Ok(())
}

#[test]
fn things_closed_are_numbered_0_and_1(rt: HostRuntime) -> Result<(), Fail> {
    let command = Command::Close(Target::Nowhere, data(5));
    let (chip, Answer::Closed(thing)) = give(chip_with_one(7)?, command)? else {
        return Err(Fail::new("not closed"));
    };
    assert_eq!(rt; thing.content.number, 0);
    let again = closes(chip.switched_on(), Target::Nowhere)?;
    assert_eq!(rt; again.content.number, 1, "after a switch too");
    Ok(())
}
