use crate::failures::Failing;
use slots::keepers::Keeper;
use slots::marks::{Act, Marks, StepError};
use slots::memories::Memory;
use slots::places::{LENGTH, place};
use std::process::Abort;
use std::test::Fail;

const SCRIPT: [Act; 5] = [
    Act::Counting,
    Act::Closing,
    Act::Closing,
    Act::Counting,
    Act::Closing,
];

/// How many bytes the script writes.
const WRITTEN: usize = SCRIPT.len() * LENGTH;

/// What was told so far: the counter, and the number after that of the last thing.
#[derive(Clone, Copy)]
struct Told {
    counter: u64,
    next: u64,
}

impl Told {
    /// What is told once an act was answered by the marks before it; none of it comes a second time.
    fn with(self, rt: &impl Abort, act: Act, before: Marks) -> Told {
        match act {
            Act::Counting => {
                assert!(rt; before.counter >= self.counter, "a counter comes again");
                Told {
                    counter: before.counter.saturating_add(1),
                    ..self
                }
            }
            Act::Closing => {
                assert!(rt; before.number >= self.next, "a number comes again");
                Told {
                    next: before.number.saturating_add(1),
                    ..self
                }
            }
        }
    }
}

fn new_memory() -> Memory {
    let zeros = place(Marks {
        counter: 0,
        number: 0,
    });
    Memory {
        first: zeros,
        second: zeros,
    }
}

/// Plays the script until power is lost after so many bytes; a chip without power answers nothing.
fn play(
    rt: &impl Abort,
    memory: Memory,
    left: usize,
    mut told: Told,
) -> Result<(Memory, Told), Fail> {
    let mut keeper = Keeper::new(Failing { memory, left });
    keeper.switch_on();
    let mut acts = SCRIPT.iter();
    for act in acts.by_ref() {
        match keeper.step(*act) {
            Ok(before) => told = told.with(rt, *act, before),
            Err(StepError::Lost) => break,
            Err(StepError::UsedUp) => return Err(Fail::new("used up")),
            Err(StepError::NoPlace) => return Err(Fail::new("no place fits")),
        }
    }
    for act in acts {
        assert_eq!(rt; keeper.step(*act), Err(StepError::NoPlace), "without power");
    }
    Ok((keeper.into_storage().memory, told))
}

/// Power is lost after `first` bytes, after the restart again after `second`, and then no more.
fn lose_twice(rt: &impl Abort, first: usize, second: usize) -> Result<(), Fail> {
    let told = Told {
        counter: 0,
        next: 0,
    };
    let (memory, told) = play(rt, new_memory(), first, told)?;
    let (memory, told) = play(rt, memory, second, told)?;
    let (_, told) = play(rt, memory, WRITTEN, told)?;
    assert!(rt; told.counter >= 2, "counted");
    assert!(rt; told.next >= 3, "closed");
    Ok(())
}

#[test]
fn power_is_lost_at_every_byte_twice(rt: HostRuntime) -> Result<(), Fail> {
    for first in 0..=WRITTEN {
        for second in 0..=WRITTEN {
            lose_twice(&rt, first, second)?;
        }
    }
    Ok(())
}
