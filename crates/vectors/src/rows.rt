//! A vector's line, and how many of the lines agree.

ghost use Rattle.std.specs.Prelude.{◌≡◌, ◌≤◌, Bool, Decides, ◌==◌};
ghost use Rattle.vectors.specs.Tallies.{counted, none};

use hash::comparisons::equal;
use std::alloc::{AllocError, Global};
use std::convert::AsSlice;
use std::{fmt, io};

/// Bytes, shown in hexadecimal.
#[derive(Clone, Copy)]
struct Hex<'a>(&'a [u8]);

impl fmt::Display for Hex<'_> {
    fn fmt<W: fmt::Write>(&self, f: &mut fmt::Formatter<W>) -> fmt::Result {
        for &byte in self.0 {
            write!(f, "{byte:02x}")?;
        }
        Ok(())
    }
}

/// A published vector: what goes in, and what should come.
#[derive(Clone, Copy)]
pub struct Case<I> {
    pub name: &'static str,
    pub input: I,
    pub expected: &'static [u8],
}

/// How many lines agree, and how many differ.
#[derive(Clone, Copy)]
pub struct Tally {
    pub agreeing: u32,
    pub differing: u32,
}

impl Tally {
    pub fn new() -> Tally
        ensures { result ≡ none }
    {
        Tally {
            agreeing: 0,
            differing: 0,
        }
    }

    fn count(&mut self, agree: bool)
        ensures exact { self.new ≡ counted self.old agree }
        ensures keeps { self.old.differing ≤ self.new.differing }
    {
        if agree {
            self.agreeing = self.agreeing.saturating_add(1);
        } else {
            self.differing = self.differing.saturating_add(1);
        }
    }

    pub fn all_agree(self) -> bool
        ensures { result ≡ (self.differing == 0) }
    {
        self.differing == 0
    }
}

/// Where the lines go, and the tally of those that went there.
#[derive(Drop)]
pub struct Report<'a> {
    rt: &'a HostRuntime,
    pub tally: Tally,
}

impl<'a> Report<'a> {
    pub fn new(rt: &'a HostRuntime) -> Report<'a>
        ensures { result.tally ≡ none }
    {
        Report {
            rt,
            tally: Tally::new(),
        }
    }

    /// Prints what came and what should have come, and counts it.
    pub fn print(&mut self, name: &str, came: &[u8], expected: &[u8]) -> io::Result<()>
        ensures counts { (b : Bool) → Decides b (came.now ≡ expected.now) → self.new.tally ≡ counted self.old.tally b }
        ensures keeps { self.old.tally.differing ≤ self.new.tally.differing }
    {
        let agree = equal(came, expected);
        self.tally.count(agree);
        // A bool, as `equal` answers it: an enum would be made of it here, and read nowhere else.
        let verdict = if agree { "agree" } else { "DIFFER" };
        let came = Hex(came);
        let expected = Hex(expected);
        println!(self.rt; "{name}: came {came}, expected {expected}: {verdict}")
    }

    /// Prints a line for each case, of what `give` makes of its input: an array where that serves, so that it takes no memory.
    pub fn run<I, B: AsSlice<u8> + Drop, F: Fn(&I, Global) -> Result<B, AllocError>>(
        &mut self,
        cases: &[Case<I>],
        give: F,
    ) -> anyhow::Result<()>
        requires { F.IsAlwaysCallable give }
        ensures { self.old.tally.differing ≤ self.new.tally.differing }
    {
        for case in cases {
            let came = give(&case.input, self.rt.alloc())?;
            self.print(case.name, came.as_slice(), case.expected)?;
        }
        Ok(())
    }
}
