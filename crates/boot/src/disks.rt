//! A disk by value: names, and what stands under them.

pub mod reads;

ghost use Rattle.std.specs.Prelude.{◌≡◌, Decides};
ghost use Rattle.std.specs.Str.{bytes_eq};
ghost use Rattle.std.specs.Cmp.Rules.{comparing};
ghost use Rattle.std.proofs.Common.{rules};

use device::digests::Digest;
use device::registers::Register;
use std::marker::Model;

#[derive(Clone, Copy, Eq)]
pub struct Name {
    pub bytes: [u8; 16],
}

// By hand: a derive's `==` has no clause that it decides whether the two are the same.
impl PartialEq for Name {
    ghost eq = { λ x y. bytes_eq x.bytes y.bytes };

    ghost laws = { Prim.search (comparing, rules) };

    fn eq(&self, other: &Name) -> bool
        ensures computes { result ≡ bytes_eq self.now.bytes other.now.bytes }
        ensures decides { Decides result (self.now ≡ other.now) }
    {
        self.bytes == other.bytes
    }
}

/// A start list: up to eight names; where `further` is set, the last is that of a further start list.
// As outsiders wrote it, with any count and any flag: each has to be read or refused, so no type rules one out.
#[derive(Clone, Copy)]
pub struct StartList {
    pub names: [Name; 8],
    pub count: u8,
    pub further: bool,
}

/// A program is known by its digest.
#[derive(Clone, Copy)]
pub enum File {
    Program(Digest),
    List(StartList),
}

/// What stands under a name. Outsiders own the disk: once a file was read they may put another in its place, which is
/// what any later read of it gives in the same start.
#[derive(Clone, Copy)]
pub struct Entry {
    pub name: Name,
    pub file: File,
    pub swapped: File,
    /// Read since the start, and read as a start list. Two flags and no enum of three states, since callers may write down
    /// all four.
    pub read: bool,
    pub listed: bool,
}

/// The entries, the oldest first.
#[derive(Drop)]
pub struct Disk {
    pub entries: Vec<Entry>,
}

impl Model for Disk {
    ghost use Rattle.std.specs.Prelude.{List};
    ghost use Rattle.boot.specs.declared.disks.Entry.{Entry};

    ghost Value = { List Entry };

    ghost view = { λ d. d.entries.items };
}

/// What a start list comes to, once all its programs were read: their digests, and the name of a further list.
#[derive(Clone, Copy)]
pub struct Batch {
    pub programs: Register,
    pub further: Option<Name>,
}
