//! Reading a disk.

ghost use Rattle.std.specs.Prelude.{◌≡◌, [], map, length, is_ok};
ghost use Rattle.device.specs.Rows.{empty_register};
ghost use Rattle.boot.specs.Disks.{added, unread, place, shown, read_of, program_of, programs_of, listed_of, batch_of};

use crate::disks::{Batch, Disk, Entry, File, Name, StartList};
use device::digests::Digest;
use device::registers::Register;
use std::alloc::{AllocError, Global};

impl Entry {
    /// What a read gives: once the file was read, what was put in its place.
    fn shown(self) -> File
        ensures { result ≡ shown self }
    {
        if self.read { self.swapped } else { self.file }
    }
}

impl Disk {
    pub fn new(heap: Global) -> Disk
        ensures { result ≡ [] }
    {
        Disk {
            entries: Vec::new(heap),
        }
    }

    /// One file more, with what outsiders put in its place once it was read.
    pub fn add(&mut self, name: Name, file: File, swapped: File) -> Result<(), AllocError>
        ensures { self.new ≡ added (is_ok result) self.old name file swapped }
    {
        self.entries.push(Entry {
            name,
            file,
            swapped,
            read: false,
            listed: false,
        })?;
        Ok(())
    }

    /// Removes every file.
    pub fn clear(&mut self)
        ensures { self.new ≡ [] }
    {
        self.entries.clear();
    }

    /// How many files there are.
    pub(crate) fn len(&self) -> usize
        ensures { result ≡ length self.now }
    {
        self.entries.len()
    }

    /// A new start: nothing was read yet.
    pub fn rewind(&mut self)
        ensures { self.new ≡ map unread self.old }
    {
        for entry in self.entries.iter_mut() {
            entry.read = false;
            entry.listed = false;
        }
    }

    /// Where the first entry of this name stands.
    fn find(&self, name: Name) -> Option<usize>
        ensures { result ≡ place self.now name }
    {
        self.entries.iter().position(|entry| entry.name == name)
    }

    /// The file of this name; a start list is read once in a start.
    pub fn read(&mut self, name: Name, as_list: bool) -> Option<File>
        ensures { (self.new, result) ≡ read_of as_list self.old name }
    {
        let i = self.find(name)?;
        let entry = &mut self.entries[i];
        if as_list && entry.listed {
            return None;
        }
        let file = entry.shown();
        entry.read = true;
        entry.listed = entry.listed || as_list;
        Some(file)
    }

    /// The program of this name.
    pub fn program(&mut self, name: Name) -> Option<Digest>
        ensures { (self.new, result) ≡ program_of self.old name }
    {
        match self.read(name, false)? {
            File::Program(digest) => Some(digest),
            File::List(_) => None,
        }
    }

    /// All programs of these names, or none where one is not there.
    fn programs(&mut self, names: &[Name]) -> Option<Register>
        ensures { (self.new, result) ≡ programs_of self.old empty_register names.now }
    {
        let mut programs = Register::empty();
        for name in names {
            let digest = self.program(*name)?;
            programs = programs.with(digest)?;
        }
        Some(programs)
    }

    fn listed(&mut self, list: StartList) -> Option<Batch>
        ensures { (self.new, result) ≡ listed_of self.old list }
    {
        let count = list.count as usize;
        if count == 0 || count > 8 {
            return None;
        }
        let names = list.names;
        if list.further {
            let programs = self.programs(&names[0..count - 1])?;
            return Some(Batch {
                programs,
                further: Some(names[count - 1]),
            });
        }
        let programs = self.programs(&names[0..count])?;
        Some(Batch {
            programs,
            further: None,
        })
    }

    /// What the start list of this name comes to; none where it, or a program that it names, cannot be read.
    pub fn batch(&mut self, name: Name) -> Option<Batch>
        ensures { (self.new, result) ≡ batch_of self.old name }
    {
        match self.read(name, true)? {
            File::List(list) => self.listed(list),
            File::Program(_) => None,
        }
    }
}
