//! Switching a machine on, and loading programs.

ghost use Rattle.std.specs.Prelude.{◌≡◌};
ghost use Rattle.device.specs.Rows.{row};
ghost use Rattle.boot.specs.Machines.{new_machine, switched, load_of, load_all_of};

use crate::machines::Machine;
use device::chips::Chip;
use device::digests::Digest;
use device::registers::Register;

impl Machine {
    pub fn new(id: u32) -> Machine
        ensures { result ≡ new_machine id }
    {
        Machine {
            chip: Chip::new(id),
            ran: Register::empty(),
        }
    }

    pub fn switch(self) -> Machine
        ensures { result ≡ switched self }
    {
        Machine {
            chip: self.chip.switched_on(),
            ran: Register::empty(),
        }
    }

    /// Puts the digest in, then loads the program; nothing where there is no room.
    pub fn load(self, digest: Digest) -> Option<Machine>
        ensures { result ≡ load_of self digest }
    {
        let chip = self.chip.put(digest).ok()?;
        let ran = self.ran.with(digest)?;
        Some(Machine { chip, ran })
    }

    /// Loads these programs in this order; nothing where there is no room for all.
    pub fn load_all(self, programs: Register) -> Option<Machine>
        ensures { result ≡ load_all_of self (row programs) }
    {
        let mut machine = self;
        for digest in programs.as_slice() {
            machine = machine.load(*digest)?;
        }
        Some(machine)
    }
}
