//! A machine by value: its chip, and the programs that were loaded since the switch.

pub mod loads;
pub mod starts;

use device::chips::Chip;
use device::registers::Register;

#[derive(Clone, Copy)]
pub struct Machine {
    pub chip: Chip,
    /// What was loaded since the switch, the oldest first.
    pub ran: Register,
}
