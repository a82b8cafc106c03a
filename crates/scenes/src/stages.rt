//! A fleet on which a script is played, and the copies that were kept of what it gave out.

pub mod looks;
pub mod takes;

use device::chips::Answer;
use fleet::fleets::{Fault, Fleet, Report};
use script::labels::Label;
use std::marker::Model;

#[derive(Drop)]
pub struct Stage {
    fleet: Fleet,
    /// The latest first.
    kept: Vec<Kept>,
}

/// Contracts see a stage without its memory.
impl Model for Stage {
    ghost use Rattle.std.specs.Prelude.{vec_items};
    ghost use Rattle.scenes.specs.Kept.{Scene};

    ghost Value = { Scene };

    ghost view = { λ s. record { fleet = s.fleet; kept = vec_items s.kept } };
}

/// A signature or a thing, as the chip answered it.
#[derive(Clone, Copy)]
pub struct Kept {
    name: Label,
    answer: Answer,
}

/// What came of a line.
#[derive(Clone, Copy)]
pub enum Outcome {
    /// What the fleet reports, or why the event came to nothing: the line was played.
    Reported(Result<Report, Fault>),
    /// Whether outsiders have it.
    Has(bool),
}
