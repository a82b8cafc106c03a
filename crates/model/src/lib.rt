//! The world of machines, judges and outsiders as steps, and what is promised of every run of it.
#![tactic(auto)]

ghost use Rattle.model.specs.Promise.{Main};

/// Does nothing: the point is the contract, which the gate accepts only with the proof of `Main`.
pub fn promise_holds()
    ensures { Main }
{}
