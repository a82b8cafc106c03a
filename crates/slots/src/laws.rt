//! What is proved of the definitions themselves. Each function does nothing: the point is its contract.

ghost use Rattle.slots.specs.Histories.{Survives};

/// Over any sequence of commands and power losses.
pub fn survives()
    ensures { Survives }
{}
