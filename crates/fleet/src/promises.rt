//! What is promised of the fleet's events. Each function does nothing: the point is its contract.

ghost use Rattle.fleet.specs.Cases.{CasesHold, Covered};
ghost use Rattle.fleet.specs.Runs.{Plays, FleetPromise};
ghost use Rattle.fleet.specs.Stories.{FleetStory};
ghost use Rattle.fleet.specs.Worlds.{MachineEvents, OfficeWords, NetWords, JudgeFalls};

/// Every event at a machine is matched by steps of the world.
pub fn machine_events_hold()
    ensures { MachineEvents }
{}

/// Every word to a judge is matched by steps of the world, and so is its fall.
pub fn judge_events_hold()
    ensures office { OfficeWords }
    ensures net { NetWords }
    ensures falls { JudgeFalls }
{}

/// Every event is matched by steps of the world; and over any sequence of events, from the making of the fleet on, the
/// promise of the whole holds and every acceptance that was reported is true.
pub fn promise_holds()
    ensures plays { Plays }
    ensures promise { FleetPromise }
{}

/// The worked cases: every script gives what it has to; and one of them, which ends with an acceptance, meets all that
/// the promise asks of events.
pub fn cases_hold()
    ensures cases { CasesHold }
    ensures covered { Covered }
{}

/// What is reported as loaded with an acceptance had been loaded at a moment of the run, after the judge asked, at which
/// the chip's register was the accepted row.
pub fn story_holds()
    ensures { FleetStory }
{}
