//! What is promised of what really ran, more than the fleet promises: with every acceptance it is reported.
#![tactic(auto)]

ghost use Rattle.stories.specs.Stories.{FleetStory};

/// With every acceptance what really ran is reported, and it had been loaded at a moment of the run, after the judge asked, at
/// which the chip's register was the accepted row.
pub fn story_holds()
    ensures { FleetStory }
{}
