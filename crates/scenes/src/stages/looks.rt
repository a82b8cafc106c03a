//! Looks for what was kept.

ghost use Rattle.std.specs.Prelude.{◌≡◌};
ghost use Rattle.scenes.specs.Scenes.{latest, thing_in, signature_in, copy_in};

use crate::stages::Kept;
use device::chips::{Answer, Signature, Thing};
use fleet::fleets::{Fault, Report};
use script::labels::Label;

/// The latest under this name.
pub fn find(kept: &[Kept], name: Label) -> Option<Answer>
    ensures { result ≡ latest name kept.now }
{
    let latest = kept.iter().find(|one| one.name == name)?;
    Some(latest.answer)
}

// This and the next differ in one pattern: a function over both would take a closure with it, and be no shorter.
pub fn thing(kept: &[Kept], name: Label) -> Option<Thing>
    ensures { result ≡ thing_in (latest name kept.now) }
{
    match find(kept, name)? {
        Answer::Closed(thing) => Some(thing),
        _ => None,
    }
}

pub fn signature(kept: &[Kept], name: Label) -> Option<Signature>
    ensures { result ≡ signature_in (latest name kept.now) }
{
    match find(kept, name)? {
        Answer::Signed(signature) => Some(signature),
        _ => None,
    }
}

/// What is worth keeping of a report: a signature or a thing.
pub fn copy(report: Result<Report, Fault>) -> Option<Answer>
    ensures { result ≡ copy_in report }
{
    match report {
        Ok(Report::Answered(Answer::Signed(signature))) => Some(Answer::Signed(signature)),
        Ok(Report::Answered(Answer::Closed(thing))) => Some(Answer::Closed(thing)),
        _ => None,
    }
}
