//! Questions grow older.

ghost use Rattle.std.specs.Prelude.{◌≡◌};
ghost use Rattle.verifier.specs.Ages.{aged};

use crate::judges::Question;

/// After so many ticks: those that had no more left than that are put out.
pub fn age(questions: &mut Vec<Question>, ticks: u32)
    ensures { questions.new.items ≡ aged ticks questions.old.items }
{
    questions.retain_mut(|question| {
        question.left = question.left.saturating_sub(ticks);
        question.left > 0
    });
}
