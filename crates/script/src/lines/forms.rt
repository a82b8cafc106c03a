//! The form of each line: what stands at its places, whether programs follow, and with which word and name it ends.

ghost use Rattle.std.specs.Prelude.{◌≡◌, Bool};
ghost use Rattle.std.specs.Option.{option_map};
ghost use Rattle.script.specs.Forms.{parts_of, open_of, suffix_of, ends_with, body_of, suits_of};

use crate::lines::Part;
use crate::verbs::{Key, Verb};

/// Of machines and judges there are no more than a small computer has room for.
const FEW: u32 = 255;

const ANY: u32 = u32::MAX;

impl Verb {
    /// What stands after the verb, before programs and suffix.
    pub fn parts(self) -> &'static [Part]
        ensures { result.now ≡ parts_of self }
    {
        match self {
            Verb::Wipe => &[],
            Verb::Fleet => &[Part::First(FEW), Part::Second(FEW)],
            Verb::File | Verb::FileThen | Verb::List | Verb::ListFurther | Verb::Has => {
                &[Part::Name]
            }
            Verb::Switch | Verb::Count | Verb::Read | Verb::Fall | Verb::Good => {
                &[Part::First(ANY)]
            }
            Verb::Start | Verb::Load | Verb::Put | Verb::Run | Verb::Open | Verb::Sign => {
                &[Part::First(ANY), Part::Name]
            }
            Verb::Keep | Verb::Close => &[Part::First(ANY), Part::Name, Part::Word(Key::For)],
            Verb::CutCount => &[Part::Word(Key::Count), Part::First(ANY), Part::When],
            Verb::CutClose => &[Part::Word(Key::Close), Part::First(ANY)],
            Verb::Chip | Verb::Ticks => &[Part::First(ANY), Part::Second(ANY)],
            Verb::Rows => &[Part::First(ANY), Part::List],
            Verb::Ask => &[Part::First(ANY), Part::Second(ANY), Part::Name],
            Verb::Answer => &[
                Part::First(ANY),
                Part::Second(ANY),
                Part::Name,
                Part::List,
                Part::Other,
            ],
            Verb::Net => &[Part::First(ANY), Part::Word(Key::Chip), Part::Second(ANY)],
        }
    }

    /// Whether programs follow.
    pub fn is_open(self) -> bool
        ensures { result ≡ open_of self }
    {
        matches!(
            self,
            Verb::Fleet
                | Verb::List
                | Verb::ListFurther
                | Verb::Keep
                | Verb::Close
                | Verb::Good
                | Verb::Rows
        )
    }

    /// The word before the name with which the line ends.
    pub fn suffix(self) -> Option<Key>
        ensures { result ≡ suffix_of self }
    {
        match self {
            Verb::FileThen => Some(Key::Then),
            Verb::ListFurther => Some(Key::Further),
            Verb::Sign | Verb::Keep | Verb::Close => Some(Key::As),
            _ => None,
        }
    }

    /// The words after the verb without the suffix, if the line ends with it.
    pub fn body<'a>(self, words: &'a [&'a str]) -> Option<&'a [&'a str]>
        ensures { option_map (λ x. x.now) result ≡ body_of self words.now }
    {
        match self.suffix() {
            None => Some(words),
            Some(key) => before_suffix(words, key),
        }
    }

    /// Whether the words after the verb can be its line.
    pub fn suits(self, words: &[&str]) -> bool
        ensures { result ≡ suits_of self words.now }
    {
        let n = self.parts().len();
        match self.body(words) {
            Some(body) if self.is_open() => n <= body.len(),
            Some(body) => n == body.len(),
            None => false,
        }
    }
}

/// What comes before this word and a name at the end.
fn before_suffix<'a>(words: &'a [&'a str], key: Key) -> Option<&'a [&'a str]>
    ensures { option_map (λ x. x.now) result ≡ ends_with key words.now }
{
    match words {
        [body @ .., word, _] if *word == key.text() => Some(body),
        _ => None,
    }
}
