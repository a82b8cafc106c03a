//! What stood at the places of a line, word after word.

ghost use Rattle.std.specs.Prelude.{◌≡◌};
ghost use Rattle.script.specs.Lines.{blank, when_of, put_of, ended_of, filled, line_of};

use crate::faults::Fault;
use crate::labels::Label;
use crate::lines::{Line, Part, When};
use crate::numbers::number;
use crate::verbs::{Key, Verb};
use std::str::FromStr;

/// The words that were read so far.
// Zeros and not Options where none was read: a verb's line takes only places that its parts have filled, so a `None`
// would be an arm that never comes.
#[derive(Clone, Copy)]
pub(crate) struct Places {
    first: u32,
    second: u32,
    list: u16,
    when: When,
    name: Label,
    other: Label,
}

impl Places {
    /// Nothing was read yet.
    pub(crate) fn new() -> Places
        ensures { result ≡ blank }
    {
        Places {
            first: 0,
            second: 0,
            list: 0,
            when: When::Before,
            name: Label::default(),
            other: Label::default(),
        }
    }

    /// Word after word.
    pub(crate) fn fill(self, parts: &[Part], words: &[&str]) -> Result<Places, Fault>
        ensures { result ≡ filled self parts.now words.now }
    {
        let mut places = self;
        // Not a zip, which would end without a word where one is missing.
        let mut words = words.iter();
        for part in parts {
            let word = words.next().ok_or(Fault::Shape)?;
            places = places.put(*part, word)?;
        }
        Ok(places)
    }

    /// With the name after the suffix, where the verb has one.
    pub(crate) fn end(self, suffix: Option<Key>, words: &[&str]) -> Result<Places, Fault>
        ensures { result ≡ ended_of self suffix words.now }
    {
        match suffix {
            None => Ok(self),
            Some(_) => {
                let name = words.last().ok_or(Fault::Shape)?;
                self.put(Part::Other, name)
            }
        }
    }

    /// With the word that stands at this part.
    fn put(self, part: Part, word: &str) -> Result<Places, Fault>
        ensures { result ≡ put_of self part word.now }
    {
        match part {
            Part::First(limit) => Ok(Places {
                first: number(word, limit)?,
                ..self
            }),
            Part::Second(limit) => Ok(Places {
                second: number(word, limit)?,
                ..self
            }),
            // The number is within its limit, so the cast loses nothing.
            Part::List => Ok(Places {
                list: number(word, u32::from(u16::MAX))? as u16,
                ..self
            }),
            Part::Name => Ok(Places {
                name: word.parse()?,
                ..self
            }),
            Part::Other => Ok(Places {
                other: word.parse()?,
                ..self
            }),
            Part::When => Ok(Places {
                when: word.parse()?,
                ..self
            }),
            Part::Word(key) if word == key.text() => Ok(self),
            Part::Word(_) => Err(Fault::Shape),
        }
    }

    /// The line of this verb.
    pub(crate) fn line(self, verb: Verb) -> Line
        ensures { result ≡ line_of verb self }
    {
        let Places {
            first,
            second,
            list,
            when,
            name,
            other,
        } = self;
        match verb {
            Verb::Fleet => Line::Fleet {
                machines: first,
                judges: second,
            },
            Verb::Wipe => Line::Wipe,
            Verb::File => Line::File { name, then: None },
            Verb::FileThen => Line::File {
                name,
                then: Some(other),
            },
            Verb::List => Line::List {
                name,
                further: None,
            },
            Verb::ListFurther => Line::List {
                name,
                further: Some(other),
            },
            Verb::Switch => Line::Switch { machine: first },
            Verb::Start => Line::Start {
                machine: first,
                list: name,
            },
            Verb::Load => Line::Load {
                machine: first,
                name,
            },
            Verb::Put => Line::Put {
                machine: first,
                program: name,
            },
            Verb::Run => Line::Run {
                machine: first,
                program: name,
            },
            Verb::Sign => Line::Sign {
                machine: first,
                word: name,
                name: other,
            },
            Verb::Count => Line::Count { machine: first },
            Verb::Read => Line::Read { machine: first },
            Verb::Keep => Line::Keep {
                machine: first,
                word: name,
                name: other,
            },
            Verb::Close => Line::Close {
                machine: first,
                word: name,
                name: other,
            },
            Verb::Open => Line::Open {
                machine: first,
                name,
            },
            Verb::CutCount => Line::CutCount {
                machine: first,
                when,
            },
            Verb::CutClose => Line::CutClose { machine: first },
            Verb::Chip => Line::Chip {
                judge: first,
                chip: second,
            },
            Verb::Good => Line::Good { judge: first },
            Verb::Rows => Line::Rows { judge: first, list },
            Verb::Ticks => Line::Ticks {
                judge: first,
                ticks: second,
            },
            Verb::Ask => Line::Ask {
                judge: first,
                chip: second,
                word: name,
            },
            Verb::Answer => Line::Answer {
                judge: first,
                chip: second,
                word: name,
                list,
                name: other,
            },
            Verb::Fall => Line::Fall { judge: first },
            Verb::Net => Line::Net {
                judge: first,
                chip: second,
            },
            Verb::Has => Line::Has { word: name },
        }
    }
}

impl FromStr for When {
    type Err = Fault;

    ghost from_str_gives = { λ word result. result ≡ when_of word };

    fn from_str(word: &str) -> Result<When, Fault> {
        match word {
            "before" => Ok(When::Before),
            "after" => Ok(When::After),
            _ => Err(Fault::Shape),
        }
    }
}
