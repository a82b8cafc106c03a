//! The words that have a meaning of their own in a script.

ghost use Rattle.std.specs.Prelude.{◌≡◌};
ghost use Rattle.script.specs.Verbs.{verb_text, key_text};

/// What a line asks for: its first word, where one word has several forms also which of them.
#[derive(Clone, Copy, Debug, PartialEq, Eq)]
pub enum Verb {
    Fleet,
    Wipe,
    File,
    FileThen,
    List,
    ListFurther,
    Switch,
    Start,
    Load,
    Put,
    Run,
    Sign,
    Count,
    Read,
    Keep,
    Close,
    Open,
    CutCount,
    CutClose,
    Chip,
    Good,
    Rows,
    Ticks,
    Ask,
    Answer,
    Fall,
    Net,
    Has,
}

/// A word that stands inside a line.
#[derive(Clone, Copy, Debug, PartialEq, Eq)]
pub enum Key {
    Then,
    Further,
    As,
    For,
    Count,
    Close,
    Chip,
}

impl Verb {
    /// Every verb; of two with one word that with a suffix comes first.
    pub const ALL: &'static [Verb] = &[
        Verb::Fleet,
        Verb::Wipe,
        Verb::FileThen,
        Verb::File,
        Verb::ListFurther,
        Verb::List,
        Verb::Switch,
        Verb::Start,
        Verb::Load,
        Verb::Put,
        Verb::Run,
        Verb::Sign,
        Verb::Count,
        Verb::Read,
        Verb::Keep,
        Verb::Close,
        Verb::Open,
        Verb::CutCount,
        Verb::CutClose,
        Verb::Chip,
        Verb::Good,
        Verb::Rows,
        Verb::Ticks,
        Verb::Ask,
        Verb::Answer,
        Verb::Fall,
        Verb::Net,
        Verb::Has,
    ];

    /// The first word of its line.
    pub fn text(self) -> &'static str
        ensures { result.now ≡ verb_text self }
    {
        match self {
            Verb::Fleet => "fleet",
            Verb::Wipe => "wipe",
            Verb::File | Verb::FileThen => "file",
            Verb::List | Verb::ListFurther => "list",
            Verb::Switch => "switch",
            Verb::Start => "start",
            Verb::Load => "load",
            Verb::Put => "put",
            Verb::Run => "run",
            Verb::Sign => "sign",
            Verb::Count => "count",
            Verb::Read => "read",
            Verb::Keep => "keep",
            Verb::Close => "close",
            Verb::Open => "open",
            Verb::CutCount | Verb::CutClose => "cut",
            Verb::Chip => "chip",
            Verb::Good => "good",
            Verb::Rows => "rows",
            Verb::Ticks => "ticks",
            Verb::Ask => "ask",
            Verb::Answer => "answer",
            Verb::Fall => "fall",
            Verb::Net => "net",
            Verb::Has => "has",
        }
    }
}

impl Key {
    pub fn text(self) -> &'static str
        ensures { result.now ≡ key_text self }
    {
        match self {
            Key::Then => "then",
            Key::Further => "further",
            Key::As => "as",
            Key::For => "for",
            Key::Count => "count",
            Key::Close => "close",
            Key::Chip => "chip",
        }
    }
}
