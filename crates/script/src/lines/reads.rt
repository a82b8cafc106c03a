//! Reads the words of a line.

ghost use Rattle.std.specs.Prelude.{◌≡◌};
ghost use Rattle.script.specs.Forms.{first_suiting, misfit_of};
ghost use Rattle.script.specs.Forms as forms;
ghost use Rattle.script.specs.Verbs.{verbs};
ghost use Rattle.script.specs.Lines.{read_as, read_of, seen};

use crate::faults::Fault;
use crate::lines::Line;
use crate::lines::places::Places;
use crate::verbs::Verb;

/// The line of these words, and its programs.
pub fn read<'a>(words: &'a [&'a str]) -> Result<(Line, &'a [&'a str]), Fault>
    ensures { seen result ≡ read_of words.now }
{
    let (first, rest) = words.split_first().ok_or(Fault::Shape)?;
    match choose(first, rest) {
        Some(verb) => read_as(verb, rest),
        None => Err(misfit(first)),
    }
}

/// The same where the verb is known: its parts, then its programs, then its suffix.
fn read_as<'a>(verb: Verb, words: &'a [&'a str]) -> Result<(Line, &'a [&'a str]), Fault>
    ensures { seen result ≡ read_as verb words.now }
{
    let parts = verb.parts();
    let body = verb.body(words).ok_or(Fault::Shape)?;
    let (placed, programs) = body.split_at_checked(parts.len()).ok_or(Fault::Shape)?;
    let places = Places::new()
        .fill(parts, placed)?
        .end(verb.suffix(), words)?;
    Ok((places.line(verb), programs))
}

/// Whether a line of this first word can be this verb's.
fn begins(word: &str, rest: &[&str], verb: Verb) -> bool
    ensures { result ≡ forms.begins word.now rest.now verb }
{
    word == verb.text() && verb.suits(rest)
}

/// The first verb of this word that the others suit.
fn choose(word: &str, rest: &[&str]) -> Option<Verb>
    ensures { result ≡ first_suiting word.now rest.now verbs }
{
    Verb::ALL
        .iter()
        .copied()
        .find(|verb| begins(word, rest, *verb))
}

/// Why no verb suits a line that begins with this word.
fn misfit(word: &str) -> Fault
    ensures { result ≡ misfit_of word.now verbs }
{
    if Verb::ALL.iter().any(|verb| word == verb.text()) {
        Fault::Shape
    } else {
        Fault::Unknown
    }
}

#[cfg(test)]
mod tests {
    use super::*;
    use crate::labels::Label;

    #[test]
    fn programs_stand_between_parts_and_suffix(rt: HostRuntime) -> Result<(), Fault> {
        let words = ["keep", "0", "d", "for", "first", "p", "as", "t"];
        let (line, programs) = read(&words)?;
        let word = "d".parse::<Label>()?;
        let name = "t".parse::<Label>()?;
        assert_eq!(rt;
            line,
            Line::Keep {
                machine: 0,
                word,
                name
            }
        );
        assert_eq!(rt; programs, &words[4..6]);
        Ok(())
    }

    #[test]
    fn a_suffix_chooses_the_form(rt: HostRuntime) -> Result<(), Fault> {
        let (line, _) = read(&["file", "p", "then", "q"])?;
        let name = "p".parse::<Label>()?;
        let then = Some("q".parse::<Label>()?);
        assert_eq!(rt; line, Line::File { name, then });
        let (line, _) = read(&["file", "p"])?;
        assert_eq!(rt; line, Line::File { name, then: None });
        Ok(())
    }

    #[test]
    fn a_bad_line_is_refused(rt: HostRuntime) {
        assert!(rt; matches!(read(&[]), Err(Fault::Shape)));
        assert!(rt; matches!(read(&["jump", "0"]), Err(Fault::Unknown)));
        assert!(rt; matches!(read(&["start", "0"]), Err(Fault::Shape)));
        assert!(rt; matches!(read(&["sign", "0", "n1", "s"]), Err(Fault::Shape)));
        assert!(rt; matches!(read(&["fleet", "1", "256", "b"]), Err(Fault::NoNumber)));
        assert!(rt;
            matches!(
                read(&["file", "a-name-of-seventeen-bytes"]),
                Err(Fault::TooLong)
            )
        );
    }
}
