//! Names in a script.

ghost use Rattle.std.specs.Prelude.{◌≡◌, [], if◌then◌else◌, Err};
ghost use Rattle.script.specs.Labels.{no_label, label_of, labels_of, listed, met};
ghost use Rattle.script.specs.declared.faults.Fault.TheVariants.{NoMemory};

use crate::faults::Fault;
use std::alloc::Global;
use std::str::FromStr;

/// A word of at most sixteen bytes, padded with zeros.
// Fixed memory, as names on a disk have it: a name is copied into them, and needs no heap.
#[derive(Clone, Copy, Debug, PartialEq, Eq)]
pub struct Label {
    pub bytes: [u8; 16],
}

impl Default for Label {
    ghost is_default = { λ label. label ≡ no_label };

    fn default() -> Label {
        Label { bytes: [0; 16] }
    }
}

impl FromStr for Label {
    type Err = Fault;

    ghost from_str_gives = { λ word result. result ≡ label_of word };

    fn from_str(word: &str) -> Result<Label, Fault> {
        let text = word.as_bytes();
        let n = text.len();
        if n > 16 {
            return Err(Fault::TooLong);
        }
        let mut bytes = [0; 16];
        bytes[..n].copy_from_slice(text);
        Ok(Label { bytes })
    }
}

/// These words as names.
pub fn labels(heap: Global, words: &[&str]) -> Result<Vec<Label>, Fault>
    ensures { listed result ≡ (if met result then labels_of [] words.now else Err NoMemory) }
{
    let mut labels = Vec::new(heap);
    for word in words {
        labels.push(word.parse()?)?;
    }
    Ok(labels)
}

#[cfg(test)]
mod tests {
    use super::*;

    #[test]
    fn words_become_names(rt: HostRuntime) -> Result<(), Fault> {
        let names = labels(rt.alloc(), &["p", "name-of-16-bytes"])?;
        assert_eq!(rt; names.len(), 2);
        assert_eq!(rt; names[0], "p".parse()?);
        assert_eq!(rt; &names[1].bytes, b"name-of-16-bytes");
        Ok(())
    }

    #[test]
    fn a_long_word_is_no_name(rt: HostRuntime) {
        let word = "a-name-of-seventeen-bytes".parse::<Label>();
        assert_eq!(rt; word, Err(Fault::TooLong));
    }
}
