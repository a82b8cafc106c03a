//! Words of a script, and the bytes that they stand for.

use crate::scripts::Fault;
use boot::disks::Name;
use device::digests::{Data, Digest};
use std::fmt;
use std::str::{FromStr, from_utf8};

/// A word of at most sixteen bytes, padded with zeros.
#[derive(Clone, Copy, PartialEq)]
pub struct Label {
    bytes: [u8; 16],
}

impl FromStr for Label {
    type Err = Fault;

    fn from_str(word: &str) -> Result<Label, Fault> {
        let text = word.as_bytes();
        let n = text.len();
        if n > 16 {
            return Err(Fault::TooLong);
        }
        let mut bytes = [0; 16];
        bytes[..n].copy_from_slice(text);
        Ok(Label { bytes })
    }
}

impl Label {
    pub fn name(self) -> Name {
        let bytes = self.bytes;
        Name { bytes }
    }

    pub fn digest(self) -> Digest {
        let bytes = self.wide();
        Digest { bytes }
    }

    pub fn data(self) -> Data {
        let bytes = self.wide();
        Data { bytes }
    }

    fn wide(self) -> [u8; 32] {
        let mut bytes = [0; 32];
        bytes[..16].copy_from_slice(&self.bytes);
        bytes
    }
}

/// Bytes as a script writes them, without the padding.
#[derive(Clone, Copy)]
pub struct Plain(pub [u8; 32]);

impl fmt::Display for Plain {
    fn fmt<W: fmt::Write>(&self, f: &mut fmt::Formatter<W>) -> fmt::Result {
        match from_utf8(unpadded(&self.0)) {
            Ok(word) => write!(f, "{word}"),
            Err(_) => write!(f, "?"),
        }
    }
}

/// Up to the first zero.
fn unpadded(bytes: &[u8]) -> &[u8] {
    match bytes.iter().position(|byte| *byte == 0) {
        Some(n) if n < bytes.len() => &bytes[..n],
        _ => bytes,
    }
}
