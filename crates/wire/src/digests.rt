//! Strings of thirty-two bytes. They differ in nothing but their names, which keep a digest from being taken for a key:
//! with one generic struct each name would stay, as its parameter.

/// How many bytes each of them has.
pub const SIZE: usize = 32;

/// The digest of a program.
#[derive(Clone, Copy, Debug, PartialEq, Eq)]
pub struct Digest {
    pub bytes: [u8; SIZE],
}

/// The one sum that stands for a row of programs.
#[derive(Clone, Copy, Debug, PartialEq, Eq)]
pub struct Sum {
    pub bytes: [u8; SIZE],
}

/// What a chip is given to sign.
#[derive(Clone, Copy, Debug, PartialEq, Eq)]
pub struct Data {
    pub bytes: [u8; SIZE],
}

/// What a chip signed. It has no `==`, which stops at the first byte that differs and so tells by its time how many fit.
#[derive(Clone, Copy, Debug)]
pub struct Sign {
    pub bytes: [u8; SIZE],
}

/// What a judge drew for a question.
#[derive(Clone, Copy, Debug, PartialEq, Eq)]
pub struct Drawn {
    pub bytes: [u8; SIZE],
}

/// A chip's signing key. It has no `==` either, and is not printed.
#[derive(Clone, Copy)]
pub struct Key {
    pub bytes: [u8; SIZE],
}
