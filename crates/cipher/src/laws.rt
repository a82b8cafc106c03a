//! Theorems about the definitions, each the contract of a function that does nothing.

ghost use Rattle.cipher.specs.Laws.{Every};
ghost use Rattle.cipher.specs.Vectors.{Vectors};

/// Blocks have 64 bytes; turning keeps the length, is undone by turning again, and may be done in parts.
pub fn laws_hold()
    ensures { Every }
{}

/// The definitions give the published vectors.
pub fn vectors_hold()
    ensures { Vectors }
{}
