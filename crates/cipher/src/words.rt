//! The words that rounds work on: one 32-bit number, or four side by side, one for each of four blocks.

ghost use Rattle.std.specs.Prelude.{◌≡◌, ℕ, ◌<◌, bit_xor, slice_index};
ghost use Rattle.cipher.specs.Rounds.{plus, rotl};

use std::simd::prelude::*;

/// A word of one or more lanes: `lane k` is the number in lane k. What is done to a word is done to each lane alone.
pub trait Word: Copy {
    ghost lane: { ℕ → Self → ℕ };

    fn plus(self, other: Self) -> Self
        ensures { (k : ℕ) → lane k result ≡ plus (lane k self) (lane k other) };

    fn xor(self, other: Self) -> Self
        ensures { (k : ℕ) → lane k result ≡ bit_xor (lane k self) (lane k other) };

    fn rotl(self, n: u32) -> Self
        requires { (0 < n) × (n < 32) }
        ensures { (k : ℕ) → lane k result ≡ rotl n (lane k self) };
}

impl Word for u32 {
    ghost lane = { λ _ w. w };

    fn plus(self, other: u32) -> u32 {
        self.wrapping_add(other)
    }

    fn xor(self, other: u32) -> u32 {
        self ^ other
    }

    fn rotl(self, n: u32) -> u32 {
        self.rotate_left(n)
    }
}

impl Word for u32x4 {
    ghost lane = { λ k w. slice_index w k };

    fn plus(self, other: u32x4) -> u32x4 {
        self + other
    }

    fn xor(self, other: u32x4) -> u32x4 {
        self ^ other
    }

    fn rotl(self, n: u32) -> u32x4 {
        (self << u32x4::splat(n)) | (self >> u32x4::splat(32 - n))
    }
}
