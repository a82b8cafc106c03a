//! Four states side by side, a word of each in one vector, and apart again.

ghost use Rattle.std.specs.Prelude.{◌≡◌, ◌<◌, [], ◌∷◌, slice_index, slice_index_or};
ghost use Rattle.cipher.specs.Rounds.{lane};

use std::array;
use std::simd::prelude::*;

/// Word i of all four states in vector i.
pub fn beside(a: [u32; 16], b: [u32; 16], c: [u32; 16], d: [u32; 16]) -> [u32x4; 16]
    ensures { (a ≡ lane 0 result) × (b ≡ lane 1 result) × (c ≡ lane 2 result) × (d ≡ lane 3 result) }
{
    array::from_fn(
        |i: usize| -> u32x4
            requires { i < 16 }
            ensures { result ≡ slice_index a i ∷ slice_index b i ∷ slice_index c i ∷ slice_index d i ∷ [] }
        { u32x4::from_array([a[i], b[i], c[i], d[i]]) },
    )
}

fn lane(s: &[u32x4; 16], k: usize) -> [u32; 16]
    requires { k < 4 }
    ensures { result ≡ lane k s.now }
{
    array::from_fn(
        |i: usize| -> u32
            requires { (i < 16) × (k < 4) }
            ensures { result ≡ slice_index (slice_index_or s.entry.now i []) k }
        { s[i].to_array()[k] },
    )
}

/// The four states again.
pub fn apart(s: [u32x4; 16]) -> [[u32; 16]; 4]
    ensures { result ≡ lane 0 s ∷ lane 1 s ∷ lane 2 s ∷ lane 3 s ∷ [] }
{
    [lane(&s, 0), lane(&s, 1), lane(&s, 2), lane(&s, 3)]
}
