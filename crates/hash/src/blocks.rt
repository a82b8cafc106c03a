//! The compression function: one block of 64 bytes taken into the hash value.

ghost use Rattle.std.specs.Prelude.{◌≡◌, ℕ, ◌<◌, fold, slice_index};
ghost use Rattle.hash.specs.Sha256.{compressed, round, schedule};
ghost use Rattle.hash.specs.Words.{plus, ssig0, ssig1};

use crate::constants::K;
use crate::words::{big_sigma, choose, majority, small_sigma};
use std::array;

// One round. Its constant and its word come as their sum.
fn step(s: [u32; 8], x: u32) -> [u32; 8]
    ensures { (k w : ℕ) → x ≡ plus k w → result ≡ round s k w }
{
    let [a, b, c, d, e, f, g, h] = s;
    let t1 = h
        .wrapping_add(x)
        .wrapping_add(choose(e, f, g))
        .wrapping_add(big_sigma::<6, 11, 25>(e));
    let t2 = big_sigma::<2, 13, 22>(a).wrapping_add(majority(a, b, c));
    [t1.wrapping_add(t2), a, b, c, d.wrapping_add(t1), e, f, g]
}

// The first sixteen words of the schedule.
fn load(block: &[u8; 64]) -> [u32; 16]
    ensures { result ≡ schedule block.now 16 }
{
    let (words, _) = block.as_chunks::<4>();
    array::from_fn(|t| u32::from_be_bytes(words[t]))
}

// The word of the schedule that comes sixteen after the word w0.
fn extend(w0: u32, w1: u32, w9: u32, w14: u32) -> u32
    ensures { result ≡ plus (plus (plus (ssig1 w14) w9) (ssig0 w1)) w0 }
{
    small_sigma::<17, 19, 10>(w14)
        .wrapping_add(w9)
        .wrapping_add(small_sigma::<7, 18, 3>(w1))
        .wrapping_add(w0)
}

// The sums of the words of two rows, place by place. `array::from_fn` would say it in a line, but of what its closure gives
// nothing is known to the check where the length is a parameter.
fn add<const N: usize>(a: &[u32; N], b: &[u32; N]) -> [u32; N]
    ensures { (i : ℕ) → i < N → slice_index result i ≡ plus (slice_index a.now i) (slice_index b.now i) }
{
    let mut sums = *a;
    for (i, sum) in sums.iter_mut().enumerate() {
        *sum = sum.wrapping_add(b[i]);
    }
    sums
}

// Of the schedule sixteen words are kept, the word t at t % 16: once the round t has read its word, the word t + 16 takes
// that place. The loops go over eight rounds, since the compiler writes a loop of eight out in full and one of sixteen
// not; then every place is a constant, and after eight rounds the eight variables are back where they began. One loop of
// sixteen for the last rounds alone takes a twentieth more time.
// What a step gives has a name of its own: the check has no rule for an array that a call lays in a variable of a loop.
pub fn compress(h: [u32; 8], block: &[u8; 64]) -> [u32; 8]
    ensures { result ≡ compressed h block.now }
{
    let mut w = load(block);
    let mut s = h;
    for k in &K[..3] {
        let x = add(k, &w);
        for j in 0..8 {
            let next = step(s, x[j]);
            s = next;
            w[j] = extend(w[j], w[j + 1], w[(j + 9) % 16], w[(j + 14) % 16]);
        }
        for j in 8..16 {
            let next = step(s, x[j]);
            s = next;
            w[j] = extend(w[j], w[(j + 1) % 16], w[(j + 9) % 16], w[(j + 14) % 16]);
        }
    }
    let x = add(&K[3], &w);
    for x in &x[..8] {
        let next = step(s, *x);
        s = next;
    }
    for x in &x[8..] {
        let next = step(s, *x);
        s = next;
    }
    add(&h, &s)
}

/// The blocks taken in one after the other.
pub fn absorb(h: [u32; 8], blocks: &[[u8; 64]]) -> [u32; 8]
    ensures { result ≡ fold compressed h blocks.now }
{
    // `blocks.iter().fold(h, compress)` takes a hundredth more time.
    let mut s = h;
    for block in blocks {
        let next = compress(s, block);
        s = next;
    }
    s
}
