//! The rounds, on words of one lane or of several: the contracts say of every lane that it goes as a state of its own.

ghost use Rattle.std.specs.Prelude.{◌≡◌, ℕ, ◌<◌, map, slice_index};
ghost use Rattle.std.specs.Simd.Lanes.{zip2};
ghost use Rattle.cipher.specs.Rounds.{quarter, quarter_at_of, columns, diagonals, mixed, each4, plus};

use crate::words::Word;
use std::array;

fn quarter<W: Word>(a: W, b: W, c: W, d: W) -> (W, W, W, W)
    ensures { (k : ℕ) → each4 (W.Word.lane k) result ≡ quarter (W.Word.lane k a) (W.Word.lane k b) (W.Word.lane k c) (W.Word.lane k d) }
{
    let a1 = a.plus(b);
    let d1 = d.xor(a1).rotl(16);
    let c1 = c.plus(d1);
    let b1 = b.xor(c1).rotl(12);
    let a2 = a1.plus(b1);
    let d2 = d1.xor(a2).rotl(8);
    let c2 = c1.plus(d2);
    let b2 = b1.xor(c2).rotl(7);
    (a2, b2, c2, d2)
}

// The quarter round on the words at a, b, c and d of a state.
fn quarter_at<W: Word>(s: &mut [W; 16], a: usize, b: usize, c: usize, d: usize)
    requires { (a < 16) × ((b < 16) × ((c < 16) × (d < 16))) }
    ensures { (k : ℕ) → map (W.Word.lane k) s.new ≡ quarter_at_of a b c d (map (W.Word.lane k) s.old) }
{
    (s[a], s[b], s[c], s[d]) = quarter(s[a], s[b], s[c], s[d]);
}

// The columns, and then the diagonals.
fn double_round<W: Word>(s: &mut [W; 16])
    ensures { (k : ℕ) → map (W.Word.lane k) s.new ≡ diagonals (columns (map (W.Word.lane k) s.old)) }
{
    quarter_at(s, 0, 4, 8, 12);
    quarter_at(s, 1, 5, 9, 13);
    quarter_at(s, 2, 6, 10, 14);
    quarter_at(s, 3, 7, 11, 15);
    quarter_at(s, 0, 5, 10, 15);
    quarter_at(s, 1, 6, 11, 12);
    quarter_at(s, 2, 7, 8, 13);
    quarter_at(s, 3, 4, 9, 14);
}

fn added<W: Word>(t: [W; 16], s: [W; 16]) -> [W; 16]
    ensures { (k : ℕ) → map (W.Word.lane k) result ≡ zip2 plus (map (W.Word.lane k) t) (map (W.Word.lane k) s) }
{
    array::from_fn(
        |i: usize| -> W
            requires { i < 16 }
            ensures { (k : ℕ) → W.Word.lane k result ≡ plus (slice_index (map (W.Word.lane k) t) i) (slice_index (map (W.Word.lane k) s) i) }
        { t[i].plus(s[i]) },
    )
}

/// The words of a block for each lane of the state.
pub fn mixed<W: Word>(s: [W; 16]) -> [W; 16]
    ensures { (k : ℕ) → map (W.Word.lane k) result ≡ mixed (map (W.Word.lane k) s) }
{
    let mut t = s;
    for _ in 0..10u32 {
        double_round(&mut t);
    }
    added(t, s)
}
