//! Numbers in a script.

ghost use Rattle.std.specs.Prelude.{◌≡◌, ◌≤◌, IfSome, IfOk};
ghost use Rattle.script.specs.Numbers.{next_of, number_of};

use crate::faults::Fault;

/// The number that the word writes in decimal digits, if it is at most the limit.
pub fn number(word: &str, limit: u32) -> Result<u32, Fault>
    ensures exact { result ≡ number_of limit word.now }
    ensures within { IfOk result (λ n. n ≤ limit) }
{
    if word.is_empty() {
        return Err(Fault::NoNumber);
    }
    word.bytes()
        .try_fold(0, |n, digit| next(n, digit, limit))
        .ok_or(Fault::NoNumber)
}

/// The number with one digit more.
fn next(n: u32, digit: u8, limit: u32) -> Option<u32>
    ensures exact { result ≡ next_of limit n digit }
    ensures within { IfSome result (λ m. m ≤ limit) }
{
    if !digit.is_ascii_digit() {
        return None;
    }
    let more = n.checked_mul(10)?.checked_add(u32::from(digit - b'0'))?;
    if more <= limit { Some(more) } else { None }
}
