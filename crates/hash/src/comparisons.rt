//! Whether two strings of bytes are equal, by as many steps wherever they differ.

ghost use Rattle.std.specs.Prelude.{◌≡◌, Decides};

/// Looks at every byte: where they differ first does not show in the steps taken. Their lengths do.
pub fn equal(a: &[u8], b: &[u8]) -> bool
    ensures { Decides result (a.now ≡ b.now) }
{
    if a.len() != b.len() {
        return false;
    }
    let mut differ = 0;
    for (x, y) in a.iter().zip(b) {
        differ |= x ^ y;
    }
    differ == 0
}
