//! The functions on words that SHA-256 is made of.

ghost use Rattle.std.specs.Prelude.{◌≡◌};
ghost use Rattle.hash.specs.Words.{big_sigma, ch, IsRotation, maj, small_sigma};

// The bits of y where x has a one, and those of z elsewhere. This form takes one operation fewer than the standard's.
pub fn choose(x: u32, y: u32, z: u32) -> u32
    ensures { result ≡ ch x y z }
{
    z ^ (x & (y ^ z))
}

// The bits that two or three of x, y and z have. The exclusive or of x and y serves the next round as that of y and z.
pub fn majority(x: u32, y: u32, z: u32) -> u32
    ensures { result ≡ maj x y z }
{
    ((x ^ y) & (y ^ z)) ^ y
}

// The exclusive or of x rotated by A, by B and by C bits.
pub fn big_sigma<const A: u32, const B: u32, const C: u32>(x: u32) -> u32
    requires { IsRotation A × IsRotation B × IsRotation C }
    ensures { result ≡ big_sigma A B C x }
{
    x.rotate_right(A) ^ x.rotate_right(B) ^ x.rotate_right(C)
}

// The exclusive or of x rotated by A and by B bits, and shifted by C.
pub fn small_sigma<const A: u32, const B: u32, const C: u32>(x: u32) -> u32
    requires { IsRotation A × IsRotation B × IsRotation C }
    ensures { result ≡ small_sigma A B C x }
{
    x.rotate_right(A) ^ x.rotate_right(B) ^ (x >> C)
}
