//! Bytes and numbers at a place of a word, high byte first. A word that ends before they do has zeros there.

ghost use Rattle.std.specs.Prelude.{◌≡◌, ◌^◌, ◌<◌, ℕ, length, is_some};
ghost use Rattle.std.proofs.Common.{lit<};
ghost use Rattle.std.specs.Int.Digits.{number_from_digits};
ghost use Rattle.wire.specs.Fields.{number_in, part_in, read_eight, written_eight};
ghost use Rattle.wire.specs.Layouts.{big};

/// A number that stands in `N` bytes, high byte first.
pub trait BigEndian<const N: usize>: Sized {
    /// Which number it is.
    ghost value: { Self → ℕ };

    fn from_bytes(bytes: &[u8; N]) -> Self
        ensures { value result ≡ number_from_digits 256 bytes.now };

    fn to_bytes(self) -> [u8; N]
        ensures { result ≡ big N (value self) };

    /// An array may have so many bytes.
    ghost few: { N < 2 ^ 63 };
}

impl BigEndian<1> for u8 {
    ghost value = { λ n. n };

    ghost few = { lit< tt };

    fn from_bytes(bytes: &[u8; 1]) -> u8 {
        u8::from_be_bytes(*bytes)
    }

    fn to_bytes(self) -> [u8; 1] {
        self.to_be_bytes()
    }
}

impl BigEndian<2> for u16 {
    ghost value = { λ n. n };

    ghost few = { lit< tt };

    fn from_bytes(bytes: &[u8; 2]) -> u16 {
        u16::from_be_bytes(*bytes)
    }

    fn to_bytes(self) -> [u8; 2] {
        self.to_be_bytes()
    }
}

impl BigEndian<4> for u32 {
    ghost value = { λ n. n };

    ghost few = { lit< tt };

    fn from_bytes(bytes: &[u8; 4]) -> u32 {
        u32::from_be_bytes(*bytes)
    }

    fn to_bytes(self) -> [u8; 4] {
        self.to_be_bytes()
    }
}

impl BigEndian<8> for u64 {
    ghost value = { λ n. n };

    ghost few = { lit< tt };

    fn from_bytes(bytes: &[u8; 8]) -> u64 {
        u64::from_be_bytes(*bytes)
    }

    fn to_bytes(self) -> [u8; 8] {
        self.to_be_bytes()
    }
}

/// The `N` bytes that begin at this place.
pub fn bytes_at<const N: usize>(word: &[u8], at: usize) -> [u8; N]
    ensures { result ≡ part_in N at word.now }
{
    let rest = word.get(at..).unwrap_or(&[]);
    rest.first_chunk().copied().unwrap_or([0; N])
}

/// The number that begins at this place.
pub fn number_at<const N: usize, T: BigEndian<N>>(word: &[u8], at: usize) -> T
    ensures { T.value result ≡ number_in at N word.now }
{
    T::from_bytes(&bytes_at(word, at))
}

/// The counter or number that a slice of eight bytes holds.
pub fn read_u64(bytes: &[u8]) -> Option<u64>
    ensures { result ≡ read_eight bytes.now }
{
    let bytes: &[u8; 8] = bytes.try_into().ok()?;
    Some(u64::from_bytes(bytes))
}

/// Writes a counter or number into a slice of eight bytes; one of another length stays as it is.
pub fn write_u64(out: &mut [u8], number: u64) -> Option<()>
    ensures { (is_some result, out.new) ≡ written_eight number out.old }
{
    let bytes = out.as_mut_array()?;
    *bytes = number.to_bytes();
    Some(())
}
