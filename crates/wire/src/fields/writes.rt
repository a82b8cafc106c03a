//! Writing fields into lent slices, high byte first.

ghost use Rattle.std.specs.Prelude.{◌≡◌, ◌≤◌, length, SomeIff};
ghost use Rattle.wire.specs.Fields.{field_of, fields_of, written};
ghost use Rattle.wire.specs.Layouts.{bytes_of, encoded};

use crate::fields::Field;
use crate::numbers::BigEndian;

impl Field<'_> {
    /// How many bytes the field has.
    #[tactic(auto, using(crate::proofs::Bigs::length_big))]
    fn size(self) -> usize
        ensures { result ≡ length (bytes_of (field_of self.entry)) }
    {
        match self {
            Field::U8(_) => 1,
            Field::U16(_) => 2,
            Field::U32(_) => 4,
            Field::U64(_) => 8,
            Field::Part(bytes) => bytes.len(),
        }
    }

    /// Lays the field's bytes over a slice of their length.
    fn put(self, out: &mut [u8])
        requires { length out.old ≡ length (bytes_of (field_of self)) }
        ensures { out.new ≡ bytes_of (field_of self.entry) }
    {
        match self {
            Field::U8(n) => out.copy_from_slice(&n.to_bytes()),
            Field::U16(n) => out.copy_from_slice(&n.to_bytes()),
            Field::U32(n) => out.copy_from_slice(&n.to_bytes()),
            Field::U64(n) => out.copy_from_slice(&n.to_bytes()),
            Field::Part(bytes) => out.copy_from_slice(bytes),
        }
    }
}

/// How many bytes the fields have, unless there are more than so many.
fn total(fields: &[Field<'_>], limit: usize) -> Option<usize>
    ensures { SomeIff result (length (encoded (fields_of fields.now)) ≤ limit) (length (encoded (fields_of fields.now))) }
{
    // The limit is held at each field and not at the end, so that nothing past the first field without room is read.
    fields.iter().try_fold(0usize, |total, field| {
        total
            .checked_add(field.size())
            .filter(|total| *total <= limit)
    })
}

/// Writes the fields at the slice's beginning and tells how many bytes they have, or writes nothing if they do not fit.
pub fn write(fields: &[Field<'_>], out: &mut [u8]) -> Option<usize>
    ensures { (result, out.new) ≡ written (encoded (fields_of fields.now)) out.old }
{
    let size = total(fields, out.len())?;
    // Where the next field begins: they differ in size, so that no `chunks` gives their places.
    let mut at = 0;
    for field in fields {
        let end = at + field.size();
        field.put(&mut out[at..end]);
        at = end;
    }
    Some(size)
}
