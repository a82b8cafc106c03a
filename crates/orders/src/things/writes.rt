//! Writing things into lent slices.

ghost use Rattle.std.specs.Prelude.{◌≡◌, ◌∷◌};
ghost use Rattle.wire.specs.Layouts.{Number, encoded};
ghost use Rattle.orders.specs.Things.{after_head, shown_thing};
ghost use Rattle.orders.specs.Writes.{fits_thing, writes};

use crate::things::{MOST_CLOSED, SEAL_SIZE, Thing};
use wire::fields::Field;
use wire::fields::writes::write;
use wire::kinds::THING;

impl<'a> Thing<'a> {
    /// Writes the thing at the slice's beginning and tells how many bytes it has, or writes nothing if it does not fit.
    pub fn write(self, out: &mut [u8]) -> Option<usize>
        ensures { (result, out.new) ≡ writes (fits_thing self.entry) (encoded (shown_thing self.entry)) out.old }
    {
        self.write_headed(&[THING], out)
    }

    /// The same after a byte that tells the kind of the word that holds it.
    pub(crate) fn write_after(self, kind: u8, out: &mut [u8]) -> Option<usize>
        ensures { (result, out.new) ≡ writes (fits_thing self.entry) (encoded (Number 1 kind ∷ shown_thing self.entry)) out.old }
    {
        self.write_headed(&[kind, THING], out)
    }

    // All parts have one lifetime, so that they can lie in one array.
    fn write_headed(&'a self, head: &'a [u8], out: &mut [u8]) -> Option<usize>
        ensures { (result, out.new) ≡ writes (fits_thing self.now) (encoded (after_head head.now self.now.number self.now.sum.bytes self.now.counter self.now.turned.now self.now.seal.now)) out.old }
    {
        if self.turned.len() > MOST_CLOSED || self.seal.len() != SEAL_SIZE {
            return None;
        }
        write(
            &[
                Field::Part(head),
                Field::U64(self.number),
                Field::Part(&self.sum.bytes),
                Field::U64(self.counter),
                Field::U16(self.turned.len() as u16),
                Field::Part(self.turned),
                Field::Part(self.seal),
            ],
            out,
        )
    }
}
