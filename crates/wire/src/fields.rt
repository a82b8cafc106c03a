//! Fields of a word.

pub mod writes;

#[derive(Clone, Copy)]
pub enum Field<'a> {
    U8(u8),
    U16(u16),
    U32(u32),
    U64(u64),
    /// Bytes as they are.
    Part(&'a [u8]),
}
