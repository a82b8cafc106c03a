//! What the names of a script stand for: a program's name for its bytes and its digest.

ghost use Rattle.std.specs.Prelude.{◌≡◌, map, IfOk};
ghost use Rattle.scenes.specs.Names.{wide, digest_of, data_of, name_of, first_of, no_target};

use boot::disks::Name;
use device::digests::{Data, Digest};
use script::labels::Label;
use std::alloc::{AllocError, Global};

/// The first program.
pub fn first() -> Digest
    ensures { result ≡ first_of }
{
    digest(Label {
        bytes: *b"first\0\0\0\0\0\0\0\0\0\0\0",
    })
}

/// What stands in place of a row that no chip opens for.
pub fn nowhere() -> Label
    ensures { result ≡ no_target }
{
    Label {
        bytes: *b"nowhere\0\0\0\0\0\0\0\0\0",
    }
}

// Functions and no `From`, here and below: neither a label nor what is made of it is of this crate.
pub fn digest(label: Label) -> Digest
    ensures { result ≡ digest_of label }
{
    Digest { bytes: wide(label) }
}

pub fn data(label: Label) -> Data
    ensures { result ≡ data_of label }
{
    Data { bytes: wide(label) }
}

pub fn name(label: Label) -> Name
    ensures { result ≡ name_of label }
{
    let bytes = label.bytes;
    Name { bytes }
}

fn wide(label: Label) -> [u8; 32]
    ensures { result ≡ wide label }
{
    let mut bytes = [0; 32];
    bytes[..16].copy_from_slice(&label.bytes);
    bytes
}

/// The digests of these programs.
pub fn digests(heap: Global, labels: &[Label]) -> Result<Vec<Digest>, AllocError>
    ensures { IfOk result (λ v. v.items ≡ map digest_of labels.now) }
{
    labels.iter().map(|label| digest(*label)).collect(heap)
}
