//! The vectors of HMAC-SHA-256 (RFC 4231, section 4; RFC 6234, section 8.5, has the same).

ghost use Rattle.std.specs.Prelude.{◌≤◌, take};

use crate::rows::{Case, Report};
use hash::keys::hmac;
use std::alloc::Global;
use std::convert::AsSlice;

#[derive(Clone, Copy)]
struct Keyed {
    key: &'static [u8],
    message: &'static [u8],
    // how many bytes of the code the document has
    length: usize,
}

const CASES: [Case<Keyed>; 7] = [
    Case {
        name: "HMAC-SHA-256 1",
        input: Keyed {
            key: &[0x0b; 20],
            message: b"Hi There",
            length: 32,
        },
        expected: b"\xb0\x34\x4c\x61\xd8\xdb\x38\x53\x5c\xa8\xaf\xce\xaf\x0b\xf1\x2b\x88\x1d\xc2\x00\xc9\x83\x3d\xa7\x26\xe9\x37\x6c\x2e\x32\xcf\xf7",
    },
    Case {
        name: "HMAC-SHA-256 2",
        input: Keyed {
            key: b"Jefe",
            message: b"what do ya want for nothing?",
            length: 32,
        },
        expected: b"\x5b\xdc\xc1\x46\xbf\x60\x75\x4e\x6a\x04\x24\x26\x08\x95\x75\xc7\x5a\x00\x3f\x08\x9d\x27\x39\x83\x9d\xec\x58\xb9\x64\xec\x38\x43",
    },
    Case {
        name: "HMAC-SHA-256 3",
        input: Keyed {
            key: &[0xaa; 20],
            message: &[0xdd; 50],
            length: 32,
        },
        expected: b"\x77\x3e\xa9\x1e\x36\x80\x0e\x46\x85\x4d\xb8\xeb\xd0\x91\x81\xa7\x29\x59\x09\x8b\x3e\xf8\xc1\x22\xd9\x63\x55\x14\xce\xd5\x65\xfe",
    },
    Case {
        name: "HMAC-SHA-256 4",
        input: Keyed {
            key: b"\x01\x02\x03\x04\x05\x06\x07\x08\x09\x0a\x0b\x0c\x0d\x0e\x0f\x10\x11\x12\x13\x14\x15\x16\x17\x18\x19",
            message: &[0xcd; 50],
            length: 32,
        },
        expected: b"\x82\x55\x8a\x38\x9a\x44\x3c\x0e\xa4\xcc\x81\x98\x99\xf2\x08\x3a\x85\xf0\xfa\xa3\xe5\x78\xf8\x07\x7a\x2e\x3f\xf4\x67\x29\x66\x5b",
    },
    Case {
        name: "HMAC-SHA-256 5, cut to 128 bits",
        input: Keyed {
            key: &[0x0c; 20],
            message: b"Test With Truncation",
            length: 16,
        },
        expected: b"\xa3\xb6\x16\x74\x73\x10\x0e\xe0\x6e\x0c\x79\x6c\x29\x55\x55\x2b",
    },
    Case {
        name: "HMAC-SHA-256 6",
        input: Keyed {
            key: &[0xaa; 131],
            message: b"Test Using Larger Than Block-Size Key - Hash Key First",
            length: 32,
        },
        expected: b"\x60\xe4\x31\x59\x1e\xe0\xb6\x7f\x0d\x8a\x26\xaa\xcb\xf5\xb7\x7f\x8e\x0b\xc6\x21\x37\x28\xc5\x14\x05\x46\x04\x0f\x0e\xe3\x7f\x54",
    },
    Case {
        name: "HMAC-SHA-256 7",
        input: Keyed {
            key: &[0xaa; 131],
            message: b"\
                This is a test using a larger than block-size key and a larger than block-size data. \
                The key needs to be hashed before being used by the HMAC algorithm.",
            length: 32,
        },
        expected: b"\x9b\x09\xff\xa7\x1b\x94\x2f\xcb\x27\x63\x5f\xbc\xd5\xb0\xe9\x44\xbf\xdc\x63\x64\x4f\x07\x13\x93\x8a\x7f\x51\x53\x5c\x3a\x35\xe2",
    },
];

/// A code as far as the document has it: its first bytes, so many.
#[derive(Clone, Copy)]
struct Cut {
    code: [u8; 32],
    length: usize,
}

impl AsSlice<u8> for Cut {
    ghost items = { λ c. take c.length c.code };

    fn as_slice(&self) -> &[u8] {
        &self.code[..self.length.min(32)]
    }
}

pub fn run(report: &mut Report<'_>) -> anyhow::Result<()>
    ensures { report.old.tally.differing ≤ report.new.tally.differing }
{
    report.run(&CASES, |input: &Keyed, _: Global| {
        Ok(Cut {
            code: hmac(input.key, input.message),
            length: input.length,
        })
    })
}
