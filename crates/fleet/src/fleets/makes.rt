//! Making a fleet.

ghost use Rattle.std.specs.Prelude.{IfOk};
ghost use Rattle.fleet.specs.Makes.{Begins};

use crate::fleets::{Fleet, Outside};
use boot::disks::Disk;
use boot::machines::Machine;
use device::digests::Digest;
use std::alloc::{AllocError, Global};
use verifier::judges::Judge;

impl Fleet {
    /// So many machines and judges, to which nothing happened yet.
    pub fn new(
        heap: Global,
        first: Digest,
        bad: &[Digest],
        machines: u32,
        judges: u32,
    ) -> Result<Fleet, AllocError>
        ensures { IfOk result (λ f. Begins first bad.now machines judges f) }
    {
        let bad = Vec::from_slice(heap, bad)?;
        let machines = (0..machines).map(Machine::new).collect(heap)?;
        let judges = (0..judges).map(|_| Judge::new(heap, first)).collect(heap)?;
        let outside = Outside {
            first,
            bad,
            disk: Disk::new(heap),
            heard: Vec::new(heap),
            shown: Vec::new(heap),
        };
        Ok(Fleet {
            machines,
            judges,
            outside,
        })
    }
}
