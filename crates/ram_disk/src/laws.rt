//! Properties of reads and writes, apart from the code. Each function does nothing; its contract is the law.
ghost use Rattle.std.specs.Prelude.{◌≡◌};
ghost use Rattle.ram_disk.specs.Writes.{WritesItsSectors, KeepsOtherSectors, DisjointWritesCommute, ReadsBesideWritesStay};

use crate::disk::MAX_SECTORS;
use crate::pattern::MAX_PATTERN;
use crate::sector::SECTOR_BYTES;

/// The sizes of disks, sectors and patterns as numbers; the other clauses use their names.
pub fn sizes_in_numbers()
    ensures disk { MAX_SECTORS ≡ 4096 }
    ensures sector { SECTOR_BYTES ≡ 512 }
    ensures pattern { MAX_PATTERN ≡ 64 }
{}

/// After a write the sectors in its range are the new ones, and every other is as it was.
pub fn sectors_after_a_write()
    ensures own { WritesItsSectors }
    ensures others { KeepsOtherSectors }
{}

/// Writes of ranges that share no sector leave the same disk in either order.
pub fn disjoint_writes_commute()
    ensures { DisjointWritesCommute }
{}

/// A read finds the same whether or not a write of other sectors was done before it.
pub fn reads_beside_writes_stay()
    ensures { ReadsBesideWritesStay }
{}
