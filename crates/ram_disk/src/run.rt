//! The maximal runs of equal bytes.
ghost use Rattle.std.specs.Prelude.{◌≡◌, ◌+◌, ◌*◌, ◌^◌, ◌<◌, ◌≤◌, List, ℕ, ◌++◌, IfOk, IsOkUnless, OnErr, OnOk, length, replicate, vec_capacity, vec_len};
ghost use Rattle.ram_disk.specs.Sector.{IsSector, bytes_of};
ghost use Rattle.ram_disk.specs.Runs.{IsRuns, bytes_of_runs};

use crate::sector::SECTOR_BYTES;
use crate::{DiskFault, Sector};
use std::alloc::Global;

// A byte, and how often it is repeated.
type Run = (u8, u64);

// The length of a run of this many sectors fits in 64 bits. No memory holds as many owners of sectors.
const MOST_SECTORS: usize = usize::MAX / SECTOR_BYTES;

/// Returns the maximal runs of equal bytes of these sectors, laid end to end: each byte, and how often it is repeated. There is
/// exactly one such list (`one_list_of_runs`). Returns `Memory` if memory is refused.
pub fn runs(alloc: Global, sectors: &[Sector]) -> Result<Vec<(u8, u64)>, DiskFault>
    ensures runs { IfOk result (λ runs. IsRuns runs.items (bytes_of sectors.now)) }
    ensures only_memory { IsOkUnless result DiskFault.Memory }
{
    if sectors.len() > MOST_SECTORS {
        return Err(DiskFault::Memory);
    }
    let mut runs: Vec<Run> = Vec::new(alloc);
    for sector in sectors {
        add_sector(&mut runs, sector)?;
    }
    Ok(runs)
}

/// There is one list of maximal runs: two lists that fit the same bytes are equal.
pub fn one_list_of_runs()
    ensures { (bytes : List ℕ) (first second : List (ℕ × ℕ)) → IsRuns first bytes
        → IsRuns second bytes → first ≡ second }
{}

/// Adds the runs of one more sector to maximal runs: the last run gets longer if the sector begins with its byte. A caller that has
/// no room for all runs of a long range can take them sector by sector, since a sector that is added later changes only the length
/// of the last run. Returns `Memory` if memory is refused; then the runs are unchanged.
pub fn add_sector(runs: &mut Vec<(u8, u64)>, sector: &Sector) -> Result<(), DiskFault>
    requires maximal { IsRuns runs.old.items (bytes_of_runs runs.old.items) }
    requires room { length (bytes_of_runs runs.old.items) + SECTOR_BYTES < 2 ^ 64 }
    ensures ok { OnOk result
        (IsRuns runs.new.items (bytes_of_runs runs.old.items ++ sector.now)) }
    ensures err { OnErr result (runs.new.items ≡ runs.old.items) }
    ensures sector { IsSector sector.now }
    ensures only_memory { IsOkUnless result DiskFault.Memory }
{
    match sector.only_byte() {
        Some(byte) => add_run(runs, byte, SECTOR_BYTES as u64),
        None => add_bytes(runs, sector.bytes()),
    }
}

// Adds one byte, repeated: the last run gets longer if it has that byte, and otherwise a new run begins.
fn add_run(runs: &mut Vec<Run>, byte: u8, count: u64) -> Result<(), DiskFault>
    requires maximal { IsRuns runs.old.items (bytes_of_runs runs.old.items) }
    requires some { 0 < count }
    requires room { length (bytes_of_runs runs.old.items) + count < 2 ^ 64 }
    ensures ok { OnOk result
        (IsRuns runs.new.items (bytes_of_runs runs.old.items ++ replicate count byte)) }
    ensures err { OnErr result (runs.new.items ≡ runs.old.items) }
    ensures at_most_one_more { vec_len runs.new ≤ vec_len runs.old + 1 }
    ensures capacity { vec_capacity runs.old ≤ vec_capacity runs.new }
    ensures not_empty { OnOk result (0 < vec_len runs.new) }
    ensures only_memory { IsOkUnless result DiskFault.Memory }
{
    if let Some(last) = runs.last_mut() {
        if last.0 == byte {
            last.1 += count;
            return Ok(());
        }
    }
    runs.push((byte, count))?;
    Ok(())
}

// Adds the runs of these bytes. Memory for the worst case is allocated first, so that the loop can't fail.
fn add_bytes(runs: &mut Vec<Run>, bytes: &[u8]) -> Result<(), DiskFault>
    requires maximal { IsRuns runs.old.items (bytes_of_runs runs.old.items) }
    requires room { length (bytes_of_runs runs.old.items) + length bytes.now < 2 ^ 64 }
    ensures ok { OnOk result
        (IsRuns runs.new.items (bytes_of_runs runs.old.items ++ bytes.now)) }
    ensures err { OnErr result (runs.new.items ≡ runs.old.items) }
    ensures only_memory { IsOkUnless result DiskFault.Memory }
{
    let Some((first, rest)) = bytes.split_first() else {
        return Ok(());
    };
    runs.reserve(bytes.len())?;
    add_run(runs, *first, 1)?;
    let (mut byte, mut count) = runs.pop().unwrap();
    for next in rest {
        if *next != byte {
            runs.push_reserved((byte, count));
            byte = *next;
            count = 0;
        }
        count += 1;
    }
    runs.push_reserved((byte, count));
    Ok(())
}
