//! The calls of `ram_disk`.
ghost use Rattle.std.specs.Prelude.{◌≡◌, ◌+◌, ◌≤◌, length, vec_len};
ghost use Rattle.ram_disk.specs.DiskFault.{fault_number};

use ram_disk::{Disk, DiskFault, Sector};
use std::alloc::Global;

pub fn new(alloc: Global, sectors: u32) -> Result<Disk, DiskFault>
    requires { (1 ≤ sectors) × (sectors ≤ 4096) }
{
    Disk::new(alloc, sectors)
}

pub fn len(disk: &Disk) -> u32 {
    disk.len()
}

pub fn share(disk: &Disk, alloc: Global, start: u64, count: u32) -> Result<Vec<Sector>, DiskFault> {
    disk.share(alloc, start, count)
}

pub fn patterned(alloc: Global, pattern: &[u8], count: u32) -> Result<Vec<Sector>, DiskFault>
    requires { (1 ≤ length pattern.now) × (length pattern.now ≤ 64) }
{
    ram_disk::patterned(alloc, pattern, count)
}

pub fn install(disk: &mut Disk, start: u64, sectors: Vec<Sector>)
    requires { start + vec_len sectors ≤ length disk.old }
{
    disk.install(start, sectors);
}

pub fn runs(alloc: Global, sectors: &[Sector]) -> Result<Vec<(u8, u64)>, DiskFault> {
    ram_disk::runs(alloc, sectors)
}

pub fn all_runs(disk: &Disk, alloc: Global) -> Result<Vec<(u8, u64)>, DiskFault> {
    disk.all_runs(alloc)
}

pub fn bytes(sector: &Sector) -> &[u8] {
    sector.bytes()
}

/// Returns the number of a refusal.
pub fn disk_fault(fault: DiskFault) -> u8
    ensures { result ≡ fault_number fault }
{
    match fault {
        DiskFault::PastEnd => 1,
        DiskFault::Memory => 2,
    }
}
