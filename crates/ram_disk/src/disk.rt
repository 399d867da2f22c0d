//! The disk: its sectors by number, read by sharing and written by moving new ones in.
ghost use Rattle.std.specs.Prelude.{◌≡◌, ◌+◌, ◌*◌, ◌<◌, ◌≤◌, ◌↔◌, All, IfOk, IsErrOf, IsOkUnless, OnOk, length, replicate, vec_len};
ghost use Rattle.ram_disk.specs.declared.sector.TheConstants.{SECTOR_BYTES};
ghost use Rattle.ram_disk.specs.Sector.{IsSector, bytes_of, filled_with};
ghost use Rattle.ram_disk.specs.Disk.{IsDisk, sectors_read, sectors_written};
ghost use Rattle.ram_disk.specs.Runs.{IsRuns};
ghost use Rattle.ram_disk.specs.Sectors.{sectors_of};
ghost use Rattle.ram_disk.specs.Writes.{ReadsTheirBytes, WritesTheirBytes};

use crate::sectors::{Sectors, common_byte};
use crate::{DiskFault, Sector, runs};
use std::alloc::Global;
use std::marker::Model;

/// Maximum number of sectors of a disk.
pub const MAX_SECTORS: u32 = 4096;

/// A disk of 1 to 4,096 sectors. In contracts it is the list of its sectors, each a list of 512 bytes.
#[derive(Drop)]
pub struct Disk {
    sectors: Vec<Sector>,
}

impl Model for Disk {
    ghost use Rattle.std.specs.Prelude.{ℕ, List};
    ghost use Rattle.ram_disk.specs.Disk.{IsDisk};

    ghost Value = { List (List ℕ) };

    ghost view = { λ d. d.sectors.items };

    ghost invariant = { λ d. IsDisk d.sectors.items };
}

impl Disk {
    /// Returns a disk of this many sectors of zeros. Returns `Memory` if memory is refused.
    ///
    /// Linux: a new `brd` device reads as zeros, since it has no pages yet (drivers/block/brd.c).
    pub fn new(alloc: Global, sectors: u32) -> Result<Disk, DiskFault>
        requires within { (1 ≤ sectors) × (sectors ≤ MAX_SECTORS) }
        ensures zeros { IfOk result (λ disk. disk ≡ replicate sectors (filled_with 0)) }
        ensures bytes { IfOk result (λ disk. bytes_of disk ≡ replicate (sectors * SECTOR_BYTES) 0) }
        ensures only_memory { IsOkUnless result DiskFault.Memory }
    {
        let sectors = vec![in alloc; Sector::filled(0); sectors as usize]?;
        Ok(Disk { sectors })
    }

    /// Returns the number of sectors, 1 to 4,096.
    pub fn len(&self) -> u32
        ensures value { result ≡ length self.now }
        ensures disk { IsDisk self.now }
    {
        self.sectors.len() as u32
    }

    /// Reads `count` sectors, starting with sector `start`, by sharing them.
    ///
    /// Returns `PastEnd` if the range reaches past the last sector, which is tested first, and `Memory` if there is none for the
    /// list. A range of no sectors that starts at the end doesn't reach past it.
    ///
    /// Linux: a request past the end of the device is an I/O error (`bio_check_eod`, block/blk-core.c).
    pub fn share(&self, alloc: Global, start: u64, count: u32) -> Result<Vec<Sector>, DiskFault>
        ensures past_end { IsErrOf result DiskFault.PastEnd ↔ (length self.now < start + count) }
        ensures within { OnOk result (start + count ≤ length self.now) }
        ensures read { IfOk result (λ sectors. sectors.items ≡ sectors_read start count self.now) }
        ensures count { IfOk result (λ sectors. length sectors.items ≡ count) }
        ensures sectors { IfOk result (λ sectors. All IsSector sectors.items) }
    {
        let len = self.sectors.len() as u64;
        if start > len || u64::from(count) > len - start {
            return Err(DiskFault::PastEnd);
        }
        let start = start as usize;
        let end = start + count as usize;
        Ok(self.sectors[start..end].to_vec(alloc)?)
    }

    /// Reads like [`Disk::share`]. Sectors that were all made of one byte value take no memory.
    pub fn find(&self, alloc: Global, start: u64, count: u32) -> Result<Sectors, DiskFault>
        ensures past_end { IsErrOf result DiskFault.PastEnd ↔ (length self.now < start + count) }
        ensures within { OnOk result (start + count ≤ length self.now) }
        ensures read { IfOk result (λ sectors. sectors_of sectors ≡ sectors_read start count self.now) }
    {
        let len = self.sectors.len() as u64;
        if start > len || u64::from(count) > len - start {
            return Err(DiskFault::PastEnd);
        }
        let start = start as usize;
        let sectors = &self.sectors[start..start + count as usize];
        match common_byte(sectors) {
            Some(byte) => Ok(Sectors::Filled { byte, count }),
            None => Ok(Sectors::Listed(sectors.to_vec(alloc)?)),
        }
    }

    /// Writes these sectors to the disk, starting with sector `start`. It always succeeds.
    ///
    /// The sectors are moved in, and the disk drops its shares of the old ones.
    pub fn install(&mut self, start: u64, sectors: Vec<Sector>)
        requires { start + vec_len sectors ≤ length self.old }
        ensures written { self.new ≡ sectors_written start sectors.items self.old }
        ensures len { length self.new ≡ length self.old }
        ensures disk { IsDisk self.new }
    {
        replace(&mut self.sectors, start as usize, sectors);
    }

    /// Writes these sectors like [`Disk::install`].
    pub fn leave(&mut self, start: u64, sectors: Sectors)
        requires { start + length (sectors_of sectors) ≤ length self.old }
        ensures written { self.new ≡ sectors_written start (sectors_of sectors) self.old }
        ensures len { length self.new ≡ length self.old }
        ensures disk { IsDisk self.new }
    {
        match sectors {
            Sectors::Filled { byte, count } => fill(&mut self.sectors, start as usize, count, byte),
            Sectors::Listed(sectors) => replace(&mut self.sectors, start as usize, sectors),
        }
    }

    /// Returns the disk's sectors, in the order of their numbers.
    pub fn sectors(&self) -> &[Sector]
        ensures value { result.now ≡ self.now }
        ensures disk { IsDisk self.now }
    {
        &self.sectors
    }

    /// Returns the maximal runs of equal bytes of the whole disk, as `runs` does. Returns `Memory` if memory is refused.
    pub fn all_runs(&self, alloc: Global) -> Result<Vec<(u8, u64)>, DiskFault>
        ensures runs { IfOk result (λ runs. IsRuns runs.items (bytes_of self.now)) }
        ensures only_memory { IsOkUnless result DiskFault.Memory }
    {
        runs(alloc, &self.sectors)
    }
}

/// A read of sectors is a read of their bytes.
pub fn read_by_bytes()
    ensures { ReadsTheirBytes }
{}

/// A write of sectors is a write of their bytes: the bytes before and after stay.
pub fn write_by_bytes()
    ensures { WritesTheirBytes }
{}

fn replace(kept: &mut Vec<Sector>, start: usize, sectors: Vec<Sector>)
    requires { start + vec_len sectors ≤ vec_len kept.old }
    ensures written { kept.new.items ≡ sectors_written start sectors.items kept.old.items }
    ensures whole { All IsSector sectors.items }
{
    let mut place = start;
    for sector in sectors {
        // Reading the bytes shows the proof that there are 512.
        let _whole = sector.bytes();
        kept[place] = sector;
        place += 1;
    }
}

fn fill(kept: &mut Vec<Sector>, start: usize, count: u32, byte: u8)
    requires { start + count ≤ vec_len kept.old }
    ensures written { kept.new.items ≡ sectors_written start (replicate count (filled_with byte)) kept.old.items }
    ensures whole { IsSector (filled_with byte) }
{
    for place in start..start + count as usize {
        kept[place] = Sector::filled(byte);
    }
}
