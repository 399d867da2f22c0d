//! Sectors made of a repeated pattern.
ghost use Rattle.std.specs.Prelude.{◌≡◌, ◌+◌, ◌*◌, ◌%◌, ◌<◌, ◌≤◌, ⊤, All, EachIndex, IfOk, IsOkUnless, MatchOption, length, slice_index};
ghost use Rattle.ram_disk.specs.Sector.{IsSector, bytes_of};
ghost use Rattle.ram_disk.specs.Pattern.{pattern_byte, pattern_bytes, pattern_sectors};

use crate::sector::SECTOR_BYTES;
use crate::{DiskFault, Sector};
use std::alloc::Global;

/// Maximum number of bytes of a pattern.
pub const MAX_PATTERN: usize = 64;

// Enough of a repeated pattern to copy a sector from it, starting at any byte of the pattern.
const TILE_BYTES: usize = SECTOR_BYTES + MAX_PATTERN;

/// Returns `count` new sectors, with a pattern of 1 to 64 bytes repeated over the whole range: byte j is the pattern's
/// byte at j modulo the pattern's length. Returns `Memory` if memory is refused.
///
/// The pattern continues across sectors. Equal sectors are one sector, shared.
pub fn patterned(alloc: Global, pattern: &[u8], count: u32) -> Result<Vec<Sector>, DiskFault>
    requires within { (1 ≤ length pattern.now) × (length pattern.now ≤ MAX_PATTERN) }
    ensures made { IfOk result (λ sectors. sectors.items ≡ pattern_sectors pattern.now count) }
    ensures bytes { IfOk result
        (λ sectors. bytes_of sectors.items ≡ pattern_bytes pattern.now (count * SECTOR_BYTES)) }
    ensures count { IfOk result (λ sectors. length sectors.items ≡ count) }
    ensures sectors { IfOk result (λ sectors. All IsSector sectors.items) }
    ensures only_memory { IsOkUnless result DiskFault.Memory }
{
    match only_byte(pattern) {
        Some(byte) => {
            let sector = Sector::filled(byte);
            Ok(vec![in alloc; sector; count as usize]?)
        }
        None => tiled(alloc, pattern, count as usize),
    }
}

// Returns the only byte value of a pattern, if it has just one.
pub(crate) fn only_byte(pattern: &[u8]) -> Option<u8>
    requires { 1 ≤ length pattern.now }
    ensures { MatchOption result ⊤ (λ byte. All (λ other. other ≡ byte) pattern.now) }
{
    let first = pattern[0];
    pattern.iter().all(|byte| *byte == first).then_some(first)
}

// Makes each different sector once, and shares it afterwards.
pub(crate) fn tiled(alloc: Global, pattern: &[u8], count: usize) -> Result<Vec<Sector>, DiskFault>
    requires within { (1 ≤ length pattern.now) × (length pattern.now ≤ MAX_PATTERN) }
    ensures ok { IfOk result (λ sectors. sectors.items ≡ pattern_sectors pattern.now count) }
    ensures only_memory { IsOkUnless result DiskFault.Memory }
{
    let tile = tile_of(pattern);
    let period = period_in_sectors(pattern.len());
    let mut sectors: Vec<Sector> = Vec::with_capacity(alloc, count)?;
    for number in 0..count {
        let sector = if number < period {
            let start = number * SECTOR_BYTES % pattern.len();
            Sector::copied_from(alloc, &tile[start..start + SECTOR_BYTES])?
        } else {
            sectors[number - period].clone()?
        };
        sectors.push_reserved(sector);
    }
    Ok(sectors)
}

// Returns the pattern, repeated.
fn tile_of(pattern: &[u8]) -> [u8; TILE_BYTES]
    requires within { (1 ≤ length pattern.now) × (length pattern.now ≤ MAX_PATTERN) }
    ensures { EachIndex result (λ place. slice_index result place ≡ pattern_byte pattern.now place) }
{
    let mut tile = [0; TILE_BYTES];
    for place in 0..TILE_BYTES {
        tile[place] = if place < pattern.len() {
            pattern[place]
        } else {
            tile[place - pattern.len()]
        };
    }
    tile
}

// Returns the number of sectors after which a pattern of this length begins at the start of a sector again.
fn period_in_sectors(length: usize) -> usize
    requires within { (1 ≤ length) × (length ≤ MAX_PATTERN) }
    ensures positive { 1 ≤ result }
    ensures small { result ≤ MAX_PATTERN }
    ensures whole { result * SECTOR_BYTES % length ≡ 0 }
{
    (1..length)
        .find(|sectors| *sectors * SECTOR_BYTES % length == 0)
        .unwrap_or(length)
}
