//! Sectors, one after another.
ghost use Rattle.std.specs.Prelude.{◌≡◌, ◌≤◌, [], IfOk, IfSome, IsOkUnless, length, replicate};
ghost use Rattle.ram_disk.specs.Sector.{filled_with};
ghost use Rattle.ram_disk.specs.Sectors.{sectors_of};
ghost use Rattle.ram_disk.specs.Pattern.{pattern_sectors};

use crate::pattern::{only_byte, tiled};
use crate::{DiskFault, MAX_PATTERN, Sector};
use std::alloc::Global;

/// Sectors, one after another, as a read finds them or a write leaves them.
#[derive(Drop)]
pub enum Sectors {
    /// This many with this byte at every place. They take no memory.
    Filled {
        /// The byte.
        byte: u8,
        /// How many there are.
        count: u32,
    },
    /// Any.
    Listed(Vec<Sector>),
}

impl Sectors {
    /// Returns no sectors.
    pub fn none() -> Sectors
        ensures { sectors_of result ≡ [] }
    {
        Sectors::Filled { byte: 0, count: 0 }
    }

    /// Returns the sectors that [`patterned`](crate::patterned) returns. Those of a pattern of one byte value take no memory.
    pub fn patterned(alloc: Global, pattern: &[u8], count: u32) -> Result<Sectors, DiskFault>
        requires within { (1 ≤ length pattern.now) × (length pattern.now ≤ MAX_PATTERN) }
        ensures made { IfOk result (λ sectors. sectors_of sectors ≡ pattern_sectors pattern.now count) }
        ensures only_memory { IsOkUnless result DiskFault.Memory }
    {
        match only_byte(pattern) {
            Some(byte) => Ok(Sectors::Filled { byte, count }),
            None => Ok(Sectors::Listed(tiled(alloc, pattern, count as usize)?)),
        }
    }
}

// Returns the byte at every place of these sectors, if there are any and all were made of one byte value. Reads no byte.
pub(crate) fn common_byte(sectors: &[Sector]) -> Option<u8>
    ensures { IfSome result (λ byte. sectors.now ≡ replicate (length sectors.now) (filled_with byte)) }
{
    let byte = sectors.first()?.only_byte()?;
    for sector in sectors {
        if sector.only_byte()? != byte {
            return None;
        }
    }
    Some(byte)
}
