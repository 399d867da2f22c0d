//! A sector: 512 bytes that never change and that any number of owners share.
ghost use Rattle.std.specs.Prelude.{◌≡◌, IfOk, IfSome, IsOkUnless};
ghost use Rattle.ram_disk.specs.Sector.{IsSector, filled_with};

use crate::DiskFault;
use crate::filled::filled_bytes;
use std::alloc::{AllocError, Global};
use std::marker::Model;
use std::sync::Arc;

/// The number of bytes of a sector.
pub const SECTOR_BYTES: usize = 512;

// What the owners of a sector share.
#[derive(Drop)]
struct Block {
    bytes: [u8; SECTOR_BYTES],
}

// The bytes of a sector: one value at every place, or any.
#[derive(Drop)]
enum Kind {
    Filled(u8),
    Copied(Arc<Block>),
}

/// One owner of 512 bytes that never change. In contracts it is the list of the bytes.
///
/// A clone is another owner: it copies no byte and takes no memory. An owner may move to another thread, and the bytes
/// live until the last owner is dropped. A sector that was made of one byte value has no memory of its own.
#[derive(Drop)]
pub struct Sector {
    kind: Kind,
}

impl Model for Sector {
    ghost use Rattle.std.specs.Prelude.{ℕ, List};
    ghost use Rattle.ram_disk.specs.Sector.{IsSector};
    ghost use Rattle.ram_disk.specs.Kinds.{bytes_of_kind};

    ghost Value = { List ℕ };

    ghost view = { λ s. bytes_of_kind s.kind };

    ghost invariant = { λ s. IsSector (bytes_of_kind s.kind) };
}

impl Sector {
    /// Returns the sector's 512 bytes.
    pub fn bytes(&self) -> &[u8]
        ensures value { result.now ≡ self.now }
        ensures sector { IsSector self.now }
    {
        match &self.kind {
            Kind::Filled(byte) => filled_bytes(*byte),
            Kind::Copied(block) => &block.bytes,
        }
    }

    // Returns the byte at every place, if the sector was made of one byte value. Reads no byte.
    pub(crate) fn only_byte(&self) -> Option<u8>
        ensures only { IfSome result (λ byte. self.now ≡ filled_with byte) }
        ensures sector { IsSector self.now }
    {
        match &self.kind {
            Kind::Filled(byte) => Some(*byte),
            Kind::Copied(_) => None,
        }
    }

    // Returns a sector with this byte at every place.
    pub(crate) fn filled(byte: u8) -> Sector
        ensures { result ≡ filled_with byte }
    {
        Sector {
            kind: Kind::Filled(byte),
        }
    }

    // Returns a new sector with these 512 bytes.
    pub(crate) fn copied_from(alloc: Global, from: &[u8]) -> Result<Sector, DiskFault>
        requires { IsSector from.now }
        ensures ok { IfOk result (λ sector. sector ≡ from.now) }
        ensures only_memory { IsOkUnless result DiskFault.Memory }
    {
        let mut bytes = [0; SECTOR_BYTES];
        bytes.copy_from_slice(from);
        Ok(Sector {
            kind: Kind::Copied(Arc::new(alloc, Block { bytes })?),
        })
    }
}

impl Clone for Sector {
    ghost is_clone = { λ sector copy. copy ≡ sector };

    fn clone(&self) -> Result<Sector, AllocError> {
        let kind = match &self.kind {
            Kind::Filled(byte) => Kind::Filled(*byte),
            Kind::Copied(block) => Kind::Copied(Arc::try_clone(block)?),
        };
        Ok(Sector { kind })
    }
}
