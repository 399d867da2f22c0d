//! The limits of a queue.
ghost use Rattle.std.specs.Prelude.{◌≡◌, ◌==◌, if◌then◌else◌, ℕ, ◌+◌, ◌-◌, ◌%◌, ◌<◌, ◌≤◌, ◌^◌, ◌∷◌, ◌↔◌, ◌⊎◌, true, false, List, IfOk, IfErr, IsErrOf, OnOk, OnErr};
ghost use Rattle.queue_limits.specs.Greedy.{reach, to_block, first_piece};
ghost use Rattle.queue_limits.specs.Bounds.{Bounds, AreAllowed, IsHardwareLimit, is_physical_size};
ghost use Rattle.queue_limits.specs.Words.{to_words, from_words};
ghost use Rattle.queue_limits.specs.Pieces.{IsSplit};

use crate::fault::LimitFault;
use crate::pieces::Pieces;
use std::marker::Model;

/// Maximum hardware limit, in sectors.
pub const HARDWARE_LIMIT: u32 = 65_535;

/// Maximum chunk, in sectors.
pub const CHUNK_LIMIT: u32 = 65_535;

/// Maximum physical block, in sectors.
pub const PHYSICAL_LIMIT: u32 = 32_768;

/// The limits of a queue, in sectors of 512 bytes: what the hardware takes in one request; the maximum that the queue sends in one;
/// the chunk that no request may cross (0 for none); and the physical block, at whose end a request that is cut should end (1 for
/// any sector).
///
/// Linux: `struct queue_limits` (`max_hw_sectors`, `max_sectors`, `chunk_sectors`, `physical_block_size`).
#[derive(Clone, Copy, Debug, PartialEq, Eq)]
pub struct Limits {
    hardware: u32,
    max: u32,
    chunk: u32,
    physical: u32,
}

impl Model for Limits {
    ghost use Rattle.queue_limits.specs.Bounds.{Bounds, AreAllowed};

    ghost Value = { Bounds };

    ghost view = { λ a. record { hardware = a.hardware; max = a.max; chunk = a.chunk; physical = a.physical } };

    ghost invariant = { λ a. AreAllowed (record { hardware = a.hardware; max = a.max; chunk = a.chunk; physical = a.physical }) };

    ghost inverse = { λ b. record { hardware = b.hardware; max = b.max; chunk = b.chunk; physical = b.physical } };
}

impl Limits {
    /// Returns limits under which the hardware takes `hw` sectors in a request, the queue sends at most `max` (0: as many as the
    /// hardware takes), and a chunk has `chunk` sectors (0: none; it need not be a power of two). A physical block is one sector.
    ///
    /// Returns, tested in this order, `HardwareRange` if `hw` isn't from 1 to 65,535, `AboveHardware` if `max` is above `hw`, and
    /// `ChunkTooLarge` if `chunk` is above 65,535.
    #[tactic(auto, using(crate::proofs::PowersOfTwo::one_is_a_size))]
    pub fn new(hw: u32, max: u32, chunk: u32) -> Result<Self, LimitFault>
        ensures made { IfOk result (λ l. l ≡ record { hardware = hw; max = (if max == 0 then hw else max); chunk = chunk; physical = 1 }) }
        ensures allowed { IfOk result AreAllowed }
        ensures hardware_range { IsErrOf result LimitFault.HardwareRange ↔ ((hw < 1) ⊎ (HARDWARE_LIMIT < hw)) }
        ensures above_hardware { IsErrOf result LimitFault.AboveHardware ↔ ((1 ≤ hw) × (hw ≤ HARDWARE_LIMIT) × (hw < max)) }
        ensures chunk_too_large { IsErrOf result LimitFault.ChunkTooLarge ↔ ((1 ≤ hw) × (hw ≤ HARDWARE_LIMIT) × (max ≤ hw) × (CHUNK_LIMIT < chunk)) }
        ensures never_bad_physical { ¬ (IsErrOf result LimitFault.BadPhysical) }
    {
        if hw < 1 || hw > HARDWARE_LIMIT {
            Err(LimitFault::HardwareRange)
        } else if max > hw {
            Err(LimitFault::AboveHardware)
        } else if chunk > CHUNK_LIMIT {
            Err(LimitFault::ChunkTooLarge)
        } else {
            let max = if max == 0 { hw } else { max };
            Ok(Limits {
                hardware: hw,
                max,
                chunk,
                physical: 1,
            })
        }
    }

    /// Returns the limits that a queue starts with: as many sectors in a request as the hardware takes, no chunk, and a physical
    /// block of one sector. Returns `HardwareRange` if `hw` isn't from 1 to 65,535.
    pub fn start(hw: u32) -> Result<Self, LimitFault>
        ensures made { IfOk result (λ l. l ≡ record { hardware = hw; max = hw; chunk = 0; physical = 1 }) }
        ensures allowed { IfOk result AreAllowed }
        ensures hardware_range { IsErrOf result LimitFault.HardwareRange ↔ ((hw < 1) ⊎ (HARDWARE_LIMIT < hw)) }
        ensures only_fault { IfErr result (λ fault. fault ≡ LimitFault.HardwareRange) }
    {
        Limits::new(hw, 0, 0)
    }

    /// Returns how many sectors the hardware takes in one request, 1 to 65,535.
    pub fn hw(&self) -> u32
        ensures value { result ≡ self.now.hardware }
        ensures allowed { AreAllowed self.now }
    {
        self.hardware
    }

    /// Returns the maximum number of sectors of a request, 1 to `hw()`.
    pub fn max(&self) -> u32
        ensures value { result ≡ self.now.max }
        ensures allowed { AreAllowed self.now }
    {
        self.max
    }

    /// Returns the number of sectors of a chunk, 1 to 65,535, or 0 for none.
    pub fn chunk(&self) -> u32
        ensures value { result ≡ self.now.chunk }
        ensures allowed { AreAllowed self.now }
    {
        self.chunk
    }

    /// Returns the number of sectors of a physical block, a power of two from 1 to 32,768.
    pub fn physical(&self) -> u32
        ensures value { result ≡ self.now.physical }
        ensures allowed { AreAllowed self.now }
    {
        self.physical
    }

    /// Sets the maximum number of sectors of a request; 0 restores what the hardware takes. Returns `AboveHardware` if `max` is
    /// above `hw()`; then the limits are unchanged.
    ///
    /// Linux: `queue_max_sectors_store` (block/blk-sysfs.c), in kilobytes there.
    pub fn set_max(&mut self, max: u32) -> Result<(), LimitFault>
        ensures set { OnOk result (self.new ≡ record self.old { max = (if max == 0 then self.old.hardware else max) }) }
        ensures above_hardware { IsErrOf result LimitFault.AboveHardware ↔ (self.old.hardware < max) }
        ensures only_fault { IfErr result (λ fault. fault ≡ LimitFault.AboveHardware) }
        ensures same { OnErr result (self.new ≡ self.old) }
        ensures allowed { OnOk result (AreAllowed self.new) }
    {
        if max > self.hardware {
            return Err(LimitFault::AboveHardware);
        }
        self.max = if max == 0 { self.hardware } else { max };
        Ok(())
    }

    /// Sets the number of sectors of a chunk; 0 means none. Returns `ChunkTooLarge` if `chunk` is above 65,535; then the limits are
    /// unchanged.
    pub fn set_chunk(&mut self, chunk: u32) -> Result<(), LimitFault>
        ensures set { OnOk result (self.new ≡ record self.old { chunk = chunk }) }
        ensures chunk_too_large { IsErrOf result LimitFault.ChunkTooLarge ↔ (CHUNK_LIMIT < chunk) }
        ensures only_fault { IfErr result (λ fault. fault ≡ LimitFault.ChunkTooLarge) }
        ensures same { OnErr result (self.new ≡ self.old) }
        ensures allowed { OnOk result (AreAllowed self.new) }
    {
        if chunk > CHUNK_LIMIT {
            return Err(LimitFault::ChunkTooLarge);
        }
        self.chunk = chunk;
        Ok(())
    }

    /// Sets the number of sectors of a physical block. Returns `BadPhysical` if `physical` isn't a power of two from 1 to 32,768;
    /// then the limits are unchanged.
    ///
    /// Linux: `blk_validate_limits` (block/blk-settings.c), in bytes there, where any other size is the driver's mistake.
    pub fn set_physical(&mut self, physical: u32) -> Result<(), LimitFault>
        ensures set { OnOk result (self.new ≡ record self.old { physical = physical }) }
        ensures bad_physical { IsErrOf result LimitFault.BadPhysical ↔ (is_physical_size physical ≡ false) }
        ensures only_fault { IfErr result (λ fault. fault ≡ LimitFault.BadPhysical) }
        ensures same { OnErr result (self.new ≡ self.old) }
        ensures allowed { OnOk result (AreAllowed self.new) }
    {
        if !is_block_size(u64::from(physical)) {
            return Err(LimitFault::BadPhysical);
        }
        self.physical = physical;
        Ok(())
    }

    /// Returns the limits that can change, as three words: `max()`, `chunk()` and `physical()`.
    pub fn to_words(&self) -> [u64; 3]
        ensures { result ≡ to_words self.now }
    {
        [
            u64::from(self.max),
            u64::from(self.chunk),
            u64::from(self.physical),
        ]
    }

    /// Returns the limits that three words encode, for a hardware limit of 1 to 65,535 sectors. Any words are accepted: a first
    /// word of 0 or above `hw` is read as `hw`, a second above 65,535 as 0, and a third that isn't a power of two from 1 to 32,768
    /// as 1.
    #[tactic(auto, using(crate::proofs::PowersOfTwo::one_is_a_size))]
    pub fn from_words(hw: u32, words: [u64; 3]) -> Self
        requires { IsHardwareLimit hw }
        ensures read { result ≡ from_words hw words }
        ensures allowed { AreAllowed result }
        // The words of any limits with this hardware limit are read back as these limits.
        ensures back { (limits : Bounds) → AreAllowed limits → limits.hardware ≡ hw → words ≡ to_words limits → result ≡ limits }
    {
        let [max, chunk, physical] = words;
        let in_range = max > 0 && max <= u64::from(hw);
        Limits {
            hardware: hw,
            max: if in_range { max as u32 } else { hw },
            chunk: if chunk > u64::from(CHUNK_LIMIT) {
                0
            } else {
                chunk as u32
            },
            physical: if is_block_size(physical) {
                physical as u32
            } else {
                1
            },
        }
    }

    /// Returns the length, in sectors, of the first piece of the `left` sectors that start at `start`.
    ///
    /// Linux: `get_max_io_size` (block/blk-merge.c).
    pub fn next_piece(&self, start: u64, left: u32) -> u32
        requires some { 1 ≤ left }
        requires place { start < 2 ^ 33 }
        ensures first { (others : List ℕ) × IsSplit self.now start left (result ∷ others) }
    {
        self.first_piece(start, left)
    }

    /// Returns the lengths, in sectors, of the pieces of the `count` sectors that start at `start`, in order.
    ///
    /// Linux: `bio_split_rw` (block/blk-merge.c), called until nothing is left.
    pub fn pieces(&self, start: u64, count: u32) -> Pieces
        requires { start < 2 ^ 32 }
        ensures { IsSplit self.now start count result }
    {
        Pieces::new(*self, start, count)
    }

    // Returns all that is left if it is within reach. Otherwise the piece ends where a physical block ends, so that the next piece
    // begins with a block.
    pub(crate) fn first_piece(&self, start: u64, left: u32) -> u32
        requires place { start < 2 ^ 33 }
        ensures length { result ≡ first_piece self.now start left }
        ensures allowed { AreAllowed self.now }
    {
        let reach = self.reach(start);
        if left <= reach {
            return left;
        }
        // The remainder of a division by a power of two.
        let past = (start + u64::from(reach)) & (u64::from(self.physical) - 1);
        if past < u64::from(reach) {
            reach - past as u32
        } else {
            reach
        }
    }

    // Returns how many sectors a piece may have: up to the next boundary of a chunk, or `max` if that is less.
    fn reach(&self, start: u64) -> u32
        ensures length { result ≡ reach self.now start }
        ensures allowed { AreAllowed self.now }
    {
        if self.chunk == 0 {
            return self.max;
        }
        self.max.min(sectors_to_boundary(start, self.chunk))
    }
}

// Returns the number of sectors from `start` to the next multiple of the chunk.
fn sectors_to_boundary(start: u64, chunk: u32) -> u32
    requires { 0 < chunk }
    ensures { result ≡ chunk - start % chunk }
{
    let chunk = u64::from(chunk);
    let to_boundary = chunk - start % chunk;
    to_boundary as u32
}

// Returns whether a physical block may have this many sectors.
fn is_block_size(sectors: u64) -> bool
    ensures { result ≡ is_physical_size sectors }
{
    sectors <= u64::from(PHYSICAL_LIMIT) && sectors.is_power_of_two()
}
