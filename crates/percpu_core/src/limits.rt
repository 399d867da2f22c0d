//! The limits of every gate, which keep its numbers small.
ghost use Rattle.std.specs.Prelude.{◌≡◌, ◌^◌};

/// Maximum number of references that one pass holds.
pub const HELD_LIMIT: u32 = 65_535;

/// Maximum number of passes of a gate.
pub const PASS_LIMIT: u32 = 1_024;

/// Maximum number of slots of a gate.
pub const SLOT_LIMIT: u32 = 512;

/// Maximum number of guarded words of a gate.
pub const WORD_LIMIT: usize = 8;

/// Maximum number of kills of a gate.
pub const KILL_LIMIT: u64 = 1 << 40;

/// The limits as numbers. `specs/` uses the names of the constants.
pub fn limits_are_these_numbers()
    ensures held { HELD_LIMIT ≡ 65535 }
    ensures passes { PASS_LIMIT ≡ 1024 }
    ensures slots { SLOT_LIMIT ≡ 512 }
    ensures words { WORD_LIMIT ≡ 8 }
    ensures kills { KILL_LIMIT ≡ 2 ^ 40 }
{}
