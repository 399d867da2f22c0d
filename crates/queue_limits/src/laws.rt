//! Laws of the definition of pieces, apart from the code.
ghost use Rattle.std.specs.Prelude.{◌≡◌, ◌↔◌, ℕ, ◌≤◌, ◌^◌, true, List};
ghost use Rattle.queue_limits.specs.Bounds.{Bounds, AreAllowed, is_physical_size};
ghost use Rattle.queue_limits.specs.Greedy.{greedy_pieces};
ghost use Rattle.queue_limits.specs.LongestPieces.{SplitsAreLongest};
ghost use Rattle.queue_limits.specs.Pieces.{IsSplit};

use crate::limits::{CHUNK_LIMIT, HARDWARE_LIMIT, PHYSICAL_LIMIT};

/// The maxima as numbers; the other clauses use their names. The function does nothing; its contract is the law.
pub fn limits_in_numbers()
    ensures hardware { HARDWARE_LIMIT ≡ 65535 }
    ensures chunk { CHUNK_LIMIT ≡ 65535 }
    ensures physical { PHYSICAL_LIMIT ≡ 32768 }
{}

/// The test of a physical block's size accepts the powers of two from 1 to 32,768 and nothing else. The function does
/// nothing; its contract is the law.
pub fn physical_sizes()
    ensures { (n : ℕ) → (is_physical_size n ≡ true) ↔ ((k : ℕ) × (k ≤ 15) × (n ≡ 2 ^ k)) }
{}

/// Each range has one list of pieces under allowed limits: the list made by cutting one piece after another off what is left, each
/// by its place alone. The function does nothing; its contract is the law.
pub fn one_split()
    ensures some { (bounds : Bounds) (start count : ℕ) → AreAllowed bounds → IsSplit bounds start count (greedy_pieces count bounds start count) }
    ensures only { (bounds : Bounds) (start count : ℕ) (a b : List ℕ) → IsSplit bounds start count a → IsSplit bounds start count b → a ≡ b }
{}

/// If a physical block is one sector, the pieces are the longest that the other limits allow: none except the last
/// could be one sector longer. The function does nothing; its contract is the law.
pub fn pieces_of_one_sector_blocks()
    ensures { (bounds : Bounds) → bounds.physical ≡ 1 → SplitsAreLongest bounds }
{}
