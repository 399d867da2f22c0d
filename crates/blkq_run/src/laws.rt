//! Laws of the answers to inputs, apart from the code.
ghost use Rattle.std.specs.Prelude.{◌≡◌, ℕ, List, Result};
ghost use Rattle.blkq_run.specs.Answer.{IsAnswer};
ghost use Rattle.blkq_run.specs.declared.fault.Fault.{Fault};

use crate::run::MOST_READ;
use blk_script::{one_first_overlap, one_text};
use blk_workers::{MOST_SLOTS, MOST_TAGS, MOST_WORKERS};

/// The maximum sizes of a run and the maximum number of bytes read, as numbers; the other public clauses use their names. The
/// contract is the law; the function does nothing.
pub fn sizes_in_numbers()
    ensures workers { MOST_WORKERS ≡ 32 }
    ensures slots { MOST_SLOTS ≡ 64 }
    ensures tags { MOST_TAGS ≡ 63 }
    ensures read { MOST_READ ≡ 1048577 }
{}

/// An input has at most one answer. The contract is the law; the function does nothing.
pub fn one_answer()
    ensures { (input : List ℕ) (a b : Result (List ℕ) Fault) → IsAnswer input a → IsAnswer input b → a ≡ b }
{
    one_text();
    one_first_overlap();
}
