//! Laws of the meaning of scripts, apart from the code.
ghost use Rattle.std.specs.Prelude.{◌≡◌, ℕ, List};
ghost use Rattle.blk_script.specs.Answer.{IsText};
ghost use Rattle.script_meaning.specs.Script.{Meant};

use queue_limits::one_split;
use ram_disk::one_list_of_runs;

/// A script's run on one thread writes one text. The contract is the law; the function does nothing.
pub fn one_text()
    ensures { (script : Meant) (a b : List ℕ) → IsText script a → IsText script b → a ≡ b }
{
    one_split();
    one_list_of_runs();
}
