//! Laws of the definitions of overlaps and of ordered requests, apart from the code. The functions do nothing; their contracts are
//! laws.
ghost use Rattle.std.specs.Prelude.{◌≡◌, ℕ};
ghost use Rattle.script_overlap.specs.Ordered.{IsOneListOfDrains, IsOneOrder, PartsAllClashes};
ghost use Rattle.script_overlap.specs.Overlap.{IsFirstOverlap, IsReported};
ghost use Rattle.script_meaning.specs.Script.{Meant};
ghost use Rattle.line_text.specs.declared.fault.Overlap.{Overlap};

/// A script has at most one first overlap, and so at most one pair of lines to report.
pub fn one_first_overlap()
    ensures place { (script : Meant) (e l f m : ℕ) → IsFirstOverlap script e l → IsFirstOverlap script f m → (e ≡ f) × (l ≡ m) }
    ensures pair { (script : Meant) (a b : Overlap) → IsReported script a → IsReported script b → a ≡ b }
{}

/// A script has at most one list of ordered requests, and at most one list of the lines before which the queue has to drain. With a
/// drain before each of them, no two requests clash without a drain between them.
pub fn one_list_of_ordered_requests()
    ensures positions { IsOneOrder }
    ensures lines { IsOneListOfDrains }
    ensures parts { PartsAllClashes }
{}
