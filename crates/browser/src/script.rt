//! The answer to a script.
ghost use Rattle.std.specs.Prelude.{Err, IfErr, IfOk, Ok};
ghost use Rattle.browser.specs.Script.{IsAnswer};

use blk_script::{check, parse, run_alone};
use line_text::ScriptFault;
use std::alloc::Global;

/// Returns the text that a script's run on one thread writes, or the fault for which the script is refused.
#[tactic(auto, unfolding(crate::specs::Script::IsAnswer))]
pub(crate) fn script_text(alloc: Global, input: &[u8]) -> Result<Vec<u8>, ScriptFault>
    ensures text { IfOk result (λ text. IsAnswer input.now (Ok text.items)) }
    ensures refusal { IfErr result (λ fault. IsAnswer input.now (Err fault)) }
{
    let script = parse(alloc, input)?;
    check(alloc, &script)?;
    let text = run_alone(alloc, &script)?;
    Ok(text)
}
