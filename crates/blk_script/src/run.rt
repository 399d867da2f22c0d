//! A script on one thread, from its lines to the text of its replies.
ghost use Rattle.std.specs.Prelude.{◌≡◌, IfOk, IfErr};
ghost use Rattle.blk_script.specs.Answer.{IsText};

use crate::machine::Machine;
use crate::rendering::{push_disk, push_line};
use line_text::ScriptFault;
use script_meaning::Script;
use std::alloc::Global;

/// Returns what a script's run on one thread writes: a line for each line that asks something, and then the line of the disk.
/// Requests that overlap are done in the order of their lines. `Memory` is the only fault.
pub fn run_alone(alloc: Global, script: &Script) -> Result<Vec<u8>, ScriptFault>
    ensures text { IfOk result (λ text. IsText script.now text.items) }
    ensures fault { IfErr result (λ fault. fault ≡ ScriptFault.Memory) }
{
    let mut machine = Machine::new(alloc, script)?;
    let mut out = Vec::new(alloc);
    for line in script.lines() {
        let reply = machine.reply(alloc, &line.what)?;
        push_line(&mut out, line.number, &reply)?;
    }
    push_disk(&mut out, alloc, &machine.disk)?;
    Ok(out)
}
