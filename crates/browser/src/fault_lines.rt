//! A fault for the page: its status, its line, and the program's text for it.
ghost use Rattle.std.specs.Prelude.{◌≡◌};
ghost use Rattle.browser.specs.Statuses.{line_of, status_of};

use crate::handing::hand;
use line_text::ScriptFault;
use std::alloc::{AllocError, Global};
use std::fmt::Display;

/// The status if an input is refused.
pub(crate) const REFUSED: u32 = 2;

/// The status if requests overlap, or a step isn't enabled.
pub(crate) const STOPPED: u32 = 3;

/// The status if memory is refused.
pub(crate) const NO_MEMORY: u32 = 4;

/// The status of a fault.
pub(crate) fn status_of(fault: &ScriptFault) -> u32
    ensures { result ≡ status_of fault.now }
{
    match fault {
        ScriptFault::Parse(_) => REFUSED,
        ScriptFault::Overlap(_) => STOPPED,
        ScriptFault::Memory => NO_MEMORY,
    }
}

/// The line of a fault, from 1; 0 if the fault has no line.
pub(crate) fn line_of(fault: &ScriptFault) -> u32
    ensures { result ≡ line_of fault.now }
{
    match fault {
        ScriptFault::Parse(refused) => refused.line,
        ScriptFault::Overlap(pair) => pair.line,
        ScriptFault::Memory => 0,
    }
}

// The line that the program writes to standard error for a fault.
fn text_of<F: Display>(alloc: Global, fault: &F) -> Result<String, AllocError> {
    format!(in alloc; "{fault}")
}

/// Writes a fault's text to the page's room, and returns its length, or 0 if memory is refused for the text.
pub(crate) fn hand_fault<F: Display>(alloc: Global, fault: &F, room: &mut [u8]) -> usize {
    match text_of(alloc, fault) {
        Ok(text) => hand(text.as_bytes(), room),
        Err(_) => 0,
    }
}
