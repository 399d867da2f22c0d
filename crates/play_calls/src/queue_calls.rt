//! The calls of a queue, as a line spells them.
use crate::gate_calls::short;
use freeze_queue::Mode;

/// A call of a tag.
#[derive(Clone, Copy)]
pub(crate) enum TagCall {
    Enter { slot: u32 },
    EnterFrozen { slot: u32 },
    Leave { slot: u32 },
    Limits,
    Entered,
    GiveBack,
    Lose,
}

/// A call of the freezer, or the end of the queue.
#[derive(Clone, Copy)]
pub(crate) enum FreezerCall {
    Freeze,
    Drained,
    Set { max: u32, chunk: u32, physical: u32 },
    Thaw,
    Mode(Mode),
    Depth,
    Limits,
    Remove,
}

/// Returns the call of a tag that a line spells, if it spells one.
pub(crate) fn of_tag(name: &[u8], numbers: &[u64]) -> Option<TagCall> {
    Some(match (name, numbers) {
        (b"try", [slot]) => TagCall::Enter { slot: short(*slot) },
        (b"look", [slot]) => TagCall::EnterFrozen { slot: short(*slot) },
        (b"leave", [slot]) => TagCall::Leave { slot: short(*slot) },
        (b"limits", []) => TagCall::Limits,
        (b"entered", []) => TagCall::Entered,
        (b"give_back", []) => TagCall::GiveBack,
        (b"lose", []) => TagCall::Lose,
        _ => return None,
    })
}

/// Returns the call of the freezer that a line spells, if it spells one.
pub(crate) fn of_freezer(name: &[u8], numbers: &[u64]) -> Option<FreezerCall> {
    Some(match (name, numbers) {
        (b"freeze", []) => FreezerCall::Freeze,
        (b"drained", []) => FreezerCall::Drained,
        (b"set", [max, chunk, physical]) => {
            let (max, chunk, physical) = (short(*max), short(*chunk), short(*physical));
            FreezerCall::Set {
                max,
                chunk,
                physical,
            }
        }
        (b"thaw", []) => FreezerCall::Thaw,
        (b"slots", []) => FreezerCall::Mode(Mode::Slots),
        (b"atomic", []) => FreezerCall::Mode(Mode::Atomic),
        (b"depth", []) => FreezerCall::Depth,
        (b"limits", []) => FreezerCall::Limits,
        (b"remove", []) => FreezerCall::Remove,
        _ => return None,
    })
}
