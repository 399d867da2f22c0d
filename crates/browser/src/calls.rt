//! The calls of the page.
//!
//! Each call writes the text of its answer to `room`, as much as fits, and the text's length to `size`. If the room is too short, the
//! page calls again with more. Each call writes the line of a fault to `line`, or 0 if there is none.
ghost use Rattle.std.specs.Prelude.{◌≡◌, ◌≢◌, [], ◌∷◌, Contains};
ghost use Rattle.browser.specs.Handed.{Hands};
ghost use Rattle.browser.specs.Race as race;
ghost use Rattle.browser.specs.Schedule as schedule;
ghost use Rattle.browser.specs.Script as script;
ghost use Rattle.gate_replay.specs.Shown.{EndsSo};
ghost use Rattle.gate_replay.specs.declared.replay.Replayed.TheVariants.{Stuck, Whole};
ghost use Rattle.races_run.specs.Answer as outcomes;
ghost use Rattle.races_run.specs.declared.writing.Form.TheVariants.{Outcomes};

use crate::fault_lines::{NO_MEMORY, REFUSED, STOPPED, hand_fault, line_of, status_of};
use crate::handing::hand;
use crate::script::script_text;
use gate_replay::{Replayed, replay_text};
use races_run::{Fault, Form, NoWatch, outcomes_text};
use std::alloc::Global;

/// Runs a script on one thread, and writes the text of its answer.
///
/// Returns status 0 with this text; 2 if the input is no script, or 3 if requests overlap, each with the fault's line; 4 if
/// memory is refused.
#[unsafe(no_mangle)]
pub extern "C" fn browser_script(
    alloc: Global,
    input: &[u8],
    room: &mut [u8],
    size: &mut usize,
    line: &mut u32,
) -> u32
    ensures answered { result ≡ 0 → script.IsAnsweredBy input.now (λ text. Hands text room.old room.new size.new) }
    ensures refused { result ≡ 2 → script.IsRefusedAt input.now line.new }
    ensures overlaps { result ≡ 3 → script.OverlapsAt input.now line.new }
    ensures statuses { Contains (0 ∷ 2 ∷ 3 ∷ 4 ∷ []) result }
    ensures no_line { Contains (0 ∷ 4 ∷ []) result → line.new ≡ 0 }
{
    match script_text(alloc, input) {
        Ok(text) => {
            *size = hand(text.as_slice(), room);
            *line = 0;
            0
        }
        Err(fault) => {
            *size = hand_fault(alloc, &fault, room);
            *line = line_of(&fault);
            status_of(&fault)
        }
    }
}

/// Replays a schedule.
///
/// Returns status 0 with the text of a replay that took every step, or 3 with the text of a replay that stopped at a step that isn't
/// enabled; 2 if the input is no schedule, with the fault's line; 4 if memory is refused.
#[unsafe(no_mangle)]
pub extern "C" fn browser_replay(
    alloc: Global,
    input: &[u8],
    room: &mut [u8],
    size: &mut usize,
    line: &mut u32,
) -> u32
    ensures whole { result ≡ 0 → EndsSo input.now Whole (λ text. Hands text room.old room.new size.new) }
    ensures stuck { result ≡ 3 → EndsSo input.now Stuck (λ text. Hands text room.old room.new size.new) }
    ensures refused { result ≡ 2 → schedule.IsRefusedAt input.now line.new }
    ensures statuses { Contains (0 ∷ 2 ∷ 3 ∷ 4 ∷ []) result }
    ensures no_line { result ≢ 2 → line.new ≡ 0 }
{
    match replay_text(alloc, input) {
        Ok(replay) => {
            *size = hand(replay.text(), room);
            *line = 0;
            match replay.ended() {
                Replayed::Whole => 0,
                Replayed::Stuck => STOPPED,
            }
        }
        Err(fault) => {
            *size = hand_fault(alloc, &fault, room);
            *line = line_of(&fault);
            status_of(&fault)
        }
    }
}

/// Finds all outcomes of a race.
///
/// Returns status 0 with the text of the outcomes; 2 if the input is no race, with the fault's line; 4 if memory is refused.
#[unsafe(no_mangle)]
pub extern "C" fn browser_race(
    alloc: Global,
    input: &[u8],
    room: &mut [u8],
    size: &mut usize,
    line: &mut u32,
) -> u32
    ensures answered { result ≡ 0 → outcomes.IsAnsweredBy Outcomes input.now (λ text. Hands text room.old room.new size.new) }
    ensures refused { result ≡ 2 → race.IsRefusedAt input.now line.new }
    ensures statuses { Contains (0 ∷ 2 ∷ 4 ∷ []) result }
    ensures no_line { result ≢ 2 → line.new ≡ 0 }
{
    match outcomes_text(alloc, input, Form::Outcomes, None, &mut NoWatch) {
        Ok(text) => {
            *size = hand(text.as_slice(), room);
            *line = 0;
            0
        }
        Err(fault) => {
            *size = hand_fault(alloc, &fault, room);
            match fault {
                Fault::Parse(refused) => {
                    *line = refused.line;
                    REFUSED
                }
                _ => {
                    *line = 0;
                    NO_MEMORY
                }
            }
        }
    }
}
