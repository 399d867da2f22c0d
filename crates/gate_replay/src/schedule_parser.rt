//! From bytes to a schedule.
ghost use Rattle.std.specs.Prelude.{◌≡◌, true, IfOk};
ghost use Rattle.line_text.specs.Answers.{Answers, Says, Tells, at_line};
ghost use Rattle.line_text.specs.Statements.{after_first};
ghost use Rattle.percpu_core.specs.Starts.{IsWithinLimits};
ghost use Rattle.gate_replay.specs.Schedules.{opened, opening_in, told_by, events_of, gate_in, world_in, schedule_of};

use crate::schedule::{Events, Schedule};
use crate::world_line::WorldLine;
use crate::{event_line, world_line};
use line_text::{ParseFault, ScriptFault, Statements, Why, Words, at_line};
use percpu_core::Event;
use std::alloc::Global;

// Takes the line of the version.
fn gate(text: &mut Statements<'_>) -> Result<(), ParseFault>
    ensures said { Says (λ _. true) result (gate_in text.old) }
    ensures rest { text.new ≡ after_first text.old }
{
    let (line, words) = text.next_or(Why::NoVersion)?;
    at_line(line, world_line::gate(words))
}

/// Takes the next line, which has to describe a world.
///
/// Returns `Parse` with the first fault, which is a fault of the line after the last if no line is left. Returns `Memory` only if
/// memory is refused. The line is taken even if this fails.
pub fn next_world(alloc: Global, text: &mut Statements<'_>) -> Result<WorldLine, ScriptFault>
    ensures said { Tells opened result (world_in text.old) }
    ensures rest { text.new ≡ after_first text.old }
    ensures within { IfOk result (λ world. IsWithinLimits (opened world)) }
{
    let (line, words) = text.next_or(Why::NoWorld)?;
    world_line::world(alloc, line, words)
}

// Returns the step that the words of a line describe, if it has any.
fn event(line: u32, said: Result<Words<'_>, Why>) -> Result<Event, ParseFault>
    ensures { result ≡ at_line line (told_by said.entry) }
{
    let words = at_line(line, said)?;
    at_line(line, event_line::event(words))
}

// Returns the steps of the lines that are left.
fn events(alloc: Global, mut text: Statements<'_>) -> Result<Vec<(u32, Event)>, ScriptFault>
    ensures { Tells (λ events. events.items) result (events_of text.entry.said) }
{
    let mut events = Vec::new(alloc);
    while let Some((line, said)) = text.next() {
        let event = event(line, said)?;
        events.push((line, event))?;
    }
    Ok(events)
}

/// Returns the schedule that a text means.
///
/// Returns `Parse` exactly if the text means no schedule, with the first fault of the text, in the order that docs/FORMATS.md
/// gives, and its line, counted from 1. Returns `Memory` only if memory is refused.
pub fn parse_schedule(alloc: Global, bytes: &[u8]) -> Result<Schedule, ScriptFault>
    ensures meant { Answers result (schedule_of bytes.now) }
    ensures within { IfOk result (λ schedule. IsWithinLimits (opening_in schedule)) }
{
    let mut text = Statements::new(bytes)?;
    gate(&mut text)?;
    let world = next_world(alloc, &mut text)?;
    let events = events(alloc, text)?;
    Ok(Schedule {
        slots: world.slots,
        passes: world.passes,
        start: world.start,
        kills: world.kills,
        words: world.words,
        events: Events::new(events),
    })
}
