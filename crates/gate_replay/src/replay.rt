//! The replay of a schedule: its text, and how it ends.
ghost use Rattle.std.specs.Prelude.{◌≡◌, IfOk};
ghost use Rattle.line_text.specs.Answers.{Answers};
ghost use Rattle.percpu_core.specs.Starts.{IsWithinLimits};
ghost use Rattle.gate_replay.specs.Schedules.{opening_in};
ghost use Rattle.gate_replay.specs.Shown.{shown_of, shown_by};

use crate::reply_lines::{push_end, push_reply, push_stuck};
use crate::schedule::Schedule;
use crate::schedule_parser::parse_schedule;
use line_text::ScriptFault;
use percpu_core::{Memory, World};
use std::alloc::Global;
use std::marker::Model;

/// How a replay ended.
#[derive(Clone, Copy, Debug, PartialEq, Eq)]
pub enum Replayed {
    /// Every step was taken.
    Whole,
    /// A step wasn't enabled, and those after it weren't tried.
    Stuck,
}

/// What the replay of a schedule shows. Contracts see the text and which line ends it.
#[derive(Debug, Drop)]
pub struct Replay {
    text: Vec<u8>,
    ended: Replayed,
}

impl Model for Replay {
    ghost use Rattle.gate_replay.specs.Shown.{Shown};

    ghost Value = { Shown };

    ghost view = { λ r. record { text = r.text.items; ended = r.ended } };
}

impl Replay {
    /// Makes a replay with this text and this end; no memory is taken.
    pub fn new(text: Vec<u8>, ended: Replayed) -> Replay
        ensures { result ≡ record { text = text.items; ended = ended } }
    {
        Replay { text, ended }
    }

    /// Returns a line for each step that was taken, and then the line of the end, or of the step that isn't enabled.
    pub fn text(&self) -> &[u8]
        ensures { result.now ≡ self.now.text }
    {
        self.text.as_slice()
    }

    /// Returns which of the two lines ends it.
    pub fn ended(&self) -> Replayed
        ensures { result ≡ self.now.ended }
    {
        self.ended
    }
}

/// Takes the steps of a schedule one after another. Returns a line for each reply, and then a line for the world that they leave,
/// or for the first step that isn't enabled.
fn played(alloc: Global, schedule: &Schedule) -> Result<Replay, Memory>
    requires { IsWithinLimits (opening_in schedule.now) }
    ensures { IfOk result (λ replay. replay ≡ shown_of schedule.now) }
{
    let mut world = World::with_kills(
        alloc,
        schedule.slots,
        schedule.passes,
        schedule.start,
        schedule.kills,
        schedule.words.as_slice(),
    )?;
    let mut text = Vec::new(alloc);
    for (line, event) in schedule.events.as_slice() {
        match world.step(*event) {
            Ok(reply) => push_reply(&mut text, reply)?,
            Err(why) => {
                push_stuck(&mut text, *line, why)?;
                return Ok(Replay {
                    text,
                    ended: Replayed::Stuck,
                });
            }
        }
    }
    push_end(&mut text, &world)?;
    Ok(Replay {
        text,
        ended: Replayed::Whole,
    })
}

/// Returns what the replay of the schedule that a text means shows.
///
/// Returns `Parse` exactly if the text means no schedule, with its first fault. Returns `Memory` only if memory is refused.
#[tactic(auto, unfolding(crate::specs::Shown::shown_by))]
pub fn replay_text(alloc: Global, text: &[u8]) -> Result<Replay, ScriptFault>
    ensures { Answers result (shown_by text.now) }
{
    let schedule = parse_schedule(alloc, text)?;
    played(alloc, &schedule).map_err(|_: Memory| ScriptFault::Memory)
}
