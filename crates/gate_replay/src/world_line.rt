//! What the first two lines of a schedule say: its version, and the world.
ghost use Rattle.std.specs.Prelude.{◌≡◌, ◌∷◌, ◌≤◌, true, length, Err, IfOk, OnOk, MatchResult};
ghost use Rattle.line_text.specs.Answers.{Says, Tells, at_line};
ghost use Rattle.percpu_core.specs.Starts.{IsWithinLimits, opening};
ghost use Rattle.gate_replay.specs.Schedules.{opened};
ghost use Rattle.gate_replay.specs.WorldLine.{behind_kills, behind_world, gate_of, opening_of, sizes, sizes_of, start_of, values_of, world_of};

use crate::schedule::GuardedWords;
use line_text::{ScriptFault, Why, Words, at_line, is_word, long_number, short_number};
use percpu_core::{KILL_LIMIT, Start, WORD_LIMIT};
use std::alloc::Global;

/// Maximum number of slots of a `world`. It belongs to the format `gate 1`; a gate may take more.
const MOST_SLOTS: u32 = 64;

/// Maximum number of passes of a `world`.
const MOST_PASSES: u32 = 64;

/// The world that a line describes.
#[derive(Debug, Drop)]
pub struct WorldLine {
    /// Number of slots of the gate, 1 to 64.
    pub slots: u32,
    /// Number of passes of the gate, 1 to 64.
    pub passes: u32,
    pub start: Start,
    /// Number of kills that the gate starts with, 0 to 2^40.
    pub kills: u64,
    pub words: GuardedWords,
}

impl WorldLine {
    // Makes a world of these sizes and these guarded words.
    fn new(sizes: WorldSizes, values: Vec<u64>) -> WorldLine
        ensures { opened result ≡ opening sizes.slots sizes.passes sizes.start sizes.kills values.items }
    {
        WorldLine {
            slots: sizes.slots,
            passes: sizes.passes,
            start: sizes.start,
            kills: sizes.kills,
            words: GuardedWords::new(values),
        }
    }
}

/// Checks that the line names the version.
pub(crate) fn gate(mut words: Words<'_>) -> Result<(), Why>
    ensures { Says (λ _. true) result (gate_of words.entry) }
{
    let name = words.next().ok_or(Why::NoVersion)?;
    let number = words.next().ok_or(Why::NoVersion)?;
    if is_word(name, "gate") && is_word(number, "1") && words.next().is_none() {
        Ok(())
    } else {
        Err(Why::NoVersion)
    }
}

// Returns how the world starts.
fn start_said(word: &[u8]) -> Result<Start, Why>
    ensures { result ≡ start_of word.now }
{
    if is_word(word, "slots") {
        Ok(Start::Slots)
    } else if is_word(word, "atomic") {
        Ok(Start::Atomic)
    } else if is_word(word, "dead") {
        Ok(Start::Dead)
    } else {
        Err(Why::UnknownWord)
    }
}

/// The words before the guarded ones.
#[derive(Clone, Copy)]
struct SizeWords<'a> {
    slots: &'a [u8],
    passes: &'a [u8],
    start: &'a [u8],
    kills: &'a [u8],
}

// Takes the words before the guarded ones.
fn size_words<'a>(words: &mut Words<'a>) -> Result<SizeWords<'a>, Why>
    ensures { MatchResult result
        (λ said. words.old ≡ said.slots.now ∷ said.passes.now ∷ said.start.now ∷ said.kills.now ∷ words.new)
        (λ why. sizes_of words.old ≡ Err why) }
{
    let slots = words.next().ok_or(Why::MissingWord)?;
    let passes = words.next().ok_or(Why::MissingWord)?;
    let start = words.next().ok_or(Why::MissingWord)?;
    let kills = words.next().ok_or(Why::MissingWord)?;
    Ok(SizeWords {
        slots,
        passes,
        start,
        kills,
    })
}

/// What comes before the guarded words.
#[derive(Clone, Copy)]
struct WorldSizes {
    slots: u32,
    passes: u32,
    start: Start,
    kills: u64,
}

// Takes the slots, the passes, the start and the kills. Leaves the words after them, and checks that there aren't too many.
fn sizes(words: &mut Words<'_>) -> Result<WorldSizes, Why>
    ensures said { Says (λ said. sizes said.slots said.passes said.start said.kills) result (sizes_of words.old) }
    ensures rest { OnOk result (words.new ≡ behind_kills words.old) }
    ensures slots { IfOk result (λ said. (1 ≤ said.slots) × (said.slots ≤ MOST_SLOTS)) }
    ensures passes { IfOk result (λ said. (1 ≤ said.passes) × (said.passes ≤ MOST_PASSES)) }
    ensures kills { IfOk result (λ said. said.kills ≤ KILL_LIMIT) }
    ensures words { OnOk result (length words.new ≤ WORD_LIMIT) }
{
    let said = size_words(words)?;
    if words.count_left() > WORD_LIMIT {
        return Err(Why::ExtraWord);
    }
    let slots = short_number(said.slots, 1, MOST_SLOTS)?;
    let passes = short_number(said.passes, 1, MOST_PASSES)?;
    let start = start_said(said.start)?;
    let kills = long_number(said.kills, 0, KILL_LIMIT)?;
    Ok(WorldSizes {
        slots,
        passes,
        start,
        kills,
    })
}

// Takes the word `world`.
fn named(words: &mut Words<'_>) -> Result<(), Why>
    ensures { Says (λ _. words.new) result (behind_world words.old) }
{
    let first = words.next().ok_or(Why::NoWorld)?;
    if is_word(first, "world") {
        Ok(())
    } else {
        Err(Why::NoWorld)
    }
}

// Reads the guarded words.
fn values(alloc: Global, line: u32, mut words: Words<'_>) -> Result<Vec<u64>, ScriptFault>
    ensures said { Tells (λ values. values.items) result (at_line line (values_of words.entry)) }
    ensures count { IfOk result (λ values. length values.items ≡ length words.entry) }
{
    let mut values = Vec::new(alloc);
    while let Some(word) = words.next() {
        values.push(at_line(line, long_number(word, 0, u64::MAX))?)?;
    }
    Ok(values)
}

/// Returns the world that the words of a line describe.
pub(crate) fn world(
    alloc: Global,
    line: u32,
    mut words: Words<'_>,
) -> Result<WorldLine, ScriptFault>
    ensures said { Tells opened result (at_line line (world_of words.entry)) }
    ensures within { IfOk result (λ world. IsWithinLimits (opened world)) }
{
    at_line(line, named(&mut words))?;
    world_said(alloc, line, words)
}

// Returns the world that the words after `world` describe.
fn world_said(alloc: Global, line: u32, mut words: Words<'_>) -> Result<WorldLine, ScriptFault>
    ensures said { Tells opened result (at_line line (opening_of words.entry)) }
    ensures within { IfOk result (λ world. IsWithinLimits (opened world)) }
{
    let sizes = at_line(line, sizes(&mut words))?;
    let values = values(alloc, line, words)?;
    Ok(WorldLine::new(sizes, values))
}
