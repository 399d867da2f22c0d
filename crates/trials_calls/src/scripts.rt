//! The calls of `blk_script`.
ghost use Rattle.std.specs.Prelude.{◌≡◌};
ghost use Rattle.line_text.specs.WhyNumber.{why_number};
ghost use Rattle.script_overlap.specs.Overlap.{IsChecked};

use blk_script::{
    ByteRuns, Line, Mode, Overlap, ParseFault, Pattern, PieceLengths, Reply, Script, ScriptFault,
    Stat, What, Why, Words,
};
use ram_disk::Disk;
use std::alloc::Global;

pub fn parse(alloc: Global, text: &[u8]) -> Result<Script, ScriptFault> {
    blk_script::parse(alloc, text)
}

pub fn check(alloc: Global, script: &Script) -> Result<(), ScriptFault> {
    blk_script::check(alloc, script)
}

pub fn drains(alloc: Global, script: &Script) -> Result<Vec<u32>, ScriptFault> {
    blk_script::drains(alloc, script)
}

pub fn run_alone(alloc: Global, script: &Script) -> Result<Vec<u8>, ScriptFault> {
    blk_script::run_alone(alloc, script)
}

pub fn render(alloc: Global, number: u32, reply: &Reply) -> Result<Vec<u8>, ScriptFault> {
    blk_script::render(alloc, number, reply)
}

pub fn render_disk(alloc: Global, disk: &Disk) -> Result<Vec<u8>, ScriptFault> {
    blk_script::render_disk(alloc, disk)
}

pub fn words(line: &str) -> Words<'_> {
    blk_script::words(line)
}

pub fn number(word: &[u8], low: i128, high: i128, signed: bool) -> Result<i128, Why> {
    blk_script::number(word, low, high, signed)
}

/// Returns the version, the disk's sectors and what the hardware takes.
pub fn numbers(script: &Script) -> [u32; 3] {
    [script.version(), script.disk(), script.hw()]
}

pub fn lines(script: &Script) -> &[Line] {
    script.lines()
}

/// Returns the number of a line, and what it asks.
pub fn line(line: &Line) -> (u32, &What) {
    let Line { number, what } = line;
    (*number, what)
}

/// Returns the numbers of what a line asks: a start and a count, or a setting.
pub fn what(what: &What) -> (u32, u32) {
    match what {
        What::Read { start, count } => (*start, *count),
        What::Write {
            start,
            count,
            pattern,
        } => {
            let _: &Pattern = pattern;
            (*start, *count)
        }
        What::Freeze | What::Thaw | What::Stat | What::Remove => (0, 0),
        What::SetMax(value) | What::SetChunk(value) | What::SetPhysical(value) => (*value, 0),
        What::SetMode(mode) => {
            let _: &Mode = mode;
            (0, 0)
        }
    }
}

/// Returns the depth in a reply.
pub fn reply(reply: &Reply) -> u32 {
    match reply {
        Reply::Data { pieces, runs } => {
            let _: &PieceLengths = pieces;
            let _: &ByteRuns = runs;
            0
        }
        Reply::Written { pieces } => {
            let _: &PieceLengths = pieces;
            0
        }
        Reply::Done
        | Reply::NotFrozen
        | Reply::DepthFull
        | Reply::Again
        | Reply::PastEnd
        | Reply::Invalid
        | Reply::Removed
        | Reply::Gone => 0,
        Reply::Depth(depth) => *depth,
        Reply::Stat(stat) => stat.depth,
    }
}

/// Returns the lists that a reply has, as vectors.
pub fn lists(pieces: PieceLengths, runs: ByteRuns) -> (Vec<u32>, Vec<(u8, u64)>) {
    (pieces.into_vec(), runs.into_vec())
}

/// Returns the counts, the depth, the limits and the mode.
pub fn stat(stat: Stat) -> ([u64; 4], [u32; 3], Option<u32>, Mode) {
    let Stat {
        reads,
        writes,
        again,
        eio,
        depth,
        max,
        chunk,
        physical,
        mode,
    } = stat;
    (
        [reads, writes, again, eio],
        [depth, max, chunk],
        physical,
        mode,
    )
}

/// Returns the line of a fault, and the earlier line or the reason.
pub fn script_fault(fault: ScriptFault) -> Option<(u32, Result<u32, Why>)> {
    match fault {
        ScriptFault::Memory => None,
        ScriptFault::Parse(ParseFault { line, why }) => Some((line, Err(why))),
        ScriptFault::Overlap(Overlap { line, earlier }) => Some((line, Ok(earlier))),
    }
}

/// Returns the number of a reason.
pub fn why(why: Why) -> u8
    ensures { result ≡ why_number why }
{
    match why {
        Why::NotUtf8 => 1,
        Why::NoVersion => 2,
        Why::NoDisk => 3,
        Why::UnknownWord => 4,
        Why::MissingWord => 5,
        Why::ExtraWord => 6,
        Why::BadNumber => 7,
        Why::OutOfRange => 8,
        Why::BadHex => 9,
        Why::TooLong => 10,
        Why::NoWorld => 11,
    }
}
