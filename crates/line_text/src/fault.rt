//! Why a text is refused.
ghost use Rattle.std.specs.Prelude.{◌≡◌};
ghost use Rattle.line_text.specs.Answers.{at_line};
ghost use Rattle.line_text.specs.WhyNumber.{why_number};

use std::alloc::{AllocError, AllocFailed};
use thiserror::Error;

/// Why a line is refused. The faults of a line are tested in the order of docs/FORMATS.md.
#[derive(Clone, Copy, Debug, PartialEq, Eq, Error)]
pub enum Why {
    /// The line isn't UTF-8.
    #[error("not utf-8")]
    NotUtf8,
    /// The first statement doesn't name a known version.
    #[error("no version")]
    NoVersion,
    /// The second statement doesn't begin with `disk`.
    #[error("no disk")]
    NoDisk,
    /// A first word, or a word that has to be one of a few, is unknown.
    #[error("unknown word")]
    UnknownWord,
    /// The line has too few words.
    #[error("missing word")]
    MissingWord,
    /// The line has too many words.
    #[error("extra word")]
    ExtraWord,
    /// A word that should be a number isn't 1 to 20 decimal digits.
    #[error("bad number")]
    BadNumber,
    /// A number isn't in its range.
    #[error("out of range")]
    OutOfRange,
    /// A pattern isn't an even number of hexadecimal digits, 2 to 128.
    #[error("bad hex")]
    BadHex,
    /// The text has more than 1,048,576 bytes.
    #[error("too long")]
    TooLong,
    /// The second statement of a schedule doesn't begin with `world`.
    #[error("no world")]
    NoWorld,
}

impl Why {
    /// Returns the reason's number, counted from 1 in order of declaration.
    pub fn number(&self) -> u8
        ensures { result ≡ why_number self.now }
    {
        match self {
            Why::NotUtf8 => 1,
            Why::NoVersion => 2,
            Why::NoDisk => 3,
            Why::UnknownWord => 4,
            Why::MissingWord => 5,
            Why::ExtraWord => 6,
            Why::BadNumber => 7,
            Why::OutOfRange => 8,
            Why::BadHex => 9,
            Why::TooLong => 10,
            Why::NoWorld => 11,
        }
    }
}

/// The first fault of a text: its line, counted from 1, and why that line is refused.
#[derive(Clone, Copy, Debug, PartialEq, Eq, Error)]
#[error("line {line}: {why}")]
pub struct ParseFault {
    pub line: u32,
    pub why: Why,
}

/// Two requests of a script that overlap, by their line numbers, counted from 1.
#[derive(Clone, Copy, Debug, PartialEq, Eq, Error)]
#[error("line {line}: overlaps line {earlier}")]
pub struct Overlap {
    /// The later of the two lines.
    pub line: u32,
    pub earlier: u32,
}

/// Why a script or a schedule has no answer. A schedule never has `Overlap`.
#[derive(Clone, Copy, Debug, PartialEq, Eq, Error)]
pub enum ScriptFault {
    /// An allocation was refused.
    #[error("memory")]
    Memory,
    /// The text is refused.
    #[error("{0}")]
    Parse(ParseFault),
    /// Two requests of the script overlap.
    #[error("{0}")]
    Overlap(Overlap),
}

impl From<AllocError> for ScriptFault {
    ghost use Rattle.line_text.specs.declared.fault.ScriptFault.TheVariants.{Memory};

    ghost from_gives = { λ _ fault. fault ≡ Memory };

    fn from(_refused: AllocError) -> Self {
        ScriptFault::Memory
    }
}

impl<T: Drop> From<AllocFailed<T>> for ScriptFault {
    ghost use Rattle.line_text.specs.declared.fault.ScriptFault.TheVariants.{Memory};

    ghost from_gives = { λ _ fault. fault ≡ Memory };

    fn from(_refused: AllocFailed<T>) -> Self {
        ScriptFault::Memory
    }
}

impl From<ParseFault> for ScriptFault {
    ghost use Rattle.line_text.specs.declared.fault.ScriptFault.TheVariants.{Parse};

    ghost from_gives = { λ parse fault. fault ≡ Parse parse };

    fn from(fault: ParseFault) -> Self {
        ScriptFault::Parse(fault)
    }
}

/// Why a call on the words of one line failed.
#[derive(Clone, Copy, Debug, PartialEq, Eq, Error)]
pub enum LineFault {
    /// An allocation was refused.
    #[error("memory")]
    Memory,
    /// The line is refused.
    #[error("{0}")]
    Refused(Why),
}

impl From<AllocError> for LineFault {
    ghost use Rattle.line_text.specs.declared.fault.LineFault.TheVariants.{Memory};

    ghost from_gives = { λ _ fault. fault ≡ Memory };

    fn from(_refused: AllocError) -> Self {
        LineFault::Memory
    }
}

impl From<Why> for LineFault {
    ghost use Rattle.line_text.specs.declared.fault.LineFault.TheVariants.{Refused};

    ghost from_gives = { λ why fault. fault ≡ Refused why };

    fn from(why: Why) -> Self {
        LineFault::Refused(why)
    }
}

/// Returns the result of a call on the words of a line, with the number of that line in its fault.
pub fn at_line<T>(line: u32, outcome: Result<T, Why>) -> Result<T, ParseFault>
    ensures { result ≡ at_line line outcome }
{
    outcome.map_err(|why| ParseFault { line, why })
}
