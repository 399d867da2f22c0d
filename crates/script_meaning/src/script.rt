//! A script: its version, and its lines with what each asks.
ghost use Rattle.std.specs.Prelude.{◌≡◌, ◌≤◌, length, ◌<◌, IfSome, IfNone, IfOk, OnErr};
ghost use Rattle.ram_disk.specs.declared.pattern.TheConstants.{MAX_PATTERN};
ghost use Rattle.script_meaning.specs.declared.script.TheConstants.{MOST_SHORT};
ghost use Rattle.script_meaning.specs.Script.{version_number, Meant, orders};
ghost use Rattle.queue_limits.specs.declared.limits.TheConstants.{HARDWARE_LIMIT};
ghost use Rattle.ram_disk.specs.declared.disk.TheConstants.{MAX_SECTORS};

use std::alloc::{AllocError, Global};
use std::marker::Model;

/// How the queue of a script counts requests in flight. A run of the script derives the mode of its own queue from this one.
#[derive(Clone, Copy, Debug, PartialEq, Eq)]
pub enum Mode {
    /// On one shared word.
    Atomic,
    /// On slots.
    Slots,
}

/// What a line of a script asks of the queue. Positions and lengths are in sectors of 512 bytes.
#[derive(Debug, Drop)]
pub enum What {
    /// Read `count` sectors, starting with sector `start`.
    Read {
        start: u32,
        count: u32,
    },
    /// Write `count` sectors, starting with sector `start`, with the pattern's bytes repeated over the range.
    Write {
        start: u32,
        count: u32,
        pattern: Pattern,
    },
    /// Freeze the queue once more.
    Freeze,
    /// Undo one freeze.
    Thaw,
    /// Set the maximum number of sectors of a request; 0 means what the hardware takes.
    SetMax(u32),
    /// Set the sectors of a chunk; 0 means none.
    SetChunk(u32),
    /// Set the sectors of a physical block of the device.
    SetPhysical(u32),
    /// Count requests in this mode.
    SetMode(Mode),
    /// Report the counts and limits.
    Stat,
    /// Remove the queue.
    Remove,
}

/// A line of a script that asks something.
#[derive(Debug, Drop)]
pub struct Line {
    /// The line's number in the text, from 1.
    pub number: u32,
    pub what: What,
}

/// The 1 to 64 bytes that a write repeats over its range. Contracts see the list of the bytes.
#[derive(Debug, Drop)]
pub struct Pattern {
    bytes: Bytes,
}

// Patterns of up to 8 bytes, which most are, take no memory of their own.
#[derive(Debug, Drop)]
enum Bytes {
    Short(ShortBytes),
    Long(Vec<u8>),
}

impl Model for Pattern {
    ghost use Rattle.std.specs.Prelude.{List, ℕ, ◌≤◌, length};
    ghost use Rattle.ram_disk.specs.declared.pattern.TheConstants.{MAX_PATTERN};
    ghost use Rattle.script_meaning.specs.Pattern.{bytes_of};

    ghost Value = { List ℕ };

    ghost view = { λ p. bytes_of p.bytes };

    ghost invariant = { λ p. (1 ≤ length (bytes_of p.bytes)) × (length (bytes_of p.bytes) ≤ MAX_PATTERN) };
}

impl Pattern {
    /// Makes a pattern of 1 to 64 bytes. Takes memory, and returns an error if it is refused, only for more than 8 bytes.
    pub fn new(alloc: Global, bytes: &[u8]) -> Result<Self, AllocError>
        requires some { 1 ≤ length bytes.now }
        requires few { length bytes.now ≤ MAX_PATTERN }
        ensures value { IfOk result (λ pattern. pattern ≡ bytes.now) }
        ensures refused { OnErr result (MOST_SHORT < length bytes.now) }
    {
        let bytes = match ShortBytes::of(bytes) {
            Some(short) => Bytes::Short(short),
            None => Bytes::Long(Vec::from_slice(alloc, bytes)?),
        };
        Ok(Pattern { bytes })
    }

    /// Returns the bytes.
    pub fn bytes(&self) -> &[u8]
        ensures value { result.now ≡ self.now }
        ensures some { 1 ≤ length self.now }
        ensures few { length self.now ≤ MAX_PATTERN }
    {
        match &self.bytes {
            Bytes::Short(bytes) => bytes.as_slice(),
            Bytes::Long(bytes) => bytes.as_slice(),
        }
    }
}

/// The maximum number of bytes of a [`ShortBytes`].
pub(crate) const MOST_SHORT: usize = 8;

/// Up to 8 bytes, kept in the value itself. Contracts see the list of them.
#[derive(Debug, Drop)]
struct ShortBytes {
    bytes: [u8; MOST_SHORT],
    count: u8,
}

impl Model for ShortBytes {
    ghost use Rattle.std.specs.Prelude.{List, ℕ, ◌≤◌, take};
    ghost use Rattle.script_meaning.specs.declared.script.TheConstants.{MOST_SHORT};

    ghost Value = { List ℕ };

    ghost view = { λ s. take s.count s.bytes };

    ghost invariant = { λ s. s.count ≤ MOST_SHORT };
}

impl ShortBytes {
    /// Returns these bytes, or `None` if there are more than 8.
    fn of(bytes: &[u8]) -> Option<ShortBytes>
        ensures short { IfSome result (λ short. short ≡ bytes.now) }
        ensures long { IfNone result (MOST_SHORT < length bytes.now) }
    {
        let count = bytes.len();
        if count > MOST_SHORT {
            return None;
        }
        let mut place = [0; MOST_SHORT];
        place[..count].copy_from_slice(bytes);
        Some(ShortBytes {
            bytes: place,
            count: count as u8,
        })
    }

    /// Returns the bytes.
    fn as_slice(&self) -> &[u8]
        ensures { result.now ≡ self.now }
    {
        &self.bytes[..usize::from(self.count)]
    }
}

/// The version of a script. The versions differ in how they treat requests that overlap, and only version 2 has physical block
/// sizes.
#[derive(Clone, Copy, Debug, PartialEq, Eq)]
pub enum Version {
    /// A script in which requests overlap is refused.
    One,
    /// The queue drains before a request that overlaps a request of the span that it would join.
    Two,
}

impl Version {
    /// Returns the number in a script's first line: 1 or 2.
    pub fn number(&self) -> u32
        ensures { result ≡ version_number self.now }
    {
        match self {
            Version::One => 1,
            Version::Two => 2,
        }
    }
}

/// A parsed script: its version, the disk, the limit of the hardware, and the lines that ask something.
#[derive(Debug, Drop)]
pub struct Script {
    version: Version,
    sectors: u32,
    hardware: u32,
    lines: Vec<Line>,
}

impl Model for Script {
    ghost use Rattle.std.specs.Prelude.{◌≤◌};
    ghost use Rattle.queue_limits.specs.declared.limits.TheConstants.{HARDWARE_LIMIT};
    ghost use Rattle.ram_disk.specs.declared.disk.TheConstants.{MAX_SECTORS};
    ghost use Rattle.script_meaning.specs.Script.{Meant};

    ghost Value = { Meant };

    ghost view = { λ s. record { version = s.version; sectors = s.sectors; hardware = s.hardware; lines = s.lines.items } };

    ghost invariant = { λ s. (1 ≤ s.sectors) × (s.sectors ≤ MAX_SECTORS) × (1 ≤ s.hardware) × (s.hardware ≤ HARDWARE_LIMIT) };
}

impl Script {
    /// Makes a script on a disk of 1 to 4,096 sectors, whose hardware takes 1 to 65,535 sectors in one request.
    pub fn new(version: Version, sectors: u32, hardware: u32, lines: Vec<Line>) -> Self
        requires some_sectors { 1 ≤ sectors }
        requires few_sectors { sectors ≤ MAX_SECTORS }
        requires some_hardware { 1 ≤ hardware }
        requires few_hardware { hardware ≤ HARDWARE_LIMIT }
        ensures { result ≡ record { version = version; sectors = sectors; hardware = hardware; lines = lines.items } }
    {
        Script {
            version,
            sectors,
            hardware,
            lines,
        }
    }

    /// Returns the number of the script's version: 1 or 2.
    pub fn version(&self) -> u32
        ensures { result ≡ version_number self.now.version }
    {
        self.version.number()
    }

    // Returns the script's version.
    pub(crate) fn form(&self) -> Version
        ensures { result ≡ self.now.version }
    {
        self.version
    }

    /// Returns whether overlapping requests are ordered by a drain, as in version 2. In version 1 they cause the script to be
    /// refused.
    pub fn orders_overlaps(&self) -> bool
        ensures { result ≡ orders self.now.version }
    {
        match self.version {
            Version::One => false,
            Version::Two => true,
        }
    }

    /// Returns the number of sectors of the disk, 512 bytes each: 1 to 4,096.
    pub fn disk(&self) -> u32
        ensures value { result ≡ self.now.sectors }
        ensures some { 1 ≤ result }
        ensures few { result ≤ MAX_SECTORS }
    {
        self.sectors
    }

    /// Returns how many sectors the hardware takes in one request: 1 to 65,535.
    pub fn hw(&self) -> u32
        ensures value { result ≡ self.now.hardware }
        ensures some { 1 ≤ result }
        ensures few { result ≤ HARDWARE_LIMIT }
    {
        self.hardware
    }

    /// Returns the lines that ask something, in order.
    pub fn lines(&self) -> &[Line]
        ensures { result.now ≡ self.now.lines }
    {
        self.lines.as_slice()
    }
}
