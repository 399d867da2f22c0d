//! The lines of the replies to a script's lines, in order.
ghost use Rattle.std.specs.Prelude.{◌≡◌, ◌<◌, IfSome, IfNone, length, ◌^◌, ◌++◌, ◌∷◌, [], Some, IfOk, OnOk, OnErr, map, true, None, set};
ghost use Rattle.in_flight.specs.declared.replies.TheConstants.{MOST_SHORT};
ghost use Rattle.in_flight.specs.Table.{joined, is_owed, owed_count};

use std::alloc::{AllocError, Global};
use std::collections::VecDeque;
use std::marker::Model;
use std::mem;

/// The maximum number of bytes of a line that takes no memory of its own.
pub(crate) const MOST_SHORT: usize = 22;

/// The line of one reply. Contracts see its bytes.
#[derive(Drop)]
pub struct Text {
    bytes: Bytes,
}

// Lines of up to 22 bytes, such as those of small requests, go from thread to thread in the value itself, which is small enough for a
// completion to fit in one cache line.
#[derive(Drop)]
enum Bytes {
    Short(ShortLine),
    Long(Box<Vec<u8>>),
}

impl Model for Text {
    ghost use Rattle.std.specs.Prelude.{List, ℕ};
    ghost use Rattle.in_flight.specs.Lines.{bytes_of};

    ghost Value = { List ℕ };

    ghost view = { λ t. bytes_of t.bytes };
}

impl Text {
    /// Makes a line of the bytes of a room, which a short line leaves its memory.
    pub(crate) fn of(alloc: Global, room: &mut Vec<u8>) -> Result<Text, AllocError>
        ensures { IfOk result (λ text. text ≡ room.old.items) }
    {
        match ShortLine::of(room) {
            Some(short) => Ok(Text {
                bytes: Bytes::Short(short),
            }),
            None => Text::new(alloc, mem::replace(room, Vec::new(alloc))),
        }
    }

    /// Makes a line of these bytes.
    pub(crate) fn new(alloc: Global, bytes: Vec<u8>) -> Result<Text, AllocError>
        ensures { IfOk result (λ text. text ≡ bytes.items) }
    {
        let bytes = match ShortLine::of(&bytes) {
            Some(short) => Bytes::Short(short),
            None => Bytes::Long(Box::new(alloc, bytes)?),
        };
        Ok(Text { bytes })
    }

    /// Returns the bytes.
    pub(crate) fn bytes(&self) -> &[u8]
        ensures { result.now ≡ self.now }
    {
        match &self.bytes {
            Bytes::Short(bytes) => bytes.as_slice(),
            Bytes::Long(bytes) => bytes.as_slice(),
        }
    }
}

// Up to 22 bytes, kept in the value itself. Contracts see the list of them.
#[derive(Drop)]
struct ShortLine {
    bytes: [u8; MOST_SHORT],
    count: u8,
}

impl Model for ShortLine {
    ghost use Rattle.std.specs.Prelude.{List, ℕ, ◌≤◌, take};
    ghost use Rattle.in_flight.specs.declared.replies.TheConstants.{MOST_SHORT};

    ghost Value = { List ℕ };

    ghost view = { λ s. take s.count s.bytes };

    ghost invariant = { λ s. s.count ≤ MOST_SHORT };
}

impl ShortLine {
    // Returns these bytes, or `None` if there are more than 22.
    fn of(bytes: &[u8]) -> Option<ShortLine>
        ensures short { IfSome result (λ short. short ≡ bytes.now) }
        ensures long { IfNone result (MOST_SHORT < length bytes.now) }
    {
        let count = bytes.len();
        if count > MOST_SHORT {
            return None;
        }
        let mut place = [0; MOST_SHORT];
        place[..count].copy_from_slice(bytes);
        Some(ShortLine {
            bytes: place,
            count: count as u8,
        })
    }

    fn as_slice(&self) -> &[u8]
        ensures { result.now ≡ self.now }
    {
        &self.bytes[..usize::from(self.count)]
    }
}

/// Lines that are joined in one text, one after another. Contracts see each line's bytes.
#[derive(Drop)]
struct JoinedLines {
    text: Vec<u8>,
    lengths: Vec<usize>,
}

impl Model for JoinedLines {
    ghost use Rattle.std.specs.Prelude.{◌≡◌, List, ℕ, length, sum};
    ghost use Rattle.in_flight.specs.Lines.{lines_of};

    ghost Value = { List (List ℕ) };

    ghost view = { λ l. lines_of l.lengths.items l.text.items };

    ghost invariant = { λ l. sum l.lengths.items ≡ length l.text.items };
}

impl JoinedLines {
    /// Makes an empty text, with room for the lengths of `room` lines.
    fn new(alloc: Global, room: usize) -> Result<JoinedLines, AllocError>
        ensures { IfOk result (λ lines. lines ≡ []) }
    {
        Ok(JoinedLines {
            text: Vec::new(alloc),
            lengths: Vec::with_capacity(alloc, room)?,
        })
    }

    /// Returns the number of lines.
    #[tactic(auto, using(crate::proofs::TextLines::count_lines))]
    fn len(&self) -> usize
        ensures value { result ≡ length self.now }
        ensures few { result < 2 ^ 63 }
    {
        self.lengths.len()
    }

    /// Appends a line.
    fn push(&mut self, line: &[u8]) -> Result<(), AllocError>
        ensures ok { OnOk result (self.new ≡ self.old ++ line.now ∷ []) }
        ensures err { OnErr result (self.new ≡ self.old) }
    {
        self.lengths.reserve(1)?;
        self.text.extend_from_slice(line)?;
        self.lengths.push_reserved(line.len());
        Ok(())
    }

    /// Returns the whole text.
    fn into_text(self) -> Vec<u8>
        ensures { result.items ≡ joined (map Some self) }
    {
        let JoinedLines { text, lengths: _ } = self;
        text
    }
}

/// The lines of the replies to the script's lines that were taken, in order. A reply is there, or is owed to a request in flight.
///
/// As more lines are taken, those before the first owed reply are put into one text, so that no line is held twice.
#[derive(Drop)]
pub struct Replies {
    told: JoinedLines,
    rest: VecDeque<Option<Text>>,
    owed: usize,
}

impl Model for Replies {
    ghost use Rattle.std.specs.Prelude.{◌≡◌, ◌++◌, List, ℕ, Option, Some, map};
    ghost use Rattle.in_flight.specs.Table.{owed_count};

    ghost Value = { List (Option (List ℕ)) };

    ghost view = { λ r. map Some r.told ++ r.rest.items };

    ghost invariant = { λ r. r.owed ≡ owed_count r.rest.items };
}

impl Replies {
    /// Makes an empty list of replies, with room for `room` replies.
    pub fn new(alloc: Global, room: usize) -> Result<Replies, AllocError>
        ensures { IfOk result (λ replies. replies ≡ []) }
    {
        Ok(Replies {
            told: JoinedLines::new(alloc, room)?,
            rest: VecDeque::new(alloc),
            owed: 0,
        })
    }

    /// Returns the number of lines that were taken.
    #[tactic(auto, using(crate::proofs::TextLines::count_both))]
    pub fn len(&self) -> usize
        ensures { result ≡ length self.now }
    {
        self.told.len() + self.rest.len()
    }

    /// Returns the number of replies that are owed.
    #[tactic(auto, using(crate::proofs::TextLines::count_behind))]
    pub fn owed(&self) -> usize
        ensures { result ≡ owed_count self.now }
    {
        self.owed
    }

    // Appends the first line after the text to the text, unless its reply is owed. Returns whether it did.
    fn join_first(&mut self) -> Result<bool, AllocError>
        ensures { self.new ≡ self.old }
    {
        let Some(Some(line)) = self.rest.front() else {
            return Ok(false);
        };
        self.told.push(line.bytes())?;
        drop(self.rest.pop_front());
        Ok(true)
    }

    // Appends the lines before the first owed reply to the text.
    fn join(&mut self) -> Result<(), AllocError>
        ensures { self.new ≡ self.old }
    {
        for _ in 0..self.rest.len() {
            if !self.join_first()? {
                break;
            }
        }
        Ok(())
    }

    /// Takes one more line, whose reply is there.
    #[tactic(auto, using(crate::proofs::Places::count_push_some))]
    pub(crate) fn push(&mut self, alloc: Global, text: Vec<u8>) -> Result<(), AllocError>
        ensures ok { OnOk result (self.new ≡ self.old ++ Some text.items ∷ []) }
        ensures err { OnErr result (self.new ≡ self.old) }
    {
        self.join()?;
        let text = Text::new(alloc, text)?;
        self.rest.reserve(1)?;
        self.rest.push_back_reserved(Some(text));
        Ok(())
    }

    /// Takes one more line, whose reply is owed.
    #[tactic(auto, using(crate::proofs::Places::count_push_none))]
    pub(crate) fn push_owed(&mut self) -> Result<(), AllocError>
        ensures ok { OnOk result (self.new ≡ self.old ++ None ∷ []) }
        ensures err { OnErr result (self.new ≡ self.old) }
    {
        self.join()?;
        self.rest.reserve(1)?;
        self.rest.push_back_reserved(None);
        self.owed += 1;
        Ok(())
    }

    /// Fills in a reply that was owed.
    pub(crate) fn fill(&mut self, position: usize, text: Text)
        requires { is_owed self.old position ≡ true }
        ensures { self.new ≡ set self.old position (Some text) }
    {
        let place = position - self.told.len();
        self.rest[place] = Some(text);
        self.owed -= 1;
    }

    /// Returns the lines that are there, one after another.
    pub fn into_text(self) -> Result<Vec<u8>, AllocError>
        ensures { IfOk result (λ text. text.items ≡ joined self) }
    {
        let mut text = self.told.into_text();
        add_lines(&mut text, &self.rest)?;
        Ok(text)
    }
}

// Appends a line, if it is there.
fn add_line(text: &mut Vec<u8>, line: &Option<Text>) -> Result<(), AllocError>
    ensures { OnOk result (text.new.items ≡ text.old.items ++ joined (line.now ∷ [])) }
{
    match line {
        Some(line) => text.extend_from_slice(line.bytes()),
        None => Ok(()),
    }
}

// Appends the lines that are there.
fn add_lines(text: &mut Vec<u8>, lines: &VecDeque<Option<Text>>) -> Result<(), AllocError>
    ensures { OnOk result (text.new.items ≡ text.old.items ++ joined lines.now.items) }
{
    for place in 0..lines.len() {
        add_line(text, &lines[place])?;
    }
    Ok(())
}
