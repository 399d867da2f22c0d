//! The statements of a text: its lines that aren't empty or comments.
ghost use Rattle.std.specs.Prelude.{◌≡◌, ◌<◌, ◌∷◌, length, ◌+◌, ◌^◌, [], IfNone, MatchOption, true};
ghost use Rattle.std.specs.Iterator.{YieldsFirstRef, item_count};
ghost use Rattle.std.specs.Str.Lines.{strip_carriage_return};
ghost use Rattle.line_text.specs.Text.{lines_of, words_of};
ghost use Rattle.std.specs.Str.{is_utf8, IsAscii};
ghost use Rattle.line_text.specs.Statements.{after_first, first_or, says_nothing, statements, unread};

use crate::fault::{ParseFault, Why, at_line};
use crate::word_list::{Words, without_blanks};
use memchr::memchr;
use std::marker::Model;

/// The lines of a text that are left. In contracts it is the list of them.
#[derive(Debug, Drop)]
struct Lines<'a> {
    rest: &'a [u8],
}

impl<'a> Model for Lines<'a> {
    ghost use Rattle.std.specs.Prelude.{List, ℕ};
    ghost use Rattle.line_text.specs.Text.{lines_of};

    ghost Value = { List (List ℕ) };

    ghost view = { λ l. lines_of l.rest.now };
}

impl<'a> Lines<'a> {
    fn new(text: &'a [u8]) -> Self
        ensures { result ≡ lines_of text.now }
    {
        Lines { rest: text }
    }
}

fn without_return(line: &[u8]) -> &[u8]
    ensures { result.now ≡ strip_carriage_return line.now }
{
    if !line.is_empty() && line[line.len() - 1] == b'\r' {
        &line[..line.len() - 1]
    } else {
        line
    }
}

// Returns the first line of a text that has one, and what follows its line feed.
fn first_line(text: &[u8]) -> (&[u8], &[u8])
    requires { 0 < length text.now }
    ensures { lines_of text.now ≡ strip_carriage_return result.0.now ∷ lines_of result.1.now }
{
    match memchr(b'\n', text) {
        Some(end) => (&text[..end], &text[end + 1..]),
        None => (text, &[]),
    }
}

impl<'a> Iterator for Lines<'a> {
    type Item = &'a [u8];

    ghost next_gives = { YieldsFirstRef (λ s. s) };

    ghost remaining = { item_count (λ s. s) };

    fn next(&mut self) -> Option<&'a [u8]> {
        if self.rest.is_empty() {
            return None;
        }
        let (line, rest) = first_line(self.rest);
        self.rest = rest;
        Some(without_return(line))
    }
}

/// Maximum number of bytes of a text: 1,048,576.
pub const LONGEST_TEXT: usize = 1_048_576;

/// The statements of a text that are left. A line without words, and a line whose first word begins with `#`, are
/// skipped. In contracts it is the list of the statements, each with its line number and its words, and the number of
/// the line after the last.
#[derive(Drop)]
pub struct Statements<'a> {
    lines: Lines<'a>,
    before: u32,
}

impl<'a> Model for Statements<'a> {
    ghost use Rattle.std.specs.Prelude.{◌+◌, ◌<◌, ◌^◌, length};
    ghost use Rattle.line_text.specs.Statements.{Unread, statements};

    ghost Value = { Unread };

    ghost view = { λ s. record { said = statements (s.before + 1) s.lines; end = s.before + length s.lines + 1 } };

    ghost invariant = { λ s. s.before + length s.lines + 1 < 2 ^ 32 };
}

fn is_ascii(line: &[u8]) -> bool
    ensures { result ≡ true → IsAscii line.now }
{
    for byte in line {
        if *byte >= 128 {
            return false;
        }
    }
    true
}

// Returns whether a line is UTF-8. Most are ASCII, for which a look at each byte takes less time.
fn is_text(line: &[u8]) -> bool
    ensures { result ≡ is_utf8 line.now }
{
    is_ascii(line) || std::str::from_utf8(line).is_ok()
}

// Returns whether the line has no words or is a comment.
fn says_nothing(line: &[u8]) -> bool
    ensures { result ≡ says_nothing (words_of line.now) }
{
    match without_blanks(line) {
        [first, ..] => *first == b'#',
        [] => true,
    }
}

// Takes lines up to the first statement.
fn next_said<'a>(lines: &mut Lines<'a>, before: &mut u32) -> Option<(u32, Result<Words<'a>, Why>)>
    requires { before.old + length lines.old + 1 < 2 ^ 32 }
    ensures all { before.new + length lines.new ≡ before.old + length lines.old }
    ensures said { MatchOption result
        (statements (before.old + 1) lines.old ≡ [])
        (λ said. statements (before.old + 1) lines.old ≡ said ∷ statements (before.new + 1) lines.new) }
    ensures end { IfNone result (lines.new ≡ []) }
{
    while let Some(line) = lines.next() {
        *before += 1;
        if !is_text(line) {
            return Some((*before, Err(Why::NotUtf8)));
        }
        if !says_nothing(line) {
            return Some((*before, Ok(Words::new(line))));
        }
    }
    None
}

impl<'a> Statements<'a> {
    /// Returns the statements of `text`, or `TooLong` at line 1 if the text has more than [`LONGEST_TEXT`] bytes.
    pub fn new(text: &'a [u8]) -> Result<Self, ParseFault>
        ensures { result ≡ unread text.now }
    {
        if text.len() > LONGEST_TEXT {
            return Err(ParseFault {
                line: 1,
                why: Why::TooLong,
            });
        }
        Ok(Statements {
            lines: Lines::new(text),
            before: 0,
        })
    }

    /// Returns the next statement: its line number, counted from 1, and its words, or `NotUtf8` instead of the words if the line
    /// isn't UTF-8. Such a line isn't skipped, whatever is on it. Returns `None` at the end.
    pub fn next(&mut self) -> Option<(u32, Result<Words<'a>, Why>)>
        ensures said { MatchOption result (self.old.said ≡ []) (λ said. self.old.said ≡ said ∷ self.new.said) }
        ensures rest { self.new ≡ after_first self.old }
    {
        next_said(&mut self.lines, &mut self.before)
    }

    /// Returns the line number and the words of the next statement. If there is none, `missing` is the fault, at the line after the
    /// last. Returns `NotUtf8` if the line isn't UTF-8; that line is taken too.
    pub fn next_or(&mut self, missing: Why) -> Result<(u32, Words<'a>), ParseFault>
        ensures first { result ≡ first_or missing self.old }
        ensures rest { self.new ≡ after_first self.old }
    {
        match next_said(&mut self.lines, &mut self.before) {
            Some((line, said)) => Ok((line, at_line(line, said)?)),
            None => Err(ParseFault {
                line: self.before + 1,
                why: missing,
            }),
        }
    }
}
