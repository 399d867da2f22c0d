//! The words of a line, and checks of how many are left.
ghost use Rattle.std.specs.Prelude.{◌≡◌, ◌<◌, ◌≤◌, ◌⊎◌, ℕ, true, false, length, slice_index, []};
ghost use Rattle.std.specs.Iterator.{YieldsFirstRef, item_count};
ghost use Rattle.line_text.specs.Text.{words_of, is_blank};
ghost use Rattle.std.specs.Str.{bytes_eq};
ghost use Rattle.line_text.specs.Answers.{Says};
ghost use Rattle.line_text.specs.Words.{no_words, one_word, two_words, three_words};

use crate::fault::Why;
use std::marker::Model;

/// The words of a line that are left: what is between spaces and tabs. In contracts it is the list of them.
#[derive(Debug, Drop)]
pub struct Words<'a> {
    rest: &'a [u8],
}

impl<'a> Model for Words<'a> {
    ghost use Rattle.std.specs.Prelude.{List, ℕ};
    ghost use Rattle.line_text.specs.Text.{words_of};

    ghost Value = { List (List ℕ) };

    ghost view = { λ w. words_of w.rest.now };
}

impl<'a> Words<'a> {
    pub(crate) fn new(line: &'a [u8]) -> Self
        ensures { result ≡ words_of line.now }
    {
        Words { rest: line }
    }

    /// Returns the number of words that are left, and takes none of them.
    pub fn count_left(&self) -> usize
        ensures { result ≡ length self.now }
    {
        Words::new(self.rest).count()
    }
}

fn is_blank(byte: u8) -> bool
    ensures { result ≡ is_blank byte }
{
    byte == b' ' || byte == b'\t'
}

pub(crate) fn without_blanks(line: &[u8]) -> &[u8]
    ensures words { words_of result.now ≡ words_of line.now }
    ensures begins { (result.now ≡ []) ⊎ (is_blank (slice_index result.now 0) ≡ false) }
{
    let mut rest = line;
    while let [first, others @ ..] = rest {
        if !is_blank(*first) {
            break;
        }
        rest = others;
    }
    rest
}

// Returns the length of the word at the beginning of the line.
fn word_len(line: &[u8]) -> usize
    ensures within { result ≤ length line.now }
    ensures word { (k : ℕ) → k < result → is_blank (slice_index line.now k) ≡ false }
    ensures ends { result < length line.now → is_blank (slice_index line.now result) ≡ true }
{
    for (index, byte) in line.iter().enumerate() {
        if is_blank(*byte) {
            return index;
        }
    }
    line.len()
}

impl<'a> Iterator for Words<'a> {
    type Item = &'a [u8];

    ghost next_gives = { YieldsFirstRef (λ s. s) };

    ghost remaining = { item_count (λ s. s) };

    fn next(&mut self) -> Option<&'a [u8]> {
        let line = without_blanks(self.rest);
        if line.is_empty() {
            self.rest = line;
            return None;
        }
        let (word, rest) = line.split_at(word_len(line));
        self.rest = rest;
        Some(word)
    }
}

/// Returns whether a word is this text.
pub fn is_word(word: &[u8], text: &str) -> bool
    ensures { result ≡ bytes_eq word.now text.now }
{
    word == text.as_bytes()
}

/// Checks that no words are left, and returns `ExtraWord` otherwise.
pub fn no_words(mut words: Words<'_>) -> Result<(), Why>
    ensures { Says (λ _. true) result (no_words words.entry) }
{
    match words.next() {
        Some(_) => Err(Why::ExtraWord),
        None => Ok(()),
    }
}

/// Returns the one word that is left, or `MissingWord` if there is none and `ExtraWord` if there are more.
pub fn one_word<'a>(mut words: Words<'a>) -> Result<&'a [u8], Why>
    ensures { Says (λ word. word.now) result (one_word words.entry) }
{
    let word = words.next().ok_or(Why::MissingWord)?;
    no_words(words)?;
    Ok(word)
}

/// Returns the two words that are left, or `MissingWord` if there are fewer and `ExtraWord` if there are more.
pub fn two_words<'a>(mut words: Words<'a>) -> Result<(&'a [u8], &'a [u8]), Why>
    ensures { Says (λ word. (word.0.now, word.1.now)) result (two_words words.entry) }
{
    let first = words.next().ok_or(Why::MissingWord)?;
    let second = words.next().ok_or(Why::MissingWord)?;
    no_words(words)?;
    Ok((first, second))
}

type ThreeWords<'a> = (&'a [u8], &'a [u8], &'a [u8]);

/// Returns the three words that are left, or `MissingWord` if there are fewer and `ExtraWord` if there are more.
pub fn three_words<'a>(mut words: Words<'a>) -> Result<ThreeWords<'a>, Why>
    ensures { Says (λ word. (word.0.now, word.1.now, word.2.now)) result (three_words words.entry) }
{
    let first = words.next().ok_or(Why::MissingWord)?;
    let second = words.next().ok_or(Why::MissingWord)?;
    let third = words.next().ok_or(Why::MissingWord)?;
    no_words(words)?;
    Ok((first, second, third))
}
