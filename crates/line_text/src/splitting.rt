//! A line, split into its words.
ghost use Rattle.std.specs.Prelude.{◌≡◌};
ghost use Rattle.line_text.specs.Text.{words_of};

use crate::word_list::Words;

/// Returns the words of a line, one after another, as bytes: what is between spaces and tabs. A line of spaces and tabs alone has
/// no words. Allocates nothing.
pub fn words(line: &str) -> Words<'_>
    ensures { result ≡ words_of line.now }
{
    Words::new(line.as_bytes())
}
