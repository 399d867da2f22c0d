//! The task that the arguments ask for.
ghost use Rattle.std.specs.Prelude.{◌≡◌, ◌↔◌, ℕ, Option, Some, map, string_bytes};
ghost use Rattle.std.specs.Str.{bytes_eq};
ghost use Rattle.races_run.specs.Requests.{Asks, Bounds, form_in};
ghost use Rattle.races_run.specs.declared.writing.Form.{Form};

use crate::writing::Form;
use line_text::{is_word, long_number};

/// A task of the program.
#[derive(Clone, Copy, Debug, PartialEq, Eq)]
pub enum Task {
    /// Write the outcomes of the race on standard input in this form. The search keeps at most this many states, if a number is
    /// given.
    Answer(Form, Option<u64>),
    /// Print how the program is called.
    Usage,
}

fn is_spelled(word: &String, text: &str) -> bool
    ensures { result ≡ bytes_eq (string_bytes word.now) text.now }
{
    is_word(word.as_bytes(), text)
}

// The form that the first argument asks for, and the arguments after it.
fn form_in(words: &[String]) -> (Form, &[String])
    ensures { (result.0, map string_bytes result.1.now) ≡ form_in (map string_bytes words.now) }
{
    match words {
        [word, rest @ ..] if is_spelled(word, "--summary") => (Form::Summary, rest),
        _ => (Form::Outcomes, words),
    }
}

// The bound on the states that the arguments set, if any; `None` if the arguments aren't a bound.
fn bound_in(words: &[String]) -> Option<Option<u64>>
    ensures { (most : Option ℕ) → (result ≡ Some most) ↔ Bounds (map string_bytes words.now) most }
{
    match words {
        [] => Some(None),
        [word, number] if word.as_str() == "--states" => {
            match long_number(number.as_bytes(), 1, u64::MAX) {
                Ok(most) => Some(Some(most)),
                Err(_) => None,
            }
        }
        _ => None,
    }
}

/// Returns the task that `words`, the arguments, ask for: `--summary` or no word, and then, if the search has to be bounded, `--states`
/// and the maximum number of states that it keeps, from 1. Anything else asks for the usage.
pub fn requested(words: &[String]) -> Task
    ensures { (form : Form) (most : Option ℕ) → (result ≡ Task.Answer form most) ↔ Asks (map string_bytes words.now) form most }
{
    let (form, rest) = form_in(words);
    match bound_in(rest) {
        Some(most) => Task::Answer(form, most),
        None => Task::Usage,
    }
}
