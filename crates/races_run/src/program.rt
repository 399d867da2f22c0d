//! The program, over any reader and writers.
ghost use Rattle.std.specs.Prelude.{◌≡◌, [], ◌∷◌, map, string_bytes, Contains};
ghost use Rattle.counted_io.specs.Failures.{IsFourIfBroken};
ghost use Rattle.counted_io.specs.Reading.{TakesUpTo};
ghost use Rattle.races_run.specs.Requests.{AsksSomething};
ghost use Rattle.races_run.specs.Statuses.{TellsAsAsked, TellsOutcomes};

use crate::arguments::{Task, requested};
use crate::fault::Fault;
use crate::run::{MOST_READ, outcomes_bytes};
use crate::writing::Form;
use counted_io::Counted;
use race_outcomes::Watch;
use std::alloc::Global;
use std::io;
use std::io::{ErrorKind, Read, Write};

/// The usage line.
const USAGE: &str = "usage: gate_races [--summary] [--states N], with a race on standard input";

/// The status if the answer wasn't written for any reason other than the input.
const NOT_ANSWERED: u8 = 4;

/// Answers the race in `reader`. Returns the program's status, and writes a line to `errors` if it isn't 0.
fn outcomes_reported<R: Read, W: Write, E: Write, H: Watch>(
    alloc: Global,
    form: Form,
    most: Option<u64>,
    reader: &mut Counted<R>,
    writer: &mut Counted<W>,
    errors: &mut E,
    watch: &mut H,
) -> u8
    ensures told { TellsOutcomes form R.remaining W.contents most reader.old writer.old writer.new result }
    ensures broken { IsFourIfBroken reader.old reader.new writer.old writer.new result }
    ensures taken { TakesUpTo R.remaining reader.old reader.new MOST_READ }
{
    match outcomes_bytes(alloc, reader, writer, form, most, watch) {
        Ok(()) => 0,
        Err(fault) => {
            let _ = errors.writeln(fault);
            fault.status()
        }
    }
}

/// Writes to `writer` the outcomes of the race in `reader`, in the form that `args`, the program's arguments, ask for, and returns the
/// program's status: 0 if they were written. Status 2 or 4 comes with a line to `errors`: 2 if
/// the input is no race; 4 if reading, writing or memory was refused, if the search would keep more states than `args`
/// allow by `--states`, or if the arguments ask for something unknown. They are checked before anything is read. If `errors`
/// fails, the line is lost and the status stays. It reports to `watch` how far the search is.
pub fn command<R: Read, W: Write, E: Write, H: Watch>(
    alloc: Global,
    args: &[String],
    reader: &mut Counted<R>,
    writer: &mut Counted<W>,
    errors: &mut E,
    watch: &mut H,
) -> u8
    ensures statuses { Contains (0 ∷ 2 ∷ 4 ∷ []) result }
    ensures told { TellsAsAsked (map string_bytes args.now) R.remaining W.contents reader.old writer.old writer.new result }

    // If the arguments ask for something unknown, nothing is read and nothing is written.
    ensures usage { ¬ (AsksSomething (map string_bytes args.now)) → result ≡ 4 }
    ensures unread { ¬ (AsksSomething (map string_bytes args.now)) → reader.new ≡ reader.old }
    ensures unwritten { ¬ (AsksSomething (map string_bytes args.now)) → writer.new ≡ writer.old }

    // If the reader or the writer broke, the status is 4, whatever else happened.
    ensures broken { IsFourIfBroken reader.old reader.new writer.old writer.new result }
    ensures taken { TakesUpTo R.remaining reader.old reader.new MOST_READ }
{
    match requested(args) {
        Task::Answer(form, most) => {
            outcomes_reported(alloc, form, most, reader, writer, errors, watch)
        }
        Task::Usage => {
            let _ = errors.writeln(USAGE);
            NOT_ANSWERED
        }
    }
}

/// Reports that the arguments couldn't be read, and returns the program's status: memory was refused, or one of them
/// isn't text, so that they ask for something unknown.
pub fn refuse_words<E: Write>(errors: &mut E, why: &io::Error) -> u8
    ensures { result ≡ 4 }
{
    let _ = if why.kind() == ErrorKind::OutOfMemory {
        errors.writeln(Fault::Memory)
    } else {
        errors.writeln(USAGE)
    };
    NOT_ANSWERED
}
