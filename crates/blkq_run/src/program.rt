//! The program, over any reader and writers.
ghost use Rattle.std.specs.Prelude.{◌≡◌, ◌↔◌, ℕ, map, string_bytes, Some, [], ◌∷◌, Contains};
ghost use Rattle.line_text.specs.Numbers.{number_in};
ghost use Rattle.blkq_run.specs.Requests.{AsksReplay, AsksRun, Spells, AsksSomeRun, AsksSomething};
ghost use Rattle.blk_workers.specs.Sizes.{Sizes, AreWithin};
ghost use Rattle.counted_io.specs.Failures.{IsFourIfBroken};
ghost use Rattle.counted_io.specs.Reading.{TakesUpTo};
ghost use Rattle.blkq_run.specs.Statuses.{TellsReplay, TellsRun};

use crate::fault::Fault;
use crate::replay_report::replay_reported;
use crate::run::{MOST_READ, run_bytes};
use blk_workers::{Config, NoStall, Stall};
use counted_io::Counted;
use line_text::{Why, short_number};
use std::alloc::Global;
use std::io;
use std::io::{ErrorKind, Read, Write};
use std::sync::Wait;
use std::thread::Threads;

/// What the arguments ask for.
#[derive(Clone, Copy, Debug, PartialEq, Eq)]
pub enum Task {
    /// Run the script that the input has.
    Run(Config),
    /// Replay the schedule that the input has.
    Replay,
    /// Print the usage.
    Usage,
}

/// Reads `word` as a script reads a number.
fn number(word: &str) -> Result<u32, Why>
    ensures { result ≡ number_in 0 4294967295 word.now }
{
    short_number(word.as_bytes(), 0, u32::MAX)
}

/// Returns the sizes of a run that three words spell, if they are within the limits.
fn run_of(workers: &str, slots: &str, tags: &str) -> Option<Config>
    ensures { (sizes : Sizes) → (result ≡ Some sizes)
        ↔ (Spells workers.now sizes.workers × Spells slots.now sizes.slots × Spells tags.now sizes.tags × AreWithin sizes) }
{
    match (number(workers), number(slots), number(tags)) {
        (Ok(workers), Ok(slots), Ok(tags)) => Config::new(workers, slots, tags),
        _ => None,
    }
}

/// Returns what `words`, the arguments after the program's name, ask for: `run`, alone or with three numbers, or `replay`
/// alone. Anything else is `Usage`: other words, another number of words, a word that isn't a number of 1 to 20 digits, or
/// a number outside the limits.
pub fn requested(words: &[String]) -> Task
    ensures run { (sizes : Sizes) → (result ≡ Task.Run sizes) ↔ AsksRun (map string_bytes words.now) sizes }
    ensures replay { (result ≡ Task.Replay) ↔ AsksReplay (map string_bytes words.now) }
{
    match words {
        [word] if word.as_str() == "run" => Task::Run(Config::default()),
        [word] if word.as_str() == "replay" => Task::Replay,
        [word, workers, slots, tags] if word.as_str() == "run" => {
            match run_of(workers.as_str(), slots.as_str(), tags.as_str()) {
                Some(config) => Task::Run(config),
                None => Task::Usage,
            }
        }
        _ => Task::Usage,
    }
}

/// The usage.
const USAGE: &str = "usage: blkq run [WORKERS SLOTS TAGS] or blkq replay";

/// Exit status if the output wasn't written, for any reason except the input.
const NOT_RUN: u8 = 4;

/// Runs the script that `reader` has and returns the exit status; writes a line to `errors` if it isn't 0.
fn run_reported<R: Read, W: Write, E: Write>(
    rt: &(impl Threads + Wait + Sync),
    alloc: Global,
    config: Config,
    reader: &mut Counted<R>,
    writer: &mut Counted<W>,
    errors: &mut E,
    stall: &impl Stall,
) -> u8
    ensures told { TellsRun R.remaining W.contents reader.old writer.old writer.new result }
    ensures broken { IsFourIfBroken reader.old reader.new writer.old writer.new result }
    ensures taken { TakesUpTo R.remaining reader.old reader.new MOST_READ }
{
    match run_bytes(rt, alloc, reader, writer, config, stall) {
        Ok(()) => 0,
        Err(fault) => {
            let _ = errors.writeln(fault);
            fault.status()
        }
    }
}

/// Does what `args`, the arguments after the program's name, ask for, and returns the exit status:
///
/// - 0: the output for what `reader` has was written to `writer`.
/// - 2: the input isn't a script or a schedule.
/// - 3: requests of the script overlap; or a replay ended at a step that isn't enabled, as its last line says.
/// - 4: reading or writing failed, memory was refused, a thread couldn't be started, or the arguments are wrong. With wrong
///   arguments nothing is read.
///
/// Writes a line to `errors` if the status isn't 0, except for a replay of status 3. If `errors` fails, that line is lost and the
/// status stays. Without numbers a run has 4 workers, 8 slots and 16 tags.
pub fn command<R: Read, W: Write, E: Write>(
    rt: &(impl Threads + Wait + Sync),
    alloc: Global,
    args: &[String],
    reader: &mut Counted<R>,
    writer: &mut Counted<W>,
    errors: &mut E,
) -> u8
    ensures statuses { Contains (0 ∷ 2 ∷ 3 ∷ 4 ∷ []) result }
    ensures run { AsksSomeRun (map string_bytes args.now)
        → TellsRun R.remaining W.contents reader.old writer.old writer.new result }
    ensures replay { AsksReplay (map string_bytes args.now)
        → TellsReplay R.remaining W.contents reader.old writer.old writer.new result }

    // If the arguments ask for neither, nothing is read and nothing is written.
    ensures usage { ¬ (AsksSomething (map string_bytes args.now)) → result ≡ 4 }
    ensures unread { ¬ (AsksSomething (map string_bytes args.now)) → reader.new ≡ reader.old }
    ensures unwritten { ¬ (AsksSomething (map string_bytes args.now)) → writer.new ≡ writer.old }

    // If the reader or the writer broke, the status is 4, whatever else went wrong.
    ensures broken { IsFourIfBroken reader.old reader.new writer.old writer.new result }
    ensures taken { TakesUpTo R.remaining reader.old reader.new MOST_READ }
{
    command_held(rt, alloc, args, reader, writer, errors, &NoStall)
}

/// Like [`command`], but `stall` may hold the run at each of its points, for tests that observe the workers.
pub fn command_held<R: Read, W: Write, E: Write>(
    rt: &(impl Threads + Wait + Sync),
    alloc: Global,
    args: &[String],
    reader: &mut Counted<R>,
    writer: &mut Counted<W>,
    errors: &mut E,
    stall: &impl Stall,
) -> u8
    ensures statuses { Contains (0 ∷ 2 ∷ 3 ∷ 4 ∷ []) result }
    ensures run { AsksSomeRun (map string_bytes args.now)
        → TellsRun R.remaining W.contents reader.old writer.old writer.new result }
    ensures replay { AsksReplay (map string_bytes args.now)
        → TellsReplay R.remaining W.contents reader.old writer.old writer.new result }

    // If the arguments ask for neither, nothing is read and nothing is written.
    ensures usage { ¬ (AsksSomething (map string_bytes args.now)) → result ≡ 4 }
    ensures unread { ¬ (AsksSomething (map string_bytes args.now)) → reader.new ≡ reader.old }
    ensures unwritten { ¬ (AsksSomething (map string_bytes args.now)) → writer.new ≡ writer.old }

    // If the reader or the writer broke, the status is 4, whatever else went wrong.
    ensures broken { IsFourIfBroken reader.old reader.new writer.old writer.new result }
    ensures taken { TakesUpTo R.remaining reader.old reader.new MOST_READ }
{
    match requested(args) {
        Task::Run(config) => run_reported(rt, alloc, config, reader, writer, errors, stall),
        Task::Replay => replay_reported(alloc, reader, writer, errors),
        Task::Usage => {
            let _ = errors.writeln(USAGE);
            NOT_RUN
        }
    }
}

/// Reports that the arguments couldn't be read, because memory was refused or one of them isn't UTF-8, and returns the exit status.
pub fn refuse_words<E: Write>(errors: &mut E, why: &io::Error) -> u8
    ensures { result ≡ 4 }
{
    let _ = if why.kind() == ErrorKind::OutOfMemory {
        errors.writeln(Fault::Memory)
    } else {
        errors.writeln(USAGE)
    };
    NOT_RUN
}
