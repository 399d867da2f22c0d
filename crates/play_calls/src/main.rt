//! Rows of calls, played on a gate or a queue.
//!
//! The program reads a gate or a queue and its calls from standard input, makes these calls one after another, and writes the
//! answer to each. docs/FORMATS.md has the format, and tests/rows the rows.
#![tactic(auto)]

mod answer;
mod gate;
mod gate_calls;
mod queue;
mod queue_calls;
mod rows;

use crate::rows::answered;
use counted_io::{Counted, read_whole, write_whole};
use line_text::{LONGEST_TEXT, ScriptFault};
use std::alloc::Global;
use std::io::{Read, Write};
use std::process::ExitCode;

/// Maximum number of bytes read: one more than the longest text.
const MOST_READ: usize = LONGEST_TEXT + 1;

/// Makes the calls that `reader` has, writes their answers, and returns the exit status: 0, 2 if the text has a fault, or 4 if
/// reading or writing failed or memory was refused. If it isn't 0, writes a line with the fault to `errors`.
fn command<R: Read, W: Write, E: Write>(
    alloc: Global,
    reader: &mut Counted<R>,
    writer: &mut Counted<W>,
    errors: &mut E,
) -> u8 {
    let input = match read_whole(alloc, reader, MOST_READ) {
        Ok(input) => input,
        Err(fault) => {
            let _ = errors.writeln(fault);
            return 4;
        }
    };
    let answers = match answered(alloc, &input) {
        Ok(answers) => answers,
        Err(fault) => {
            let _ = errors.writeln(fault);
            return if fault == ScriptFault::Memory { 4 } else { 2 };
        }
    };
    match write_whole(writer, &answers) {
        Ok(()) => 0,
        Err(fault) => {
            let _ = errors.writeln(fault);
            4
        }
    }
}

fn main(rt: HostRuntime) -> ExitCode {
    let (mut reader, mut writer) = (Counted::new(rt.stdin()), Counted::new(rt.stdout()));
    let mut errors = rt.stderr();
    ExitCode::from(command(rt.alloc(), &mut reader, &mut writer, &mut errors))
}
