//! A text, written whole or as far as the writer takes it.
ghost use Rattle.std.specs.Prelude.{◌≡◌, ◌<◌, ◌≤◌, length, take, true, is_err, IfErr, IfOk, OnErr, OnOk};
ghost use Rattle.counted_io.specs.Failures.{Breaks, GivesUp, HasFailed};
ghost use Rattle.counted_io.specs.Writing.{Takes, TakesNothing};

use crate::TRIES;
use crate::counted::{Counted, lasts};
use std::io::Write;
use thiserror::Error;

/// The fault of a writer that failed, with how much it had taken.
#[derive(Clone, Copy, Debug, PartialEq, Eq, Error)]
#[error("write")]
pub struct WriteFault {
    /// The number of bytes written.
    pub written: u64,
}

/// The writer takes nothing more.
#[derive(Clone, Copy)]
struct Refused;

/// Writes once, and tries again if a signal interrupts it. Returns the number of bytes that were taken: at least 1.
/// Returns `Err` if the writer fails, takes nothing, or is interrupted `TRIES` times in a row.
fn write_piece<W: Write>(writer: &mut Counted<W>, text: &[u8]) -> Result<usize, Refused>
    requires { 0 < length text.now }
    ensures some { IfOk result (λ n. 0 < n) }
    ensures bound { IfOk result (λ n. n ≤ length text.now) }
    ensures appended { IfOk result (λ n. Takes W.contents writer.old writer.new (take n text.now)) }
    ensures none { OnErr result (TakesNothing W.contents writer.old writer.new) }
    ensures grown { OnErr result (HasFailed writer.old writer.new) }
    ensures patient { OnErr result (GivesUp TRIES writer.old writer.new) }
    ensures counts { writer.old.failures ≤ writer.new.failures }
    ensures whole { OnOk result (writer.new.breaks ≡ writer.old.breaks) }
{
    for _ in 0..TRIES {
        match writer.write(text) {
            Ok(0) => return Err(Refused),
            Ok(n) => return Ok(n),
            Err(e) => {
                if lasts(&e) {
                    return Err(Refused);
                }
            }
        }
    }
    Err(Refused)
}

/// Writes `text`: each write offers all that is left, so that there are as few writes as the writer allows. It doesn't
/// flush: that is up to the writer's owner.
///
/// Returns `Err` if the writer fails or takes nothing, and writes nothing more: exactly the first `written` bytes went
/// out. A write that a signal interrupts is tried again, up to [`TRIES`] times in a row.
pub fn write_whole<W: Write>(writer: &mut Counted<W>, text: &[u8]) -> Result<(), WriteFault>
    ensures whole { OnOk result (Takes W.contents writer.old writer.new text.now) }
    ensures part { IfErr result (λ fault. Takes W.contents writer.old writer.new (take fault.written text.now)) }
    ensures short { IfErr result (λ fault. fault.written < length text.now) }
    ensures grown { OnErr result (HasFailed writer.old writer.new) }
    ensures patient { OnErr result (GivesUp TRIES writer.old writer.new) }
    ensures first { Breaks writer.old writer.new → is_err result ≡ true }
{
    let mut written = 0;
    while written < text.len() {
        match write_piece(writer, &text[written..]) {
            Ok(count) => written += count,
            Err(Refused) => {
                return Err(WriteFault {
                    written: written as u64,
                });
            }
        }
    }
    Ok(())
}
