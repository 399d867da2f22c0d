//! An input, read to its end or to a limit.
ghost use Rattle.std.specs.Prelude.{◌≡◌, ℕ, ◌+◌, ◌<◌, ◌≤◌, ◌++◌, [], length, take, vec_len, IfErr, IfOk, IfSome, IsErrOf, OnErr, OnOk};
ghost use Rattle.std.specs.Io.{ReadsAtMost};
ghost use Rattle.std.specs.Io.KnownBytes.{Consumes, IsAtEnd, Keeps};
ghost use Rattle.counted_io.specs.Failures.{Breaks, GivesUp, HasFailed};
ghost use Rattle.counted_io.specs.InputFault.{input_number};
ghost use Rattle.counted_io.specs.Reading.{IfKnown, TakesUpTo};

use crate::TRIES;
use crate::counted::{Counted, lasts};
use std::alloc::{AllocError, Global};
use std::io::Read;
use thiserror::Error;

/// Number of bytes asked for in one read.
const PIECE: usize = 65_536;

/// Why an input couldn't be read.
#[derive(Clone, Copy, Debug, PartialEq, Eq, Error)]
pub enum InputFault {
    /// Memory was refused.
    #[error("memory")]
    Memory,
    /// The reader failed.
    #[error("read")]
    Read,
}

impl InputFault {
    /// Returns the fault's number, counted from 1 in order of declaration.
    pub fn number(&self) -> u8
        ensures { result ≡ input_number self.now }
    {
        match self {
            InputFault::Memory => 1,
            InputFault::Read => 2,
        }
    }
}

/// Reads once, and tries again if a signal interrupts it. Returns `Err` if the reader fails, or is interrupted `TRIES`
/// times in a row.
fn read_piece<R: Read>(reader: &mut Counted<R>, room: &mut [u8]) -> Result<usize, InputFault>
    ensures bound { ReadsAtMost result room.new }
    ensures taken { IfOk result (λ n. Consumes (R.remaining reader.old.inner) (R.remaining reader.new.inner) (take n room.new)) }
    ensures end { IfOk result (λ n. n ≡ 0 → 0 < length room.old → IsAtEnd (R.remaining reader.new.inner)) }
    ensures none { OnErr result (Keeps (R.remaining reader.old.inner) (R.remaining reader.new.inner)) }
    ensures grown { OnErr result (HasFailed reader.old reader.new) }
    ensures patient { OnErr result (GivesUp TRIES reader.old reader.new) }
    ensures counts { reader.old.failures ≤ reader.new.failures }
    ensures whole { OnOk result (reader.new.breaks ≡ reader.old.breaks) }
    ensures only_read { IfErr result (λ fault. fault ≡ InputFault.Read) }
{
    for _ in 0..TRIES {
        match reader.read(room) {
            Ok(n) => return Ok(n),
            Err(e) => {
                if lasts(&e) {
                    return Err(InputFault::Read);
                }
            }
        }
    }
    Err(InputFault::Read)
}

/// Appends to `input` what one read into `room` returns. Returns the number of these bytes, which is 0 at the end.
fn read_more<R: Read>(
    reader: &mut Counted<R>,
    room: &mut [u8],
    input: &mut Vec<u8>,
) -> Result<usize, InputFault>
    ensures count { IfOk result (λ n. vec_len input.new ≡ vec_len input.old + n) }
    ensures bound { IfOk result (λ n. n ≤ length room.old) }
    ensures more { IfOk result (λ n. Consumes (R.remaining reader.old.inner) (R.remaining reader.new.inner) (take n room.new)) }
    ensures appended { IfOk result (λ n. input.new.items ≡ input.old.items ++ take n room.new) }
    ensures end { IfOk result (λ n. n ≡ 0 → 0 < length room.old → IsAtEnd (R.remaining reader.new.inner)) }
    ensures taken { TakesUpTo R.remaining reader.old reader.new (length room.old) }
    ensures read { IsErrOf result InputFault.Read → HasFailed reader.old reader.new }
    ensures patient { IsErrOf result InputFault.Read → GivesUp TRIES reader.old reader.new }
    ensures first { Breaks reader.old reader.new → IsErrOf result InputFault.Read }
    ensures whole { OnOk result (reader.new.breaks ≡ reader.old.breaks) }
    ensures counts { reader.old.failures ≤ reader.new.failures }
{
    let count = read_piece(reader, room)?;
    input.extend_from_slice(&room[..count])?;
    Ok(count)
}

/// Appends to `input`, which is empty, all bytes of `reader`, or the first `most`.
fn read_all<R: Read>(
    reader: &mut Counted<R>,
    most: usize,
    room: &mut [u8],
    input: &mut Vec<u8>,
) -> Result<(), InputFault>
    requires some_room { 0 < length room.old }
    requires empty { input.old.items ≡ [] }
    ensures input { OnOk result (IfKnown R.remaining reader.old (λ bytes. input.new.items ≡ take most bytes)) }
    ensures bounded { OnOk result (vec_len input.new ≤ most) }
    ensures taken { TakesUpTo R.remaining reader.old reader.new most }
    ensures read { IsErrOf result InputFault.Read → HasFailed reader.old reader.new }
    ensures patient { IsErrOf result InputFault.Read → GivesUp TRIES reader.old reader.new }
    ensures first { Breaks reader.old reader.new → IsErrOf result InputFault.Read }
{
    while input.len() < most {
        let wanted = room.len().min(most - input.len());
        if read_more(reader, &mut room[..wanted], input)? == 0 {
            return Ok(());
        }
    }
    Ok(())
}

// Separate, so that a proof sees the number of bytes and not a list of that length.
fn room_for(alloc: Global, size: usize) -> Result<Vec<u8>, AllocError>
    ensures { IfOk result (λ room. vec_len room ≡ size) }
{
    vec![in alloc; 0; size]
}

/// Returns all bytes of `reader`, or the first `most`, and reads no more than these.
///
/// Returns `Read` if the reader fails, which takes precedence: a reader that failed other than by an interruption isn't
/// read again. A read that a signal interrupts is tried again, up to [`TRIES`] times in a row, so that this call
/// returns. Returns `Memory` if memory is refused. What was read by then is lost.
pub fn read_whole<R: Read>(
    alloc: Global,
    reader: &mut Counted<R>,
    most: usize,
) -> Result<Vec<u8>, InputFault>
    ensures input { IfOk result (λ input. IfKnown R.remaining reader.old (λ bytes. input.items ≡ take most bytes)) }
    ensures bounded { IfOk result (λ input. vec_len input ≤ most) }
    ensures taken { TakesUpTo R.remaining reader.old reader.new most }
    ensures read { IsErrOf result InputFault.Read → HasFailed reader.old reader.new }
    ensures patient { IsErrOf result InputFault.Read → GivesUp TRIES reader.old reader.new }
    ensures first { Breaks reader.old reader.new → IsErrOf result InputFault.Read }
{
    let mut room = room_for(alloc, PIECE)?;
    let mut input = Vec::new(alloc);
    read_all(reader, most, &mut room, &mut input)?;
    Ok(input)
}

impl From<AllocError> for InputFault {
    ghost use Rattle.counted_io.specs.declared.input.InputFault.TheVariants.{Memory};

    ghost from_gives = { λ _ fault. fault ≡ Memory };

    fn from(_: AllocError) -> Self {
        InputFault::Memory
    }
}
