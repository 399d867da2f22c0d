//! The answer to a request: the line of its reply, and the sectors that a write leaves.
ghost use Rattle.std.specs.Prelude.{◌≡◌, [], IfOk, OnOk};
ghost use Rattle.ram_disk.specs.Sectors.{sectors_of};
ghost use Rattle.queue_limits.specs.Pieces.{IsSplit};
ghost use Rattle.in_flight.specs.Requests.{IsDue, IsAnswerTo, IsReadAnswer, IsWriteAnswer};

use crate::replies::Text;
use blk_script::{push_read, push_written};
use queue_limits::Limits;
use ram_disk::Sectors;
use script_meaning::{Pattern, Script, What};
use std::alloc::{AllocError, Global};

/// The answer to a request: the line of its reply, and the sectors that it leaves on the disk from its first sector on. A read
/// leaves none. The script has that sector's place, so that a completion fits in one cache line.
#[derive(Drop)]
pub struct Answer {
    pub text: Text,
    pub sectors: Sectors,
}

/// What a thread that answers requests uses for each, so that it takes no memory for most.
#[derive(Drop)]
pub struct Workbench {
    line: Vec<u8>,
    pieces: Vec<u32>,
}

impl Workbench {
    /// Takes no memory yet.
    pub fn new(alloc: Global) -> Workbench {
        Workbench {
            line: Vec::new(alloc),
            pieces: Vec::new(alloc),
        }
    }

    // Cuts a range by these limits.
    fn cut(&mut self, limits: Limits, start: u32, count: u32) -> Result<(), AllocError>
        ensures cut { OnOk result (IsSplit limits start count self.new.pieces.items) }
        ensures empty { OnOk result (self.new.line.items ≡ []) }
    {
        self.line.clear();
        self.pieces.clear();
        self.pieces.extend(limits.pieces(u64::from(start), count))?;
        Ok(())
    }
}

// Returns the answer to a read that found these sectors.
fn read(
    alloc: Global,
    bench: &mut Workbench,
    number: u32,
    limits: Limits,
    start: u32,
    count: u32,
    found: &Sectors,
) -> Result<Answer, AllocError>
    ensures { IfOk result (IsReadAnswer number limits start count (sectors_of found.now)) }
{
    bench.cut(limits, start, count)?;
    push_read(&mut bench.line, alloc, number, &bench.pieces, found).map_err(|_| AllocError)?;
    Ok(Answer {
        text: Text::of(alloc, &mut bench.line)?,
        sectors: Sectors::none(),
    })
}

// Returns the answer to a write.
fn write(
    alloc: Global,
    bench: &mut Workbench,
    number: u32,
    limits: Limits,
    start: u32,
    count: u32,
    pattern: &Pattern,
) -> Result<Answer, AllocError>
    ensures { IfOk result (IsWriteAnswer number limits start count pattern.now) }
{
    bench.cut(limits, start, count)?;
    push_written(&mut bench.line, number, &bench.pieces)?;
    let sectors = Sectors::patterned(alloc, pattern.bytes(), count).map_err(|_| AllocError)?;
    Ok(Answer {
        text: Text::of(alloc, &mut bench.line)?,
        sectors,
    })
}

/// Returns the answer to the request at a position of the script, from the limits in force there and the sectors that a read finds.
/// Fails only if memory is refused.
pub fn answer_to(
    alloc: Global,
    bench: &mut Workbench,
    script: &Script,
    position: usize,
    limits: Limits,
    found: &Sectors,
) -> Result<Answer, AllocError>
    requires { IsDue script.now position limits (sectors_of found.now) }
    ensures { IfOk result (IsAnswerTo script.now position) }
{
    let line = &script.lines()[position];
    match &line.what {
        What::Read { start, count } => {
            read(alloc, bench, line.number, limits, *start, *count, found)
        }
        What::Write {
            start,
            count,
            pattern,
        } => write(alloc, bench, line.number, limits, *start, *count, pattern),
        // No other line is an accepted request.
        _ => unreachable!(),
    }
}
