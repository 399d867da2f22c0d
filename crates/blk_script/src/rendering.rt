//! The texts of replies and of the disk.
ghost use Rattle.std.specs.Prelude.{◌≡◌, ◌++◌, ◌∷◌, [], ◌<◌, ℕ, List, OnOk, OnErr, IfOk, IfErr, codes, decimal, replicate};
ghost use Rattle.hex.specs.Hex.{encode_lower};
ghost use Rattle.line_text.specs.Named.{named};
ghost use Rattle.blk_script.specs.Closed.{HasGrown, IsClosed, closed_text};
ghost use Rattle.blk_script.specs.Texts.{pieces_text, run_text, runs_text, named_mode, physical_text, counts_text, reply_text, reply_line, disk_line};
ghost use Rattle.ram_disk.specs.Runs.{IsRuns};
ghost use Rattle.ram_disk.specs.Sector.{bytes_of, filled_with};
ghost use Rattle.ram_disk.specs.Sectors.{sectors_of};
ghost use Rattle.script_meaning.specs.declared.reply.Reply.TheVariants.{Data, Written};

use line_text::{ScriptFault, push_hex, push_named, push_number, push_text};
use ram_disk::{Disk, SECTOR_BYTES, Sector, Sectors, add_sector};
use script_meaning::{Mode, Reply, Stat};
use std::alloc::{AllocError, Global};

// Returns the two digits of a byte.
fn hex_digits(byte: u8) -> [u8; 2]
    ensures { result ≡ encode_lower (byte ∷ []) }
{
    let mut digits = [0; 2];
    let _ = hex::encode_to_slice([byte].as_slice(), &mut digits);
    digits
}

// Appends a run of fewer than ten bytes in one step. If there are many runs, most are that short.
fn push_short_run(out: &mut Vec<u8>, byte: u8, count: u8) -> Result<(), AllocError>
    requires { count < 10 }
    ensures ok { OnOk result (out.new.items ≡ out.old.items ++ run_text (byte, count)) }
    ensures err { OnErr result (out.new.items ≡ out.old.items) }
{
    let [high, low] = hex_digits(byte);
    out.extend_from_slice(&[high, low, b'*', b'0' + count])
}

/// Appends a run.
fn push_run(out: &mut Vec<u8>, run: (u8, u64)) -> Result<(), AllocError>
    ensures ok { OnOk result (out.new.items ≡ out.old.items ++ run_text run) }
    ensures err { OnErr result (HasGrown out.old.items out.new.items) }
{
    let (byte, count) = run;
    if count < 10 {
        return push_short_run(out, byte, count as u8);
    }
    push_hex(out, byte)?;
    push_text(out, "*")?;
    push_number(out, count)
}

fn push_pieces(out: &mut Vec<u8>, pieces: &[u32]) -> Result<(), AllocError>
    ensures { OnOk result (out.new.items ≡ out.old.items ++ pieces_text pieces.now) }
{
    for (index, piece) in pieces.iter().enumerate() {
        if index > 0 {
            push_text(out, "+")?;
        }
        push_number(out, u64::from(*piece))?;
    }
    Ok(())
}

/// Appends runs.
fn push_runs(out: &mut Vec<u8>, runs: &[(u8, u64)]) -> Result<(), AllocError>
    ensures ok { OnOk result (out.new.items ≡ out.old.items ++ runs_text runs.now) }
    ensures err { OnErr result (HasGrown out.old.items out.new.items) }
{
    for (index, run) in runs.iter().enumerate() {
        if index > 0 {
            push_text(out, ",")?;
        }
        push_run(out, *run)?;
    }
    Ok(())
}

#[tactic(auto, unfolding(crate::specs::Texts::named_mode))]
fn push_mode(out: &mut Vec<u8>, name: &str, mode: Mode) -> Result<(), AllocError>
    ensures { OnOk result (out.new.items ≡ out.old.items ++ named_mode name.now mode) }
{
    push_text(out, name)?;
    match mode {
        Mode::Atomic => push_text(out, "atomic"),
        Mode::Slots => push_text(out, "slots"),
    }
}

#[tactic(auto, unfolding(crate::specs::Texts::physical_text))]
fn push_physical(out: &mut Vec<u8>, size: Option<u32>) -> Result<(), AllocError>
    ensures { OnOk result (out.new.items ≡ out.old.items ++ physical_text size) }
{
    match size {
        None => Ok(()),
        Some(size) => push_named(out, " physical ", u64::from(size)),
    }
}

fn push_counts(out: &mut Vec<u8>, counts: &Stat) -> Result<(), AllocError>
    ensures { OnOk result (out.new.items ≡ out.old.items ++ counts_text counts.now) }
{
    push_named(out, "stat reads ", counts.reads)?;
    push_named(out, " writes ", counts.writes)?;
    push_named(out, " again ", counts.again)?;
    push_named(out, " eio ", counts.eio)?;
    push_named(out, " depth ", u64::from(counts.depth))?;
    push_named(out, " max ", u64::from(counts.max))?;
    push_named(out, " chunk ", u64::from(counts.chunk))?;
    push_physical(out, counts.physical)?;
    push_mode(out, " mode ", counts.mode)
}

fn push_reply(out: &mut Vec<u8>, reply: &Reply) -> Result<(), AllocError>
    ensures { OnOk result (out.new.items ≡ out.old.items ++ reply_text reply.now) }
{
    match reply {
        Reply::Data { pieces, runs } => {
            push_text(out, "ok ")?;
            push_pieces(out, pieces.as_slice())?;
            push_text(out, " ")?;
            push_runs(out, runs.as_slice())
        }
        Reply::Written { pieces } => {
            push_text(out, "ok ")?;
            push_pieces(out, pieces.as_slice())
        }
        Reply::Done => push_text(out, "ok"),
        Reply::Depth(depth) => push_named(out, "depth ", u64::from(*depth)),
        Reply::NotFrozen => push_text(out, "not frozen"),
        Reply::DepthFull => push_text(out, "depth full"),
        Reply::Again => push_text(out, "EAGAIN"),
        Reply::PastEnd => push_text(out, "EIO"),
        Reply::Invalid => push_text(out, "EINVAL"),
        Reply::Stat(counts) => push_counts(out, counts),
        Reply::Removed => push_text(out, "removed"),
        Reply::Gone => push_text(out, "ENODEV"),
    }
}

/// Appends the line of a reply to the script's line of this number.
pub(crate) fn push_line(out: &mut Vec<u8>, number: u32, reply: &Reply) -> Result<(), AllocError>
    ensures { OnOk result (out.new.items ≡ out.old.items ++ reply_line (number, reply.now)) }
{
    push_number(out, u64::from(number))?;
    push_text(out, " ")?;
    push_reply(out, reply)?;
    push_text(out, "\n")
}

/// Room for the line of most replies, in bytes. It is taken once, so that the line doesn't grow out of smaller rooms.
const USUAL_LINE: usize = 24;

/// Returns the line of a reply to the script's line of this number, with its line feed. `Memory` is the only fault.
pub fn render(alloc: Global, number: u32, reply: &Reply) -> Result<Vec<u8>, ScriptFault>
    ensures line { IfOk result (λ line. line.items ≡ reply_line (number, reply.now)) }
    ensures fault { IfErr result (λ fault. fault ≡ ScriptFault.Memory) }
{
    let mut line = Vec::with_capacity(alloc, USUAL_LINE)?;
    push_line(&mut line, number, reply)?;
    Ok(line)
}

/// Appends the line of a write's reply to the script's line of this number: the lengths of its pieces.
pub fn push_written(out: &mut Vec<u8>, line: u32, pieces: &[u32]) -> Result<(), AllocError>
    ensures { OnOk result (out.new.items ≡ out.old.items ++ reply_line (line, Written pieces.now)) }
{
    push_number(out, u64::from(line))?;
    push_text(out, " ")?;
    push_text(out, "ok ")?;
    push_pieces(out, pieces)?;
    push_text(out, "\n")
}

/// Appends the line of a read's reply to the script's line of this number: the lengths of its pieces, and the runs of the sectors
/// that it found. `Memory` is the only fault.
pub fn push_read(
    out: &mut Vec<u8>,
    alloc: Global,
    line: u32,
    pieces: &[u32],
    found: &Sectors,
) -> Result<(), ScriptFault>
    ensures told { OnOk result ((runs : List (ℕ × ℕ)) × IsRuns runs (bytes_of (sectors_of found.now)) × (out.new.items ≡ out.old.items ++ reply_line (line, Data pieces.now runs))) }
    ensures fault { IfErr result (λ fault. fault ≡ ScriptFault.Memory) }
{
    push_number(out, u64::from(line))?;
    push_text(out, " ")?;
    push_text(out, "ok ")?;
    push_pieces(out, pieces)?;
    push_text(out, " ")?;
    push_found(out, alloc, found)?;
    push_text(out, "\n")?;
    Ok(())
}

// Appends the run of sectors that have one byte at every place, if there are any.
fn push_filled(out: &mut Vec<u8>, byte: u8, count: u32) -> Result<(), AllocError>
    ensures { OnOk result ((runs : List (ℕ × ℕ)) × IsRuns runs (bytes_of (replicate count (filled_with byte))) × (out.new.items ≡ out.old.items ++ runs_text runs)) }
{
    if count == 0 {
        return Ok(());
    }
    push_run(out, (byte, u64::from(count) * SECTOR_BYTES as u64))?;
    Ok(())
}

// Appends the maximal runs of the bytes of sectors, or a part of their text if memory is refused. `Memory` is the only fault.
fn push_found(out: &mut Vec<u8>, alloc: Global, found: &Sectors) -> Result<(), ScriptFault>
    ensures text { OnOk result ((runs : List (ℕ × ℕ)) × IsRuns runs (bytes_of (sectors_of found.now)) × (out.new.items ≡ out.old.items ++ runs_text runs)) }
    ensures fault { IfErr result (λ fault. fault ≡ ScriptFault.Memory) }
{
    match found {
        Sectors::Filled { byte, count } => {
            push_filled(out, *byte, *count)?;
            Ok(())
        }
        Sectors::Listed(sectors) => push_sectors(out, alloc, sectors),
    }
}

// Appends the line of a disk, or a part of the line if memory is refused.
fn push_disk_line(out: &mut Vec<u8>, alloc: Global, disk: &Disk) -> Result<(), ScriptFault>
    ensures line { OnOk result ((runs : List (ℕ × ℕ)) × IsRuns runs (bytes_of disk.now) × (out.new.items ≡ out.old.items ++ disk_line runs)) }
    ensures err { OnErr result (HasGrown out.old.items out.new.items) }
    ensures fault { IfErr result (λ fault. fault ≡ ScriptFault.Memory) }
{
    push_text(out, "disk ")?;
    push_sectors(out, alloc, disk.sectors())?;
    push_text(out, "\n")?;
    Ok(())
}

/// Appends the line of a disk, with its line feed. `Memory` is the only fault; then the text is unchanged.
pub fn push_disk(out: &mut Vec<u8>, alloc: Global, disk: &Disk) -> Result<(), ScriptFault>
    ensures line { OnOk result ((runs : List (ℕ × ℕ)) × IsRuns runs (bytes_of disk.now) × (out.new.items ≡ out.old.items ++ disk_line runs)) }
    ensures err { OnErr result (out.new.items ≡ out.old.items) }
    ensures fault { IfErr result (λ fault. fault ≡ ScriptFault.Memory) }
{
    let before = out.len();
    let pushed = push_disk_line(out, alloc, disk);
    if pushed.is_err() {
        out.truncate(before);
    }
    pushed
}

/// Returns the line of a disk, with its line feed. `Memory` is the only fault.
pub fn render_disk(alloc: Global, disk: &Disk) -> Result<Vec<u8>, ScriptFault>
    ensures line { IfOk result (λ line. (runs : List (ℕ × ℕ)) × IsRuns runs (bytes_of disk.now) × (line.items ≡ disk_line runs)) }
    ensures fault { IfErr result (λ fault. fault ≡ ScriptFault.Memory) }
{
    let mut line = Vec::new(alloc);
    push_disk(&mut line, alloc, disk)?;
    Ok(line)
}

// This many sectors have fewer than 2^64 bytes. No memory holds as many owners of sectors.
const MOST_SECTORS: usize = usize::MAX / SECTOR_BYTES;

// Appends runs, each followed by a comma.
fn push_closed(out: &mut Vec<u8>, runs: &[(u8, u64)]) -> Result<(), AllocError>
    ensures ok { OnOk result (out.new.items ≡ out.old.items ++ closed_text runs.now) }
    ensures err { OnErr result (HasGrown out.old.items out.new.items) }
{
    for run in runs {
        push_run(out, *run)?;
        push_text(out, ",")?;
    }
    Ok(())
}

// Appends all runs except the last, which stays, since what follows may make it longer.
fn close(out: &mut Vec<u8>, runs: &mut Vec<(u8, u64)>) -> Result<(), AllocError>
    ensures ok { OnOk result (IsClosed out.old.items out.new.items runs.old.items runs.new.items) }
    ensures err { OnErr result (HasGrown out.old.items out.new.items) }
{
    let Some(last) = runs.pop() else {
        return Ok(());
    };
    push_closed(out, runs)?;
    runs.clear();
    runs.push_reserved(last);
    Ok(())
}

/// Appends the maximal runs of these sectors' bytes, or a part of their text if memory is refused. `Memory` is the only fault.
fn push_sectors(out: &mut Vec<u8>, alloc: Global, sectors: &[Sector]) -> Result<(), ScriptFault>
    ensures text { OnOk result ((runs : List (ℕ × ℕ)) × IsRuns runs (bytes_of sectors.now) × (out.new.items ≡ out.old.items ++ runs_text runs)) }
    ensures err { OnErr result (HasGrown out.old.items out.new.items) }
    ensures fault { IfErr result (λ fault. fault ≡ ScriptFault.Memory) }
{
    if sectors.len() > MOST_SECTORS {
        return Err(ScriptFault::Memory);
    }
    let mut runs = Vec::new(alloc);
    for sector in sectors {
        let Ok(()) = add_sector(&mut runs, sector) else {
            return Err(ScriptFault::Memory);
        };
        close(out, &mut runs)?;
    }
    push_runs(out, &runs)?;
    Ok(())
}
