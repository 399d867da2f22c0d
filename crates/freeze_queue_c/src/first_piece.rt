//! The first piece of a request that is cut by limits.
ghost use Rattle.std.specs.Prelude.{◌≡◌};
ghost use Rattle.freeze_queue_c.specs.PlainLimits.{bounds_of};
ghost use Rattle.freeze_queue_c.specs.FirstPiece.{Cuts, WritesFirstPiece, piece_number, piece_refusal, piece_written};

use crate::plain_limits::PlainLimits;
use crate::refusal::Refusal;
use c_answers::Misuse;

/// Returns the length of the first piece. Refuses with the limits' faults, then with Range.
fn first_piece(limits: &PlainLimits, start: u64, count: u32) -> Result<u32, Refusal>
    ensures { Cuts (piece_refusal limits.now start count) (bounds_of limits.now) start count result }
{
    match limits.checked() {
        Err(why) => Err(Refusal::OfLimits(why)),
        Ok(_) if start >= 1 << 33 || count == 0 => Err(Refusal::OfMisuse(Misuse::Range)),
        Ok(limits) => Ok(limits.next_piece(start, count)),
    }
}

/// Writes the length of a piece and returns 0, or returns the number of the refusal.
fn write_piece(answer: Result<u32, Refusal>, piece: &mut u32) -> u32
    ensures number { result ≡ piece_number answer }
    ensures written { piece.new ≡ piece_written answer piece.old }
{
    match answer {
        Ok(length) => {
            *piece = length;
            0
        }
        Err(why) => why.number(),
    }
}

/// Writes the length, in sectors, of the first piece of the `count` sectors (1 or more) that start at `start` (below 2^33), as these
/// limits cut them. Refuses with the limits' faults (25 to 28) or Range. Linux: `get_max_io_size` (block/blk-merge.c).
#[unsafe(no_mangle)]
pub extern "C" fn freeze_queue_first_piece(
    limits: &PlainLimits,
    start: u64,
    count: u32,
    piece: &mut u32,
) -> u32
    ensures { WritesFirstPiece limits.now start count piece.old piece.new result }
{
    write_piece(first_piece(limits, start, count), piece)
}
