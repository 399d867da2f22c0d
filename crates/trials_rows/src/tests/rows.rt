//! A row for each library. tests/rows has the rows of programs, and rust/trials/tests the other rows of libraries.
ghost use Rattle.std.specs.Prelude.{◌<◌, ◌^◌, IfOk};
ghost use Rattle.queue_limits.specs.Pieces.{IsSplit};

use blk_script::{Checked, drains, parse};
use blk_workers::{Config, NoStall, run_checked};
use gate_replay::{Replayed, replay_text};
use line_text::{Why, number, words};
use percpu_words::{slot_delta, slot_word};
use queue_limits::Limits;
use ram_disk::patterned;
use std::alloc::{AllocError, Global};
use std::test::Fail;

/// Collects the pieces, with a contract that gives the caller the split.
fn collected(alloc: Global, limits: &Limits, start: u64, count: u32) -> Result<Vec<u32>, AllocError>
    requires { start < 2 ^ 32 }
    ensures { IfOk result (λ v. IsSplit limits.now start count v.items) }
{
    limits.pieces(start, count).collect(alloc)
}

#[test]
fn pieces_across_chunks(rt: HostRuntime) -> Result<(), Fail> {
    let limits = Limits::new(100, 0, 5)?;
    let pieces = collected(rt.alloc(), &limits, 3, 12)?;
    assert_eq!(rt; pieces.as_slice(), [2, 5, 5].as_slice());
    Ok(())
}

#[test]
fn a_second_sector_by_hand(rt: HostRuntime) -> Result<(), Fail> {
    let sectors = patterned(rt.alloc(), &[1, 2, 3], 2)?;
    let second = sectors[1].bytes();
    assert_eq!(rt; (second.first(), second.last()), (Some(&3), Some(&1)));
    Ok(())
}

#[test]
fn words_and_numbers(rt: HostRuntime) {
    assert_eq!(rt; slot_delta(slot_word(-5)), Some(-5));
    assert_eq!(rt; words("\tread  10 ").count_left(), 2);
    assert_eq!(rt; number(b"10", 0, 10, false), Ok(10));
    assert_eq!(rt; number(b"10", 0, 9, false), Err(Why::OutOfRange));
}

const DEAD_START: &[u8] =
    b"gate 1\nworld 1 1 dead 0\n0 add try\nc take\nc front\nc clear\nc dead\nc confirm\nc base\n0 undo\n0 mark\n";

const ITS_REPLIES: &[u8] =
    b"refused\nok\nok\nok\nok\nok\nnot last\nto mark\nlast\nend zero 0 front 3 kills 1 releases 1 held 0\n";

#[test]
fn replay_dead_start(rt: HostRuntime) -> Result<(), Fail> {
    let replay = replay_text(rt.alloc(), DEAD_START)?;
    assert!(rt; replay.text() == ITS_REPLIES);
    assert!(rt; replay.ended() == Replayed::Whole);
    Ok(())
}

const FROZEN: &[u8] = b"blkq 1\ndisk 8 hw 8\nwrite 6 1 ff\nfreeze\nthaw\nread 6 2\n";

const ITS_ANSWER: &[u8] = b"3 ok 1\n4 depth 1\n5 depth 0\n6 ok 2 ff*512,00*512\n";

#[test]
fn drained_overlap(rt: HostRuntime) -> Result<(), Fail> {
    let script = parse(rt.alloc(), FROZEN)?;
    assert!(rt; drains(rt.alloc(), &script)?.is_empty());
    let checked = Checked::of(rt.alloc(), &script)?;
    let config = Config::new(2, 3, 2).ok_or("within the limits")?;
    let ran = run_checked(&rt, rt.alloc(), &checked, config, &NoStall)?;
    assert!(rt; ran.replies.as_slice() == ITS_ANSWER);
    Ok(())
}
