//! The pieces of a range, one after another.
ghost use Rattle.std.specs.Prelude.{◌≡◌, ◌+◌, ◌<◌, ◌^◌, IfSome, Some, sum, length};
ghost use Rattle.std.specs.Iterator.{YieldsFirst, item_count, UpTo};
ghost use Rattle.std.specs.Iterator.SizeHint.{IsWithinCount};
ghost use Rattle.queue_limits.specs.Bounds.{AreAllowed};
ghost use Rattle.queue_limits.specs.Pieces.{IsSplit};

use crate::limits::Limits;
use std::marker::Model;

/// An iterator over the lengths, in sectors, of the pieces that are left of a range, made by
/// [`Limits::pieces`](crate::Limits::pieces). In contracts it is the list of these lengths.
#[derive(Debug, Drop)]
pub struct Pieces {
    limits: Limits,
    start: u64,
    left: u32,
}

impl Model for Pieces {
    ghost use Rattle.std.specs.Prelude.{List, ℕ, ◌+◌, ◌<◌, ◌^◌};
    ghost use Rattle.queue_limits.specs.Bounds.{AreAllowed};
    ghost use Rattle.queue_limits.specs.Greedy.{greedy_pieces};

    ghost Value = { List ℕ };

    ghost view = { λ p. greedy_pieces p.left p.limits p.start p.left };

    ghost invariant = { λ p. AreAllowed p.limits × (p.start + p.left < 2 ^ 33) };
}

impl Pieces {
    pub(crate) fn new(limits: Limits, start: u64, left: u32) -> Self
        requires { start < 2 ^ 32 }
        ensures { IsSplit limits start left result }
    {
        // The call gives the proof what the type ensures about its numbers.
        let _max = limits.max();
        Pieces {
            limits,
            start,
            left,
        }
    }
}

impl Iterator for Pieces {
    type Item = u32;

    ghost next_gives = { YieldsFirst (λ s. s) };

    ghost remaining = { item_count (λ s. s) };

    fn next(&mut self) -> Option<u32> {
        if self.left == 0 {
            return None;
        }
        let length = self.limits.first_piece(self.start, self.left);
        self.start += u64::from(length);
        self.left -= length;
        Some(length)
    }

    /// Returns bounds of the number of pieces that are left. The lower bound is at least 1 if any is left; the upper bound is the
    /// number of sectors that are left, since each piece has at least one.
    fn size_hint(&self) -> (usize, Option<usize>)
        ensures lower { IsWithinCount result.0 (item_count (λ s. s) self.now) }
        ensures upper { IfSome result.1 (UpTo (item_count (λ s. s) self.now)) }
        ensures sectors { result.1 ≡ Some (sum self.now) }
        ensures some { 0 < length self.now → 0 < result.0 }
    {
        let least = self.left.div_ceil(self.limits.max());
        (least as usize, Some(self.left as usize))
    }
}
