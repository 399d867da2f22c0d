//! The queue of items that aren't in use.
ghost use Rattle.std.specs.Prelude.{◌≡◌, ◌+◌, ◌<◌, ◌^◌, IfOk, IfSome, IfNone};
ghost use Rattle.run_queues.specs.Parts.{none_counted, one_more};

use crate::ruled_queue::RuledQueue;
use crossbeam_queue::Pass;
use crossbeam_queue::protocol::Free;
use std::alloc::{AllocError, Global};
use std::marker::Model;
use std::sync::Wait;

/// A queue of items that threads take and put back. Contracts know of an item what its type's invariant says: if every value of the
/// type is free and belongs to one owner, the queue holds free items of that owner.
///
/// The thread that takes is woken once half of the spares are back, or if those who put expect no more soon.
#[derive(Drop)]
pub struct SpareQueue<T: Drop> {
    line: RuledQueue<T, (), Free>,
    /// The number of spares for which a thread that sleeps is woken.
    enough: usize,
}

impl<T: Drop> Model for SpareQueue<T> {
    ghost use Rattle.crossbeam_queue.specs.Passes.{ruled_capacity};
    ghost use Rattle.run_queues.specs.Parts.{QueueFacts};

    ghost Value = { QueueFacts };

    ghost view = { λ q. record { id = q.line.ring.table.shared.table_id; room = ruled_capacity q.line.ring } };
}

/// The right to take from a queue of spare items, which comes with the queue and which one thread has. Contracts see the queue and
/// how many items were taken by it, so a clause can say that a thread took one for each of its tasks and no more.
#[derive(Drop)]
pub struct Taker<T: Drop> {
    seat: Pass<T, ()>,
    taken: u64,
}

impl<T: Drop> Model for Taker<T> {
    ghost use Rattle.std.specs.Prelude.{◌≡◌, []};
    ghost use Rattle.run_queues.specs.Parts.{CountFacts};

    ghost Value = { CountFacts };

    ghost view = { λ t. record { queue = t.seat.table_id; count = t.taken } };

    ghost invariant = { λ t. t.seat.me.1 ≡ [] };
}

/// How many items a thread put back into a queue. Contracts see the queue and the number, so a clause can say that a thread put
/// back one for each of its tasks, if an item can only be had from a caller that took it.
#[derive(Drop)]
pub struct PutCount<T: Drop> {
    seat: Pass<T, ()>,
    put: u64,
}

impl<T: Drop> Model for PutCount<T> {
    ghost use Rattle.std.specs.Prelude.{◌≡◌, []};
    ghost use Rattle.run_queues.specs.Parts.{CountFacts};

    ghost Value = { CountFacts };

    ghost view = { λ p. record { queue = p.seat.table_id; count = p.put } };

    ghost invariant = { λ p. p.seat.me.1 ≡ [] };
}

impl<T: Drop> SpareQueue<T> {
    /// Returns a queue with room for `room` items, and the right to take from it. All its memory is taken here.
    pub fn new(alloc: Global, room: usize) -> Result<(SpareQueue<T>, Taker<T>), AllocError>
        requires { 0 < room }
        ensures queue { IfOk result (λ made. made.0.room ≡ room) }
        ensures taker { IfOk result (λ made. made.1 ≡ none_counted made.0.id) }
    {
        let enough = room.div_ceil(2);
        let (line, seat) = RuledQueue::new(alloc, room, enough > 1)?;
        Ok((SpareQueue { line, enough }, Taker { seat, taken: 0 }))
    }

    /// Returns the number of items for which there is room.
    pub fn room(&self) -> usize
        ensures { result ≡ self.now.room }
    {
        self.line.ring.capacity()
    }

    /// Returns a count of what a thread puts back here, 0 so far.
    pub fn put_count(&self) -> PutCount<T>
        ensures { result ≡ none_counted self.now.id }
    {
        PutCount {
            seat: self.line.ring.pass(),
            put: 0,
        }
    }

    /// Puts an item back after those that are there, and counts it. Waits while there is no room.
    pub fn put<R: Wait>(&self, rt: &R, count: &mut PutCount<T>, item: T)
        requires own { count.old.queue ≡ self.now.id }
        requires room { count.old.count + 1 < 2 ^ 64 }
        ensures counted { count.new ≡ one_more count.old }
    {
        self.line.push_as::<Free, R>(rt, &mut count.seat, item);
        count.put += 1;
        self.line.wake_if_filled(rt, &mut count.seat, self.enough);
    }

    /// Wakes the thread that takes, if it sleeps. Call this if no more spares come soon.
    pub fn wake_taker(&self) {
        self.line.sleepers.wake();
    }

    /// Takes the first item if there is one now, and counts it.
    pub fn try_take<R: Wait>(&self, rt: &R, taker: &mut Taker<T>) -> Option<T>
        requires own { taker.old.queue ≡ self.now.id }
        requires room { taker.old.count + 1 < 2 ^ 64 }
        ensures counted { IfSome result (λ _. taker.new ≡ one_more taker.old) }
        ensures none { IfNone result (taker.new ≡ taker.old) }
    {
        let item = self.line.pop_now_as::<Free, R>(rt, &mut taker.seat)?;
        taker.taken += 1;
        Some(item)
    }

    /// Returns how many looks are worthwhile before a sleep.
    pub fn looks(&self) -> u32 {
        self.line.looks()
    }

    /// Looks for an item for some microseconds, and counts it.
    pub fn look<R: Wait>(&self, rt: &R, taker: &mut Taker<T>) -> Option<T>
        requires own { taker.old.queue ≡ self.now.id }
        requires room { taker.old.count + 1 < 2 ^ 64 }
        ensures counted { IfSome result (λ _. taker.new ≡ one_more taker.old) }
        ensures none { IfNone result (taker.new ≡ taker.old) }
    {
        let item = self.line.look_as::<Free, R>(rt, &mut taker.seat)?;
        taker.taken += 1;
        Some(item)
    }

    /// Takes the first item, and counts it. Sleeps while there is none; look first if one is to come soon.
    pub fn take<R: Wait>(&self, rt: &R, taker: &mut Taker<T>) -> T
        requires own { taker.old.queue ≡ self.now.id }
        requires room { taker.old.count + 1 < 2 ^ 64 }
        ensures counted { taker.new ≡ one_more taker.old }
    {
        taker.taken += 1;
        self.line.patience.in_vain();
        self.line.sleep_as::<Free, R>(rt, &mut taker.seat)
    }
}
