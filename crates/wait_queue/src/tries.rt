//! The threads that wait, and the tries of each of them.
ghost use Rattle.std.specs.Prelude.{IsSome};
ghost use Rattle.std.specs.Iterator.{at_most};

use crossbeam_utils::Backoff;
use crossbeam_utils::sync::{EventCount, Key};
use std::mem;
use std::sync::{Forever, Wait};

/// Number of tries without an announced wait. `Backoff` pauses after each of them, some 6 microseconds in all; after one more it
/// would yield, which gives the processor away for a whole time slice if other programs want it.
const LOOKS: u32 = 7;

/// Threads that wait for something that others do. Linux: `struct wait_queue_head` (include/linux/wait.h).
#[derive(Drop)]
pub struct WaitQueue {
    events: EventCount,
}

impl WaitQueue {
    /// Returns a queue without waiters.
    pub const fn new() -> WaitQueue {
        WaitQueue {
            events: EventCount::new(),
        }
    }

    /// Wakes one waiter, after what it waits for has happened. Linux: `wake_up`.
    #[inline]
    pub fn wake_one(&self) {
        self.events.notify_one();
    }

    /// Wakes all waiters, after what they wait for has happened. Linux: `wake_up_all`.
    #[inline]
    pub fn wake_all(&self) {
        self.events.notify_all();
    }

    /// Returns an iterator with a turn for each try of a waiting thread. The first tries have ever longer pauses between them and
    /// no announced wait, so if one of them succeeds, nothing that other threads read is written. After them the thread sleeps
    /// between tries; it never yields. Linux: `wait_event`.
    #[inline]
    pub fn tries<'w, R: Wait>(&'w self, rt: &'w R) -> Tries<'w, R> {
        Tries::new(self, rt, LOOKS)
    }

    /// Like [`WaitQueue::tries`], for a thread that has tried often enough: each of these tries, the first included, has an
    /// announced wait.
    #[inline]
    pub fn announced_tries<'w, R: Wait>(&'w self, rt: &'w R) -> Tries<'w, R> {
        Tries::new(self, rt, 0)
    }
}

/// What came before the next turn.
#[derive(Drop)]
enum Stage<'w> {
    /// No try.
    New,
    /// A try without an announced wait.
    Unannounced,
    /// A try with this announced wait.
    Announced(Key<'w>),
}

/// The turns of a waiting thread, one for each try. A turn after a try begins with the sleep, if the wait was announced
/// before that try, and ends with the announcement for the next. A thread that leaves the loop no longer waits.
#[derive(Drop)]
pub struct Tries<'w, R: Wait> {
    rt: &'w R,
    queue: &'w WaitQueue,
    backoff: Backoff,
    /// The number of further tries without an announced wait, unless the backoff is completed earlier.
    looks: u32,
    stage: Stage<'w>,
    /// The number of turns that are left: more than any run uses up.
    turns: Forever<'w, R>,
}

impl<'w, R: Wait> Tries<'w, R> {
    #[inline]
    fn new(queue: &'w WaitQueue, rt: &'w R, looks: u32) -> Tries<'w, R> {
        Tries {
            rt,
            queue,
            backoff: Backoff::new(),
            looks,
            stage: Stage::New,
            turns: rt.forever(),
        }
    }

    /// Lets time pass before the next try: the thread sleeps if its wait was announced before the last try.
    fn pass_time(&self, tried: Stage<'w>) {
        match tried {
            Stage::New => {}
            Stage::Unannounced => self.backoff.snooze(),
            Stage::Announced(wait) => wait.wait(self.rt),
        }
    }
}

impl<'w, R: Wait> Iterator for Tries<'w, R> {
    type Item = ();

    ghost next_gives = { λ _ r _. IsSome r };

    ghost remaining = { λ s. at_most s.turns.left };

    #[inline]
    fn next(&mut self) -> Option<()> {
        self.turns.next()?;
        let tried = mem::replace(&mut self.stage, Stage::New);
        self.pass_time(tried);
        self.stage = if self.looks > 0 && !self.backoff.is_completed() {
            self.looks -= 1;
            Stage::Unannounced
        } else {
            Stage::Announced(self.queue.events.prepare_wait())
        };
        Some(())
    }
}
