//! A queue under a rule, at which a thread sleeps if it finds no item or no room.
ghost use Rattle.std.specs.Prelude.{◌≡◌, ◌<◌, [], ◌∷◌, IfOk, IfNone, IfSome};
ghost use Rattle.crossbeam_queue.specs.Passes.{view, IsSamePass, IsPassOf, ruled_capacity};
ghost use Rattle.run_queues.specs.Allowed.{MayPush, MayPop};

use crate::sleepers::{Patience, Sleepers};
use crossbeam_queue::protocol::{Free, Lesson, Outcome, Protocol};
use crossbeam_queue::{Pass, RuledArrayQueue};
use crossbeam_utils::CachePadded;
use std::alloc::{AllocError, Global};
use std::sync::Wait;
use std::sync::atomic::{AtomicBool, Ordering};
use wait_queue::WaitQueue;

/// Maximum number of tries of one look.
const TRIES: u32 = 128;

/// A queue under a rule, and the threads that sleep at it.
///
/// A push and a pop each take effect at one step, and take no lock. A thread that finds nothing looks again a few times, as long as
/// that is worthwhile ([`Patience`]), unless another thread does. Then it announces that it will sleep, looks once more, and sleeps. A
/// thread that wakes others looks for such announcements after its push, so one of the two sees the other.
///
/// A push wakes nobody: its caller does, by need.
#[derive(Drop)]
pub(crate) struct RuledQueue<T: Drop, V, P: Protocol<T, V>> {
    pub(crate) ring: RuledArrayQueue<T, V, P>,
    /// The threads that wait for an item.
    pub(crate) sleepers: Sleepers,
    /// The threads that wait for room.
    taken: WaitQueue,
    pub(crate) patience: CachePadded<Patience>,
    /// Whether a thread is looking for an item. More would be in each other's way, and in the way of the thread that pushes.
    is_looked_at: CachePadded<AtomicBool>,
}

impl<T: Drop, V, P: Protocol<T, V>> RuledQueue<T, V, P> {
    /// Returns a queue with room for `room` items, and its first pass. `is_timed` is as at [`Sleepers::new`].
    pub(crate) fn new(
        alloc: Global,
        room: usize,
        is_timed: bool,
    ) -> Result<(RuledQueue<T, V, P>, Pass<T, V>), AllocError>
        requires room { 0 < room }
        requires rule { P.holds [] (P.first ∷ []) }
        ensures { IfOk result (λ q. (ruled_capacity q.0.ring ≡ room) × IsPassOf q.0.ring q.1 × (view q.1 ≡ P.first)) }
    {
        let (ring, pass) = RuledArrayQueue::ruled(alloc, room)?;
        let line = RuledQueue {
            ring,
            sleepers: Sleepers::new(is_timed),
            taken: WaitQueue::new(),
            patience: CachePadded::new(Patience::new()),
            is_looked_at: CachePadded::new(AtomicBool::new(false)),
        };
        Ok((line, pass))
    }

    /// Pushes an item, and waits while there is no room. Wakes a sleeper if there is none, which makes room.
    pub(crate) fn push_as<M: Outcome<T, V> + Lesson<T, V>, R: Wait>(
        &self,
        rt: &R,
        pass: &mut Pass<T, V>,
        item: T,
    )
        requires queue { IsPassOf self.now.ring pass.old }
        requires rule { MayPush P.holds (ruled_capacity self.now.ring) pass.old item M.then M.fact }
        ensures queue { IsSamePass pass.old pass.new }
        ensures rule { M.then (view pass.old) item (view pass.new) }
    {
        let mut item = item;
        for _ in self.taken.tries(rt) {
            match self.ring.push_as::<M, R>(rt, pass, item) {
                Ok(()) => return,
                Err(back) => item = back,
            }
            self.sleepers.wake();
        }
        unreachable!()
    }

    /// Takes the first item, and waits while there is none.
    pub(crate) fn pop_as<M: Outcome<T, V> + Lesson<T, V>, R: Wait>(
        &self,
        rt: &R,
        pass: &mut Pass<T, V>,
    ) -> T
        requires queue { IsPassOf self.now.ring pass.old }
        requires rule { MayPop P.holds pass.old M.then M.fact }
        ensures queue { IsSamePass pass.old pass.new }
        ensures rule { M.then (view pass.old) result (view pass.new) }
    {
        if let Some(item) = self.pop_now_as::<M, R>(rt, pass) {
            return item;
        }
        if let Some(item) = self.look_alone_as::<M, R>(rt, pass) {
            return item;
        }
        self.sleep_as::<M, R>(rt, pass)
    }

    /// Takes the first item if there is one now. Returns `None` only if there was none at one moment of the call.
    pub(crate) fn pop_now_as<M: Outcome<T, V> + Lesson<T, V>, R: Wait>(
        &self,
        rt: &R,
        pass: &mut Pass<T, V>,
    ) -> Option<T>
        requires queue { IsPassOf self.now.ring pass.old }
        requires rule { MayPop P.holds pass.old M.then M.fact }
        ensures queue { IsSamePass pass.old pass.new }
        ensures none { IfNone result (view pass.new ≡ view pass.old) }
        ensures rule { IfSome result (λ item. M.then (view pass.old) item (view pass.new)) }
    {
        let item = self.ring.pop_as::<M, R>(rt, pass)?;
        self.taken.wake_one();
        Some(item)
    }

    /// Returns how many looks are worthwhile before a sleep.
    pub(crate) fn looks(&self) -> u32 {
        self.patience.tries().div_ceil(TRIES)
    }

    /// Tries to take the first item a few times, with a pause before each try.
    pub(crate) fn look_as<M: Outcome<T, V> + Lesson<T, V>, R: Wait>(
        &self,
        rt: &R,
        pass: &mut Pass<T, V>,
    ) -> Option<T>
        requires queue { IsPassOf self.now.ring pass.old }
        requires rule { MayPop P.holds pass.old M.then M.fact }
        ensures queue { IsSamePass pass.old pass.new }
        ensures none { IfNone result (view pass.new ≡ view pass.old) }
        ensures rule { IfSome result (λ item. M.then (view pass.old) item (view pass.new)) }
    {
        for tried in 0..self.patience.tries().min(TRIES) {
            Patience::pause();
            if let Some(item) = self.pop_now_as::<M, R>(rt, pass) {
                self.patience.found(tried);
                return Some(item);
            }
        }
        None
    }

    // Looks for an item as long as that is worthwhile, unless another thread does.
    fn look_alone_as<M: Outcome<T, V> + Lesson<T, V>, R: Wait>(
        &self,
        rt: &R,
        pass: &mut Pass<T, V>,
    ) -> Option<T>
        requires queue { IsPassOf self.now.ring pass.old }
        requires rule { MayPop P.holds pass.old M.then M.fact }
        ensures queue { IsSamePass pass.old pass.new }
        ensures none { IfNone result (view pass.new ≡ view pass.old) }
        ensures rule { IfSome result (λ item. M.then (view pass.old) item (view pass.new)) }
    {
        if self.is_looked_at.load(Ordering::SeqCst)
            || self.is_looked_at.swap(true, Ordering::SeqCst)
        {
            return None;
        }
        let item = self.find_as::<M, R>(rt, pass);
        self.is_looked_at.store(false, Ordering::SeqCst);
        item
    }

    // Looks for an item as long as that is worthwhile.
    fn find_as<M: Outcome<T, V> + Lesson<T, V>, R: Wait>(
        &self,
        rt: &R,
        pass: &mut Pass<T, V>,
    ) -> Option<T>
        requires queue { IsPassOf self.now.ring pass.old }
        requires rule { MayPop P.holds pass.old M.then M.fact }
        ensures queue { IsSamePass pass.old pass.new }
        ensures none { IfNone result (view pass.new ≡ view pass.old) }
        ensures rule { IfSome result (λ item. M.then (view pass.old) item (view pass.new)) }
    {
        for _look in 0..self.looks() {
            if let Some(item) = self.look_as::<M, R>(rt, pass) {
                return Some(item);
            }
        }
        self.patience.in_vain();
        None
    }

    /// Takes the first item, and sleeps while there is none.
    pub(crate) fn sleep_as<M: Outcome<T, V> + Lesson<T, V>, R: Wait>(
        &self,
        rt: &R,
        pass: &mut Pass<T, V>,
    ) -> T
        requires queue { IsPassOf self.now.ring pass.old }
        requires rule { MayPop P.holds pass.old M.then M.fact }
        ensures queue { IsSamePass pass.old pass.new }
        ensures rule { M.then (view pass.old) result (view pass.new) }
    {
        let mut sleeper = self.sleepers.join(rt);
        for _ in rt.forever() {
            sleeper.turn();
            if let Some(item) = sleeper.look_as::<T, V, P, M>(&self.ring, pass) {
                sleeper.rise();
                self.taken.wake_one();
                return item;
            }
        }
        unreachable!()
    }

    /// Wakes a sleeper if there are so many items.
    pub(crate) fn wake_if_filled<R: Wait>(&self, rt: &R, pass: &mut Pass<T, V>, enough: usize)
        requires { IsPassOf self.now.ring pass.old }
        ensures { IsSamePass pass.old pass.new × (view pass.new ≡ view pass.old) }
    {
        if self.sleepers.count() > 0 && self.ring.len_as::<Free, R>(rt, pass) >= enough {
            self.sleepers.wake();
        }
    }
}
