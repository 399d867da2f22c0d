//! How a thread waits for an item: how long it looks, how it sleeps, and whether a woken thread is still to come.
ghost use Rattle.std.specs.Prelude.{◌≡◌, true, false, IfNone, IfSome};
ghost use Rattle.crossbeam_queue.specs.Passes.{view, IsSamePass, IsPassOf};
ghost use Rattle.run_queues.specs.Allowed.{MayPop};

use crossbeam_queue::protocol::{Lesson, Outcome, Protocol};
use crossbeam_queue::{Pass, RuledArrayQueue};
use crossbeam_utils::CachePadded;
use std::hint;
use std::marker::Model;
use std::sync::Wait;
use std::sync::atomic::{AtomicBool, AtomicU32, AtomicUsize, Ordering};
use std::thread::Parker;
use std::time::Duration;
use wait_queue::{Tries, WaitQueue};

/// Maximum number of tries before a thread sleeps: some 60 microseconds in all, longer than a sleeping thread takes to wake and come.
const MOST: u32 = 1_024;

/// Number of looks in vain after which one look has the maximum number of tries again. If that look is in vain too, the next comes
/// after twice as many.
const AGAIN: u32 = 16;

/// Maximum number of looks in vain between two that have the maximum number of tries.
const SELDOM: u32 = 1_024;

/// How long a lookout sleeps until it looks again, in milliseconds.
const WATCH: u64 = 1;

/// How long a look at a queue is worthwhile. A look that finds an item makes the next twice as long, and a look in vain half as
/// long. Now and then a look has its full length, so that two threads that woke each other for every item stay awake again. Looks
/// are long if other threads bring items meanwhile, each on a processor of its own. They are short if those threads wait for this
/// one.
#[derive(Drop)]
pub(crate) struct Patience {
    tries: AtomicU32,
    /// The looks in vain since a look found an item or had its full length.
    vain: AtomicU32,
    /// How many of these it takes until a look has its full length.
    again: AtomicU32,
}

impl Patience {
    /// The first look has its full length.
    pub(crate) fn new() -> Patience {
        Patience {
            tries: AtomicU32::new(MOST),
            vain: AtomicU32::new(0),
            again: AtomicU32::new(AGAIN),
        }
    }

    /// Returns the number of tries of the next look.
    pub(crate) fn tries(&self) -> u32 {
        if self.vain.load(Ordering::SeqCst) < self.again.load(Ordering::SeqCst) {
            self.tries.load(Ordering::SeqCst)
        } else {
            MOST
        }
    }

    /// Pauses before a try, some 50 nanoseconds. A yield would give the processor away for a whole slice if other programs want it.
    pub(crate) fn pause() {
        hint::spin_loop();
    }

    /// Records a look that found an item after `tried` tries.
    pub(crate) fn found(&self, tried: u32) {
        let tries = self.tries.load(Ordering::SeqCst);
        let more = tries.max(tried).saturating_mul(2).min(MOST);
        if more != tries {
            self.tries.store(more, Ordering::SeqCst);
        }
        if self.vain.load(Ordering::SeqCst) > 0 {
            self.vain.store(0, Ordering::SeqCst);
            self.again.store(AGAIN, Ordering::SeqCst);
        }
    }

    /// Records a look that found nothing.
    pub(crate) fn in_vain(&self) {
        let vain = self.vain.load(Ordering::SeqCst);
        let again = self.again.load(Ordering::SeqCst);
        if vain < again {
            self.vain.store(vain + 1, Ordering::SeqCst);
        } else {
            self.vain.store(0, Ordering::SeqCst);
            self.again
                .store(again.saturating_mul(2).min(SELDOM), Ordering::SeqCst);
        }
        let tries = self.tries.load(Ordering::SeqCst);
        if tries > 1 {
            self.tries.store(tries / 2, Ordering::SeqCst);
        }
    }
}

/// Whether a woken thread is still to come.
#[derive(Drop)]
struct Coming {
    is_set: CachePadded<AtomicBool>,
}

/// The look at the queue that a woken thread owes once it has come. It can't be dropped, only ended. Contracts see whether a look
/// is owed.
struct OwedLook {
    owes_look: bool,
}

impl Model for OwedLook {
    ghost use Rattle.std.specs.Prelude.{Bool};

    ghost Value = { Bool };

    ghost view = { λ d. d.owes_look };
}

impl Coming {
    /// No woken thread is to come.
    fn new() -> Coming {
        Coming {
            is_set: CachePadded::new(AtomicBool::new(false)),
        }
    }

    /// Returns whether the caller has to wake a thread, because no woken one is still to come.
    fn claim(&self) -> bool {
        !self.is_set.load(Ordering::SeqCst) && !self.is_set.swap(true, Ordering::SeqCst)
    }

    /// Records that a thread has come, so the next push wakes one again. What was pushed before is left to this thread, which owes
    /// a look from now on.
    fn come(&self, owed: &mut OwedLook)
        ensures { owed.new ≡ true }
    {
        owed.owes_look = true;
        self.is_set.store(false, Ordering::SeqCst);
    }
}

impl OwedLook {
    /// No look is owed.
    fn new() -> OwedLook
        ensures { result ≡ false }
    {
        OwedLook { owes_look: false }
    }

    /// Takes the first item of the queue, if there is one.
    fn look_as<T: Drop, V, P: Protocol<T, V>, M: Outcome<T, V> + Lesson<T, V>, R: Wait>(
        &mut self,
        rt: &R,
        ring: &RuledArrayQueue<T, V, P>,
        pass: &mut Pass<T, V>,
    ) -> Option<T>
        requires queue { IsPassOf ring.now pass.old }
        requires rule { MayPop P.holds pass.old M.then M.fact }
        ensures looked { self.new ≡ false }
        ensures queue { IsSamePass pass.old pass.new }
        ensures none { IfNone result (view pass.new ≡ view pass.old) }
        ensures rule { IfSome result (λ item. M.then (view pass.old) item (view pass.new)) }
    {
        self.owes_look = false;
        ring.pop_as::<M, R>(rt, pass)
    }

    /// Drops this, which is possible only if no look is owed.
    fn end(self)
        requires { self ≡ false }
    {
        let OwedLook { owes_look: _ } = self;
    }
}

/// The threads that sleep because they found nothing, or are about to sleep.
///
/// One of them is the lookout. If `is_timed`, it looks again after a while though nobody wakes it, and once it has risen another takes
/// its place. So a push may leave its item to a thread that is awake: if that thread is held elsewhere, the lookout finds the item.
#[derive(Drop)]
pub(crate) struct Sleepers {
    /// How many they are. It changes with each sleep, so it shares its cache lines with nothing else.
    count: CachePadded<AtomicUsize>,
    coming: Coming,
    has_lookout: AtomicBool,
    /// Where the lookout sleeps.
    lookout: Parker,
    /// Where the others sleep.
    others: WaitQueue,
    is_timed: bool,
}

impl Sleepers {
    /// Makes an empty set of sleepers. Without a time limit, one thread at most may sleep.
    pub(crate) fn new(is_timed: bool) -> Sleepers {
        Sleepers {
            count: CachePadded::new(AtomicUsize::new(0)),
            coming: Coming::new(),
            has_lookout: AtomicBool::new(false),
            lookout: Parker::new(),
            others: WaitQueue::new(),
            is_timed,
        }
    }

    /// Returns how many there are.
    pub(crate) fn count(&self) -> usize {
        self.count.load(Ordering::SeqCst)
    }

    /// Wakes one, unless a woken thread is still to come: the lookout if it is the only one.
    pub(crate) fn wake(&self) {
        let count = self.count();
        if count == 0 || !self.coming.claim() {
            return;
        }
        if count > 1 {
            self.others.wake_one();
        } else {
            self.lookout.unpark();
        }
    }

    /// Wakes all.
    pub(crate) fn wake_all(&self) {
        self.lookout.unpark();
        self.others.wake_all();
    }

    /// Counts the calling thread as a sleeper.
    pub(crate) fn join<'q, R: Wait>(&'q self, rt: &'q R) -> Sleeper<'q, R>
        ensures { result ≡ false }
    {
        self.count.fetch_add(1, Ordering::SeqCst);
        Sleeper {
            rt,
            sleepers: self,
            is_lookout: false,
            tries: self.others.announced_tries(rt),
            owed: OwedLook::new(),
        }
    }

    /// Returns whether the caller is the lookout from now on, because there was none.
    fn claim_lookout(&self) -> bool {
        !self.has_lookout.load(Ordering::SeqCst) && !self.has_lookout.swap(true, Ordering::SeqCst)
    }

    /// Sleeps as the lookout.
    fn watch<R: Wait>(&self, rt: &R) {
        if self.is_timed {
            self.lookout.park_timeout(rt, Duration::from_millis(WATCH));
        } else {
            self.lookout.park(rt);
        }
    }

    /// Stops counting a thread as a sleeper. If it was the lookout, it wakes another, which takes its place.
    fn leave(&self, is_lookout: bool) {
        if is_lookout {
            self.has_lookout.store(false, Ordering::SeqCst);
        }
        if self.count.fetch_sub(1, Ordering::SeqCst) > 1 && is_lookout {
            self.others.wake_one();
        }
    }
}

/// A thread that counts as a sleeper until [`Sleeper::rise`]; it can't be dropped. Contracts see whether it owes a look.
pub(crate) struct Sleeper<'q, R: Wait> {
    rt: &'q R,
    sleepers: &'q Sleepers,
    is_lookout: bool,
    /// Its tries among the others, unless it is the lookout.
    tries: Tries<'q, R>,
    owed: OwedLook,
}

impl<'q, R: Wait> Model for Sleeper<'q, R> {
    ghost use Rattle.std.specs.Prelude.{Bool};

    ghost Value = { Bool };

    ghost view = { λ s. s.owed };
}

impl<'q, R: Wait> Sleeper<'q, R> {
    /// Begins a turn: sleeps unless it is the first turn, announces the next sleep, and records that the thread has come. A thread
    /// that owes a look doesn't sleep.
    pub(crate) fn turn(&mut self)
        requires looked { self.old ≡ false }
        ensures { self.new ≡ true }
    {
        if self.is_lookout {
            self.sleepers.watch(self.rt);
        } else if !self.becomes_lookout() {
            let _turn = self.tries.next();
            // The lookout may have risen since, and have found no announcement of this thread's.
            self.becomes_lookout();
        }
        self.sleepers.coming.come(&mut self.owed);
    }

    // Becomes the lookout if there is none. It waits with the others no longer then.
    fn becomes_lookout(&mut self) -> bool
        ensures { self.new ≡ self.old }
    {
        self.is_lookout = self.sleepers.claim_lookout();
        if self.is_lookout {
            self.tries = self.sleepers.others.announced_tries(self.rt);
        }
        self.is_lookout
    }

    /// Takes the first item of the queue, if there is one.
    pub(crate) fn look_as<T: Drop, V, P: Protocol<T, V>, M: Outcome<T, V> + Lesson<T, V>>(
        &mut self,
        ring: &RuledArrayQueue<T, V, P>,
        pass: &mut Pass<T, V>,
    ) -> Option<T>
        requires queue { IsPassOf ring.now pass.old }
        requires rule { MayPop P.holds pass.old M.then M.fact }
        ensures looked { self.new ≡ false }
        ensures queue { IsSamePass pass.old pass.new }
        ensures none { IfNone result (view pass.new ≡ view pass.old) }
        ensures rule { IfSome result (λ item. M.then (view pass.old) item (view pass.new)) }
    {
        self.owed.look_as::<T, V, P, M, R>(self.rt, ring, pass)
    }

    /// Stops counting the thread as a sleeper.
    pub(crate) fn rise(self)
        requires looked { self ≡ false }
    {
        let Sleeper {
            rt: _,
            sleepers,
            is_lookout,
            tries: _,
            owed,
        } = self;
        owed.end();
        sleepers.leave(is_lookout);
    }
}
