//! The queue of requests.
ghost use Rattle.std.specs.Prelude.{◌≡◌, ◌+◌, ◌-◌, ◌<◌, ◌≤◌, true, false, [], IfOk, OnOk, OnErr, length, map};
ghost use Rattle.run_queues.specs.Numbers.{Draws, IsIncreasing};
ghost use Rattle.run_queues.specs.Requests.{all_parts};
ghost use Rattle.run_queues.specs.Parts.{after_draw, after_gather, new_source};

use crate::numbered::Numbered;
use crate::ruled_queue::RuledQueue;
use crossbeam_queue::Pass;
use crossbeam_queue::protocol::{Free, Join, Lesson, Outcome, Protocol, Split};
use std::alloc::{AllocError, Global};
use std::collections::LinkedList;
use std::marker::Model;
use std::sync::Wait;

/// What a pass of the queue knows: its parts of the right to draw; whether it pushes, and how many requests and end marks it
/// pushed; whether it took an end mark, and the numbers that it drew. Exists only in proofs.
pub struct Part {
    pub parts: u32,
    pub pushes: bool,
    pub pushed: u32,
    pub marks: u32,
    pub drained: bool,
    pub drawn: LinkedList<u32>,
}

/// The rule of requests.
pub struct InOrder;

impl<T: Numbered> Protocol<Option<T>, Part> for InOrder {
    ghost use Rattle.run_queues.specs.Requests.{IsInOrder, first_part};

    ghost holds = { IsInOrder T.number };

    ghost first = { first_part };
}

// A push of a request.
struct Pushed;

impl<T: Numbered> Outcome<Option<T>, Part> for Pushed {
    ghost use Rattle.std.specs.Prelude.{◌≡◌};
    ghost use Rattle.run_queues.specs.Requests.{after_push};

    ghost then = { λ v item w. w ≡ after_push v };
}

impl<T: Numbered> Lesson<Option<T>, Part> for Pushed {
    ghost use Rattle.std.specs.Prelude.{⊤};

    ghost fact = { λ v items. ⊤ };
}

// A push of an end mark.
struct Ended;

impl<T: Numbered> Outcome<Option<T>, Part> for Ended {
    ghost use Rattle.std.specs.Prelude.{◌≡◌};
    ghost use Rattle.run_queues.specs.Requests.{after_end};

    ghost then = { λ v item w. w ≡ after_end v };
}

impl<T: Numbered> Lesson<Option<T>, Part> for Ended {
    ghost use Rattle.std.specs.Prelude.{⊤};

    ghost fact = { λ v items. ⊤ };
}

// A pop of a request or of an end mark.
struct Popped;

impl<T: Numbered> Outcome<Option<T>, Part> for Popped {
    ghost use Rattle.std.specs.Prelude.{◌≡◌};
    ghost use Rattle.run_queues.specs.Numbers.{IsIncreasing};
    ghost use Rattle.run_queues.specs.Requests.{after_pop};

    ghost then = { λ v item w. (w ≡ after_pop T.number item v) × IsIncreasing w.drawn };
}

impl<T: Numbered> Lesson<Option<T>, Part> for Popped {
    ghost use Rattle.std.specs.Prelude.{⊤};

    ghost fact = { λ v items. ⊤ };
}

// How a consumer is split off the source, and joins it again.
struct Drawing;

impl Split<Part> for Drawing {
    ghost use Rattle.run_queues.specs.Requests.{after_split, new_consumer};

    ghost left = { after_split };

    ghost right = { λ v. new_consumer };
}

impl Join<Part> for Drawing {
    ghost use Rattle.run_queues.specs.Requests.{joined, spent};

    ghost both = { joined };

    ghost spent = { spent };
}

// What the source learns once all consumers are back.
struct Total;

impl<T: Numbered> Lesson<Option<T>, Part> for Total {
    ghost use Rattle.run_queues.specs.Requests.{HasDrawnAll};

    ghost fact = { λ v items. HasDrawnAll v };
}

type Requests<T> = RuledQueue<Option<T>, Part, InOrder>;

type Seat<T> = Pass<Option<T>, Part>;

/// Maximum number of pushes after which a thread is woken if all sleep.
const BATCH: usize = 16;

/// A queue of requests, from which several threads draw.
///
/// A thread that draws wakes no other. A push wakes one after some pushes if all sleep, and whoever pushes wakes more by need.
#[derive(Drop)]
pub struct RequestQueue<T: Numbered + Drop> {
    line: Requests<T>,
    consumers: usize,
    /// The number of pushes after which a thread is woken if all sleep.
    batch: usize,
}

impl<T: Numbered + Drop> Model for RequestQueue<T> {
    ghost use Rattle.crossbeam_queue.specs.Passes.{ruled_capacity};
    ghost use Rattle.run_queues.specs.Parts.{QueueFacts};

    ghost Value = { QueueFacts };

    ghost view = { λ q. record { id = q.line.ring.table.shared.table_id; room = ruled_capacity q.line.ring } };
}

/// The right to push requests, and the lists of what the consumers drew.
#[derive(Drop)]
pub struct Source<T: Numbered + Drop> {
    seat: Seat<T>,
    /// The number of pushes since the last after which a thread was woken if all slept.
    untold: usize,
    lists: Vec<Vec<u32>>,
}

impl<T: Numbered + Drop> Model for Source<T> {
    ghost use Rattle.std.specs.Prelude.{◌≡◌, true, [], map, vec_capacity};
    ghost use Rattle.run_queues.specs.Parts.{SourceFacts, AreGathered, known};

    ghost Value = { SourceFacts };

    ghost view = { λ s. record { queue = s.seat.table_id; parts = (known s.seat).parts; pushed = (known s.seat).pushed; marks = (known s.seat).marks; drained = (known s.seat).drained; lists = map (λ list. list.items) s.lists.items; room = vec_capacity s.lists } };

    ghost invariant = { λ s. (s.seat.me.1 ≡ []) × ((known s.seat).pushes ≡ true) × AreGathered (map (λ list. list.items) s.lists.items) (known s.seat).drawn };
}

/// The right to draw requests, and the numbers of those that it drew.
#[derive(Drop)]
pub struct Consumer<T: Numbered + Drop> {
    seat: Seat<T>,
    drawn: Vec<u32>,
}

impl<T: Numbered + Drop> Model for Consumer<T> {
    ghost use Rattle.std.specs.Prelude.{◌≡◌, [], vec_capacity};
    ghost use Rattle.run_queues.specs.Numbers.{IsIncreasing};
    ghost use Rattle.run_queues.specs.Requests.{new_consumer};
    ghost use Rattle.run_queues.specs.Parts.{ConsumerFacts, known};

    ghost Value = { ConsumerFacts };

    ghost view = { λ d. record { queue = d.seat.table_id; drained = (known d.seat).drained; drawn = d.drawn.items; room = vec_capacity d.drawn } };

    ghost invariant = { λ d. (d.seat.me.1 ≡ []) × (known d.seat ≡ record new_consumer { drained = (known d.seat).drained; drawn = d.drawn.items }) × IsIncreasing d.drawn.items };
}

impl<T: Numbered + Drop> RequestQueue<T> {
    /// Returns a queue with room for `room` requests and end marks, and the right to push into it. The memory for the lists of
    /// `consumers` consumers is taken here too.
    pub fn new(
        alloc: Global,
        room: usize,
        consumers: usize,
    ) -> Result<(RequestQueue<T>, Source<T>), AllocError>
        requires { 0 < room }
        ensures queue { IfOk result (λ q. (q.0.room ≡ room) × (q.1.queue ≡ q.0.id)) }
        ensures source { IfOk result (λ q. q.1 ≡ new_source q.0.id consumers) }
    {
        let lists = Vec::with_capacity(alloc, consumers)?;
        let batch = (room / 2).clamp(1, BATCH);
        // A sole thread that is woken for each request needs no lookout.
        let (line, seat) = RuledQueue::new(alloc, room, consumers > 1 || batch > 1)?;
        let queue = RequestQueue {
            line,
            consumers,
            batch,
        };
        let source = Source {
            seat,
            untold: 0,
            lists,
        };
        Ok((queue, source))
    }

    /// Returns a right to draw, with memory for `room` numbers. It is split off the right to push, and comes back to it by
    /// [`RequestQueue::gather`].
    pub fn consumer(
        &self,
        alloc: Global,
        source: &mut Source<T>,
        room: usize,
    ) -> Result<Consumer<T>, AllocError>
        requires own { source.old.queue ≡ self.now.id }
        requires parts { 1 < source.old.parts }
        ensures consumer { IfOk result (λ d. d ≡ record { queue = self.now.id; drained = false; drawn = []; room = room }) }
        ensures source { IfOk result (λ _. source.new ≡ record source.old { parts = source.old.parts - 1 }) }
        ensures err { OnErr result (source.new ≡ source.old) }
    {
        let drawn = Vec::with_capacity(alloc, room)?;
        let seat = self.line.ring.another::<Drawing>(&mut source.seat);
        Ok(Consumer { seat, drawn })
    }

    /// Pushes the next request, and waits while there is no room. Its number is how many requests were pushed before. No request
    /// may follow an end mark. A thread that sleeps finds it after a while, or once it is woken.
    pub fn push<R: Wait>(&self, rt: &R, source: &mut Source<T>, request: T)
        requires own { source.old.queue ≡ self.now.id }
        requires open { source.old.marks ≡ 0 }
        requires number { T.number request ≡ source.old.pushed }
        ensures { source.new ≡ record source.old { pushed = source.old.pushed + 1 } }
    {
        self.line
            .push_as::<Pushed, R>(rt, &mut source.seat, Some(request));
        source.untold = source.untold.saturating_add(1);
        if source.untold >= self.batch {
            source.untold = 0;
            self.wake_if_all_sleep();
        }
    }

    /// Wakes a thread if all sleep. Call this before you wait for what the threads do.
    pub fn wake_if_all_sleep(&self) {
        if self.line.sleepers.count() >= self.consumers {
            self.line.sleepers.wake();
        }
    }

    /// Wakes one more thread if there is a request or an end mark that none has taken. Call this after you waited in vain.
    pub fn wake_one_more<R: Wait>(&self, rt: &R, source: &mut Source<T>)
        requires { source.old.queue ≡ self.now.id }
        ensures { source.new ≡ source.old }
    {
        self.line.wake_if_filled(rt, &mut source.seat, 1);
    }

    /// Wakes all threads. Call this once all end marks are pushed, so that the threads end at once.
    pub fn wake_all(&self) {
        self.line.sleepers.wake_all();
    }

    /// Pushes one end mark, and waits while there is no room. One call of `draw` then returns `None`. Wakes a thread if all sleep.
    pub fn end<R: Wait>(&self, rt: &R, source: &mut Source<T>)
        requires { source.old.queue ≡ self.now.id }
        ensures { source.new ≡ record source.old { marks = source.old.marks + 1 } }
    {
        self.line.push_as::<Ended, R>(rt, &mut source.seat, None);
        self.wake_if_all_sleep();
    }

    /// Returns whether there is no item, at one moment of the call.
    pub fn is_empty(&self, consumer: &mut Consumer<T>) -> bool
        requires { consumer.old.queue ≡ self.now.id }
        ensures { consumer.new ≡ consumer.old }
    {
        self.line.ring.is_empty_as::<Free>(&mut consumer.seat)
    }

    /// Takes the first item, and waits while there is none. Returns a request, or `None` for an end mark.
    ///
    /// Returns `AllocError`, with nothing taken, if the list has no room left and is refused more memory.
    pub fn draw<R: Wait>(&self, rt: &R, consumer: &mut Consumer<T>) -> Result<Option<T>, AllocError>
        requires { consumer.old.queue ≡ self.now.id }
        ensures drawn { IfOk result (λ item. consumer.new ≡ record (after_draw T.number item consumer.old) { room = consumer.new.room }) }
        ensures increasing { IsIncreasing consumer.new.drawn }
        ensures room { consumer.old.room ≤ consumer.new.room }
        ensures full { OnErr result (consumer.old.room ≤ length consumer.old.drawn) }
        ensures err { OnErr result (consumer.new ≡ consumer.old) }
    {
        consumer.drawn.reserve(1)?;
        let drawn = self.line.pop_as::<Popped, R>(rt, &mut consumer.seat);
        if let Some(request) = &drawn {
            consumer.drawn.push_reserved(request.number());
        }
        Ok(drawn)
    }

    /// Takes a right to draw back, with the list of what it drew. Returns `AllocError` if there is no room for one more list and
    /// more memory is refused.
    pub fn gather(&self, source: &mut Source<T>, consumer: Consumer<T>) -> Result<(), AllocError>
        requires own { (source.old.queue ≡ self.now.id) × (consumer.queue ≡ self.now.id) }
        requires parts { 0 < source.old.parts }
        ensures ok { OnOk result (source.new ≡ after_gather consumer source.new.room source.old) }
        ensures room { source.old.room ≤ source.new.room }
        ensures full { OnErr result (source.old.room ≤ length source.old.lists) }
        ensures err { OnErr result (source.new ≡ source.old) }
    {
        source.lists.reserve(1)?;
        let Consumer { seat, drawn } = consumer;
        self.line.ring.absorb::<Drawing>(&mut source.seat, seat);
        source.lists.push_reserved(drawn);
        Ok(())
    }

    /// Returns the lists of what the consumers drew: each request was drawn once, and each list increases.
    pub fn finish(&self, source: Source<T>) -> Vec<Vec<u32>>
        requires own { source.queue ≡ self.now.id }
        requires parts { source.parts ≡ all_parts }
        requires drained { source.drained ≡ true }
        ensures lists { map (λ list. list.items) result.items ≡ source.lists }
        ensures draws { Draws source.pushed source.lists }
    {
        let Source {
            mut seat,
            untold: _,
            lists,
        } = source;
        self.line.ring.learn_as::<Total>(&mut seat);
        lists
    }
}
