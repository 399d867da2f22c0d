//! The queue of completions.
ghost use Rattle.std.specs.Prelude.{◌≡◌, ◌+◌, ◌<◌, [], ◌∷◌, ◌++◌, IfOk, IfSome, IfNone, OnSome};
ghost use Rattle.run_queues.specs.Numbers.{times};

use crate::numbered::Numbered;
use crate::ruled_queue::RuledQueue;
use crossbeam_queue::Pass;
use crossbeam_queue::protocol::{Lesson, Outcome, Protocol, Split};
use std::alloc::{AllocError, Global};
use std::collections::LinkedList;
use std::marker::Model;
use std::sync::Wait;

/// What a pass of the queue knows: whether it collects, for how many completions it gave turns, the numbers that it may report, and
/// those that it collected. Exists only in proofs.
pub struct Turn {
    pub collects: bool,
    pub given: u32,
    pub may_tell: LinkedList<u32>,
    pub collected: LinkedList<u32>,
}

/// The rule of completions.
pub struct ToldOnce;

impl<T: Numbered> Protocol<T, Turn> for ToldOnce {
    ghost use Rattle.run_queues.specs.Completions.{IsToldOnce, first_turn};

    ghost holds = { IsToldOnce T.number };

    ghost first = { first_turn };
}

// A push of a completion.
struct Pushed;

impl<T: Numbered> Outcome<T, Turn> for Pushed {
    ghost use Rattle.std.specs.Prelude.{◌≡◌};
    ghost use Rattle.run_queues.specs.Completions.{no_turn};

    ghost then = { λ v completion w. w ≡ no_turn };
}

impl<T: Numbered> Lesson<T, Turn> for Pushed {
    ghost use Rattle.std.specs.Prelude.{⊤};

    ghost fact = { λ v items. ⊤ };
}

// A pop of a completion.
struct Collected;

impl<T: Numbered> Outcome<T, Turn> for Collected {
    ghost use Rattle.std.specs.Prelude.{◌≡◌, ◌<◌};
    ghost use Rattle.run_queues.specs.Numbers.{times};
    ghost use Rattle.run_queues.specs.Completions.{after_collect};

    ghost then = { λ v completion w. (w ≡ after_collect (T.number completion) v) × (T.number completion < v.given) × (times (T.number completion) v.collected ≡ 0) };
}

impl<T: Numbered> Lesson<T, Turn> for Collected {
    ghost use Rattle.std.specs.Prelude.{⊤};

    ghost fact = { λ v items. ⊤ };
}

// How a turn is split off the pass that collects.
struct Giving;

impl Split<Turn> for Giving {
    ghost use Rattle.run_queues.specs.Completions.{after_turn, turn_of};

    ghost left = { after_turn };

    ghost right = { λ v. turn_of v.given };
}

type Completions<T> = RuledQueue<T, Turn, ToldOnce>;

type Seat<T> = Pass<T, Turn>;

/// A queue of completions, which one thread collects.
#[derive(Drop)]
pub struct CompletionQueue<T: Numbered + Drop> {
    line: Completions<T>,
}

impl<T: Numbered + Drop> Model for CompletionQueue<T> {
    ghost use Rattle.crossbeam_queue.specs.Passes.{ruled_capacity};
    ghost use Rattle.run_queues.specs.Parts.{QueueFacts};

    ghost Value = { QueueFacts };

    ghost view = { λ q. record { id = q.line.ring.table.shared.table_id; room = ruled_capacity q.line.ring } };
}

/// The right to collect completions, and to give tokens that report them.
#[derive(Drop)]
pub struct Collector<T: Numbered + Drop> {
    seat: Seat<T>,
}

impl<T: Numbered + Drop> Model for Collector<T> {
    ghost use Rattle.std.specs.Prelude.{◌≡◌, true, []};
    ghost use Rattle.run_queues.specs.Parts.{CollectorFacts, known};

    ghost Value = { CollectorFacts };

    ghost view = { λ c. record { queue = c.seat.table_id; given = (known c.seat).given; collected = (known c.seat).collected } };

    ghost invariant = { λ c. (c.seat.me.1 ≡ []) × ((known c.seat).collects ≡ true) };
}

/// The right to report one completion, once. It goes with its request to the thread that does it.
#[derive(Drop)]
pub struct CompletionToken<T: Numbered + Drop> {
    seat: Seat<T>,
    number: u32,
}

impl<T: Numbered + Drop> Model for CompletionToken<T> {
    ghost use Rattle.std.specs.Prelude.{◌≡◌, []};
    ghost use Rattle.run_queues.specs.Completions.{turn_of};
    ghost use Rattle.run_queues.specs.Parts.{TokenFacts, known};

    ghost Value = { TokenFacts };

    ghost view = { λ d. record { queue = d.seat.table_id; number = d.number } };

    ghost invariant = { λ d. (d.seat.me.1 ≡ []) × (known d.seat ≡ turn_of d.number) };
}

impl<T: Numbered + Drop> CompletionToken<T> {
    /// Returns the number of the completion.
    pub fn number(&self) -> u32
        ensures { result ≡ self.now.number }
    {
        self.number
    }
}

/// What is left of a token once its completion is reported. Only [`CompletionQueue::tell`] makes it, so it shows that the
/// completion of its number was reported.
#[derive(Drop)]
pub struct Acknowledgement<T: Numbered + Drop> {
    seat: Seat<T>,
    number: u32,
}

impl<T: Numbered + Drop> Model for Acknowledgement<T> {
    ghost use Rattle.std.specs.Prelude.{◌≡◌};
    ghost use Rattle.run_queues.specs.Completions.{no_turn};
    ghost use Rattle.run_queues.specs.Parts.{TokenFacts, known};

    ghost Value = { TokenFacts };

    ghost view = { λ r. record { queue = r.seat.table_id; number = r.number } };

    ghost invariant = { λ r. known r.seat ≡ no_turn };
}

impl<T: Numbered + Drop> CompletionQueue<T> {
    /// Returns a queue with room for `room` completions, and the right to collect them. All its memory is taken here.
    pub fn new(alloc: Global, room: usize) -> Result<(CompletionQueue<T>, Collector<T>), AllocError>
        requires { 0 < room }
        ensures queue { IfOk result (λ q. q.0.room ≡ room) }
        ensures collector { IfOk result (λ q. q.1 ≡ record { queue = q.0.id; given = 0; collected = [] }) }
    {
        let (line, seat) = RuledQueue::new(alloc, room, false)?;
        Ok((CompletionQueue { line }, Collector { seat }))
    }

    /// Returns the right to report the next completion. Its number is how many tokens were given before.
    pub fn token(&self, collector: &mut Collector<T>, number: u32) -> CompletionToken<T>
        requires own { collector.old.queue ≡ self.now.id }
        requires number { number ≡ collector.old.given }
        ensures token { result ≡ record { queue = self.now.id; number = number } }
        ensures collector { collector.new ≡ record collector.old { given = collector.old.given + 1 } }
    {
        let seat = self.line.ring.another::<Giving>(&mut collector.seat);
        CompletionToken { seat, number }
    }

    /// Reports a completion, which has the number of the token, and waits while there is no room. Uses up the token.
    pub fn tell<R: Wait>(
        &self,
        rt: &R,
        token: CompletionToken<T>,
        completion: T,
    ) -> Acknowledgement<T>
        requires own { token.queue ≡ self.now.id }
        requires number { T.number completion ≡ token.number }
        ensures { result ≡ token }
    {
        let CompletionToken { mut seat, number } = token;
        self.line.push_as::<Pushed, R>(rt, &mut seat, completion);
        self.line.sleepers.wake();
        Acknowledgement { seat, number }
    }

    /// Takes the first completion, and waits while there is none. A token was given for its number, and no completion of that
    /// number was collected before.
    pub fn collect<R: Wait>(&self, rt: &R, collector: &mut Collector<T>) -> T
        requires { collector.old.queue ≡ self.now.id }
        ensures collected { collector.new ≡ record collector.old { collected = collector.old.collected ++ T.number result ∷ [] } }
        ensures given { T.number result < collector.old.given }
        ensures first { times (T.number result) collector.old.collected ≡ 0 }
    {
        self.line.pop_as::<Collected, R>(rt, &mut collector.seat)
    }

    /// Takes the first completion if there is one now. Returns `None` if there is none.
    pub fn try_collect<R: Wait>(&self, rt: &R, collector: &mut Collector<T>) -> Option<T>
        requires { collector.old.queue ≡ self.now.id }
        ensures collected { IfSome result (λ c. collector.new ≡ record collector.old { collected = collector.old.collected ++ T.number c ∷ [] }) }
        ensures given { IfSome result (λ c. T.number c < collector.old.given) }
        ensures first { IfSome result (λ c. times (T.number c) collector.old.collected ≡ 0) }
        ensures none { IfNone result (collector.new ≡ collector.old) }
    {
        self.line
            .pop_now_as::<Collected, R>(rt, &mut collector.seat)
    }
}
