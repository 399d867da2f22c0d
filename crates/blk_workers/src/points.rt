//! The points of a run: how it passes them, and how a test holds it there.
ghost use Rattle.std.specs.Prelude.{◌≡◌, ◌<◌, true};
ghost use Rattle.blk_workers.specs.Points.{AddsOne, at_point, none_passed};
ghost use Rattle.blk_workers.specs.declared.points.Point.TheVariants.{Entered, Drawn, Answered};

use crate::job::{CompletedJob, Job};
use crate::naming::{QueueName, Run};
use freeze_queue::{Freezer, Tag};
use std::marker::{Brand, Model, PhantomData};

/// A point that each accepted request, or each drain, passes.
#[derive(Clone, Copy, Debug, PartialEq, Eq)]
pub enum Point {
    /// The submitter has entered the queue for a request, and hasn't pushed it to the workers yet.
    Entered,
    /// A worker has drawn the request.
    Drawn,
    /// A worker has reported the request's completion, and hasn't left the queue yet.
    Answered,
    /// The submitter has drained the queue for a line that drains, before an ordered request or at the end. This point is passed
    /// too if the queue was frozen, and so drained, already.
    Drained,
}

/// Holds a run at its points, for as long as a call of `at` takes. The replies and the disk don't depend on it.
pub trait Stall: Sync {
    /// Called when the run is at `point` with the accepted request `number`, counted from 0; at `Drained`, after `number` accepted
    /// requests.
    fn at(&self, number: u32, point: Point);
}

/// A stall that holds nothing.
#[derive(Clone, Copy, Debug, PartialEq, Eq)]
pub struct NoStall;

impl Stall for NoStall {
    fn at(&self, _number: u32, _point: Point) {}
}

/// Shows that a request of the run `J` was at a point. Only the run's points make it, and the request's next step takes it.
#[derive(Drop)]
pub(crate) struct Passed<J> {
    number: u32,
    point: Point,
    of: PhantomData<J>,
}

impl<J> Model for Passed<J> {
    ghost use Rattle.blk_workers.specs.Points.{PassedFacts};

    ghost Value = { PassedFacts };

    ghost view = { λ p. record { number = p.number; point = p.point } };
}

/// The points of the run `J`, and the stall that is called at each. Nothing else of a run calls the stall.
///
/// `run_checked` makes them, with the caller's stall. `new` is of `Brand` alone, so a function for every run `J` can't make others.
#[derive(Drop)]
pub(crate) struct RunPoints<'a, J, S> {
    stall: &'a S,
    of: PhantomData<J>,
}

impl<'a, S> RunPoints<'a, Brand, S> {
    /// Returns the points of a run with this stall.
    pub(crate) fn new(stall: &'a S) -> RunPoints<'a, Brand, S> {
        RunPoints {
            stall,
            of: PhantomData,
        }
    }
}

impl<'a, J: Run, S: Stall> RunPoints<'a, J, S> {
    // Passes this point with this request, by a call of the stall. Each point of a request is passed here.
    fn pass(&self, number: u32, point: Point) -> Passed<J>
        ensures { result ≡ at_point number point }
    {
        self.stall.at(number, point);
        Passed {
            number,
            point,
            of: PhantomData,
        }
    }

    /// Passes `Entered`: the request of this number has entered with this tag. No job has the tag yet, so the request isn't pushed.
    pub(crate) fn pass_entered(&self, number: u32, tag: &Tag) -> Passed<J>
        requires entered { tag.now.entered ≡ true }
        ensures { result ≡ at_point number Entered }
    {
        self.pass(number, Point::Entered)
    }

    /// Passes `Drawn`: a worker has drawn this job.
    pub(crate) fn pass_drawn<C: QueueName>(&self, number: u32, job: &Job<J, C>) -> Passed<J>
        requires number { number ≡ job.now.token.number }
        ensures { result ≡ at_point number Drawn }
    {
        self.pass(number, Point::Drawn)
    }

    /// Passes `Answered`: the completion of this job is reported, and its tag is still entered.
    pub(crate) fn pass_answered<C: QueueName>(
        &self,
        number: u32,
        job: &CompletedJob<J, C>,
    ) -> Passed<J>
        requires number { number ≡ job.now.acknowledgement.number }
        ensures { result ≡ at_point number Answered }
    {
        self.pass(number, Point::Answered)
    }
}

/// The drains whose points the run `J` has passed. Contracts see how many, and how many requests were accepted before the last.
///
/// `run_checked` makes them, as it makes [`RunPoints`].
#[derive(Drop)]
pub(crate) struct DrainPoints<J> {
    count: u64,
    after: u32,
    of: PhantomData<J>,
}

impl<J> Model for DrainPoints<J> {
    ghost use Rattle.blk_workers.specs.Points.{DrainFacts};

    ghost Value = { DrainFacts };

    ghost view = { λ d. record { count = d.count; after = d.after } };
}

impl DrainPoints<Brand> {
    /// No drain has been passed.
    pub(crate) fn new() -> DrainPoints<Brand>
        ensures { result ≡ none_passed }
    {
        DrainPoints {
            count: 0,
            after: 0,
            of: PhantomData,
        }
    }
}

impl<J: Run> DrainPoints<J> {
    /// Passes `Drained`: the queue of this freezer is drained, after `after` accepted requests.
    pub(crate) fn pass<S: Stall>(
        &mut self,
        points: &RunPoints<'_, J, S>,
        freezer: &Freezer,
        after: u32,
    )
        requires frozen { 0 < freezer.now.depth }
        requires drained { freezer.now.drained ≡ true }
        ensures { AddsOne after self.old self.new }
    {
        let Passed { number, .. } = points.pass(after, Point::Drained);
        self.count = self.count.saturating_add(1);
        self.after = number;
    }
}
