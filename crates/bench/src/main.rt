//! Times rounds of the gate and of the queue, and changes of the queue's limits beside them, from Rattle.
//!
//! `bench THREADS ROUNDS CHANGES` prints a line `gate,ROUNDS,NANOSECONDS,0`. For a queue whose threads enter by the gate (`leaves`),
//! and then for a queue whose tags are biased (`lanes`), it prints a line `WHAT,ROUNDS,NANOSECONDS,SUM` without changes, a line
//! `change,NANOSECONDS` for each change, and a line `WHAT,ROUNDS,NANOSECONDS,SUM` for the requests during the changes. All threads
//! begin at once. The nanoseconds are from when the first thread begins until the last one ends. SUM adds up the limits of the
//! requests, so that they are read.
#![tactic(auto)]

ghost use Rattle.std.specs.Prelude.{◌≡◌, ◌<◌, ◌≤◌, All, IfSome, false};
ghost use Rattle.percpu_gate.specs.Calls.{holding};
ghost use Rattle.freeze_queue.specs.BiasedTags.{queue_of, in_now};
ghost use Rattle.bench.specs.declared.TheConstants.{HARDWARE};
ghost use Rattle.bench.specs.Own.{IsOwn};

use freeze_queue::{BiasedTag, BlockQueue, Freezer, Memory, Tag};
use percpu_core::Start;
use percpu_gate::{Gate, Pass, Tried};
use queue_limits::Limits;
use std::alloc::AllocError;
use std::process::ExitCode;
use std::rt::Env;
use std::sync::atomic::{AtomicBool, AtomicU32, Ordering};
use std::sync::{Barrier, Wait};
use std::thread::{self, Threads};
use std::time::{Clock, Duration, Instant};
use std::{env, io};
use thiserror::Error;
use uses::change_limits;

const HARDWARE: u32 = 64;
/// Number of requests between two looks at whether the changes are over.
const BATCH: u32 = 1_024;

/// The handles of the machine that the measurements use.
trait Host: Threads + Wait + Sync + Clock + Print + Env + AllocGlobal {}

impl<R: Threads + Wait + Sync + Clock + Print + Env + AllocGlobal> Host for R {}

/// Why there are no measurements.
#[derive(Debug, Drop, Error)]
enum Fault {
    #[error("usage: bench THREADS ROUNDS CHANGES, up to 63 threads")]
    Usage,
    #[error("{0}")]
    Made(#[from] Memory),
    #[error("memory")]
    Memory(#[from(alloc)] AllocError),
    #[error("{0}")]
    System(#[from] io::Error),
}

/// The number of rounds of all threads, and the times when the first thread began and the last one ended.
#[derive(Drop)]
struct Rounds {
    count: u64,
    /// The sum of the limits that the rounds read.
    sum: u64,
    began: Instant,
    ended: Instant,
}

impl Rounds {
    /// Adds another thread's rounds.
    fn and(self, other: Rounds) -> Rounds {
        Rounds {
            count: self.count.saturating_add(other.count),
            sum: self.sum.wrapping_add(other.sum),
            began: self.began.min(other.began),
            ended: self.ended.max(other.ended),
        }
    }
}

/// Prints the rounds of all threads.
fn print_rounds(
    rt: &impl Host,
    what: &str,
    of_threads: Vec<io::Result<Rounds>>,
) -> Result<(), Fault> {
    let mut all: Option<Rounds> = None;
    for rounds in of_threads {
        let rounds = rounds?;
        all = Some(match all {
            Some(others) => others.and(rounds),
            None => rounds,
        });
    }
    let Some(all) = all else { return Ok(()) };
    let taken = all.ended.duration_since(all.began).as_nanos();
    println!(rt; "{what},{},{taken},{}", all.count, all.sum)?;
    Ok(())
}

/// Makes rounds. Each tries for a reference of a live gate, and puts it.
#[inline(never)]
fn through_gate(gate: &Gate<0>, mut pass: Pass<0>, slot: u32, rounds: u32)
    requires own { pass.gate ≡ gate.now }
    requires slot { slot < gate.now.slots }
    requires none { pass.view.standing ≡ holding 0 }
{
    for _ in 0..rounds {
        if let Tried::Given = pass.try_get_live(gate, slot) {
            pass.put(gate, slot, 1);
        }
    }
}

/// Times the rounds of a gate, on threads that each have a pass and a slot.
fn time_gate(rt: &impl Host, threads: u32, rounds: u32) -> Result<(), Fault>
    requires threads { (1 ≤ threads) × (threads ≤ 63) }
{
    let Ok((gate, _control, passes)) = Gate::<0>::new(
        rt.alloc(),
        threads,
        threads,
        Start::Slots,
        [],
    ) else {
        return Err(Fault::Memory(AllocError));
    };
    let (next, all_there) = (AtomicU32::new(0), Barrier::new(threads as usize));
    let (gate, next, all_there) = (&gate, &next, &all_there);
    let run = move |pass: Pass<0>| -> io::Result<Rounds>
        requires { (pass.gate ≡ gate.now) × (pass.view.standing ≡ holding 0) × (1 ≤ threads) × (threads ≡ gate.now.slots) }
    {
        let slot = next.fetch_add(1, Ordering::SeqCst) % threads;
        all_there.wait(rt);
        let began = Instant::now(rt)?;
        through_gate(gate, pass, slot, rounds);
        Ok(Rounds {
            count: u64::from(rounds),
            sum: 0,
            began,
            ended: Instant::now(rt)?,
        })
    };
    let of_threads = thread::map_vec(rt, passes, &run)?;
    print_rounds(rt, "gate", of_threads)
}

/// Returns the sum of the limits, so that a request reads each of them.
fn sum_of(limits: Limits) -> u64 {
    u64::from(limits.max()) + u64::from(limits.chunk()) + u64::from(limits.physical())
}

/// Makes requests that each enter, read the limits and leave. Returns the sum of all limits.
#[inline(never)]
fn leave_each(rt: &impl Host, queue: &BlockQueue, tag: &mut Tag, slot: u32, rounds: u32) -> u64
    requires own { tag.old.queue ≡ queue.now }
    requires slot { slot < queue.now.gate.slots }
    requires out { tag.old.entered ≡ false }
    ensures out { (tag.new.queue ≡ queue.now) × (tag.new.entered ≡ false) }
{
    let mut sum = 0u64;
    for _ in 0..rounds {
        queue.enter(rt, tag, slot);
        sum = sum.wrapping_add(sum_of(queue.limits(tag)));
        queue.leave(tag, slot);
    }
    sum
}

/// Makes requests that each enter, read the limits and leave by the tag's lane. Returns the sum of all limits.
#[inline(never)]
fn leave_by_lanes(
    rt: &impl Host,
    queue: &BlockQueue,
    tag: &mut BiasedTag,
    slot: u32,
    rounds: u32,
) -> u64
    requires own { queue_of tag.old ≡ queue.now }
    requires slot { slot < queue.now.gate.slots }
    requires out { in_now tag.old ≡ false }
    ensures out { (queue_of tag.new ≡ queue.now) × (in_now tag.new ≡ false) }
{
    let mut sum = 0u64;
    for _ in 0..rounds {
        queue.enter_by_lane(rt, tag, slot);
        sum = sum.wrapping_add(sum_of(tag.limits()));
        queue.leave_by_lane(tag, slot, true);
    }
    sum
}

/// The tag of a thread, which is biased or not.
#[derive(Drop)]
enum Own {
    Plain(Tag),
    Biased(BiasedTag),
}

impl Own {
    /// Returns a tag as it is, or as one that can be biased.
    fn of(tag: Tag, course: &Course) -> Own
        requires out { tag.entered ≡ false }
        ensures { IsOwn tag.queue result }
    {
        if course.lanes {
            return Own::Biased(tag.into_biased(course.limits));
        }
        Own::Plain(tag)
    }
}

/// How threads make requests to a queue: in batches, until the changes are over.
#[derive(Drop)]
struct Course {
    /// Whether the tags are biased. Until they enter, their limits are these.
    lanes: bool,
    limits: Limits,
    batch: u32,
    all_there: Barrier,
    is_over: AtomicBool,
}

/// Makes requests with a thread's tag.
fn through(rt: &impl Host, queue: &BlockQueue, own: &mut Own, slot: u32, rounds: u32) -> u64
    requires own { IsOwn queue.now own.old }
    requires slot { slot < queue.now.gate.slots }
    ensures own { IsOwn queue.now own.new }
{
    match own {
        Own::Plain(tag) => leave_each(rt, queue, tag, slot, rounds),
        Own::Biased(tag) => leave_by_lanes(rt, queue, tag, slot, rounds),
    }
}

/// Makes the batches of one thread.
fn through_queue(
    rt: &impl Host,
    queue: &BlockQueue,
    mut own: Own,
    slot: u32,
    course: &Course,
) -> io::Result<Rounds>
    requires own { IsOwn queue.now own }
    requires slot { slot < queue.now.gate.slots }
{
    course.all_there.wait(rt);
    let began = Instant::now(rt)?;
    let (mut count, mut sum) = (0u64, 0u64);
    for _ in rt.forever() {
        let read = through(rt, queue, &mut own, slot, course.batch);
        count = count.saturating_add(u64::from(course.batch));
        sum = sum.wrapping_add(read);
        if course.is_over.load(Ordering::SeqCst) {
            break;
        }
    }
    Ok(Rounds {
        count,
        sum,
        began,
        ended: Instant::now(rt)?,
    })
}

/// Makes the changes, with a pause of 100 microseconds before each, and prints the time of each.
fn time_changes(
    rt: &impl Host,
    queue: &BlockQueue,
    mut freezer: Freezer,
    changes: u32,
) -> Result<(), Fault>
    requires own { freezer.queue ≡ queue.now }
    requires hardware { freezer.queue.hardware ≡ HARDWARE }
{
    for number in 0..changes {
        thread::sleep(rt, Duration::from_micros(100));
        let start = Instant::now(rt)?;
        if let Ok(limits) = Limits::new(HARDWARE, 16 + number % 2 * 16, 128) {
            if change_limits(rt, queue, &mut freezer, limits).is_ok() {
                println!(rt; "change,{}", start.elapsed(rt)?.as_nanos())?;
            }
        }
    }
    Ok(())
}

/// Makes the requests on threads that each have a tag and a slot.
fn through_all(
    rt: &impl Host,
    queue: &BlockQueue,
    tags: Vec<Tag>,
    course: &Course,
) -> Result<Vec<io::Result<Rounds>>, AllocError>
    requires own { All (λ t. (t.queue ≡ queue.now) × (t.entered ≡ false)) tags.items }
{
    let next = AtomicU32::new(0);
    let next = &next;
    let run = move |tag: Tag| -> io::Result<Rounds>
        requires { (tag.queue ≡ queue.now) × (tag.entered ≡ false) }
    {
        let slot = next.fetch_add(1, Ordering::SeqCst) % queue.slots();
        through_queue(rt, queue, Own::of(tag, course), slot, course)
    };
    thread::map_vec(rt, tags, &run)
}

/// Times batches of requests on each thread, and the changes beside them. Without changes there is one batch.
fn time_queue(
    rt: &impl Host,
    lanes: bool,
    threads: u32,
    batch: u32,
    changes: u32,
) -> Result<(), Fault>
    requires threads { (1 ≤ threads) × (threads ≤ 63) }
{
    let Ok(limits) = Limits::start(HARDWARE) else {
        unreachable!()
    };
    let (queue, freezer, tags) = BlockQueue::new(rt.alloc(), limits, threads, threads)?;
    let course = Course {
        lanes,
        limits,
        batch,
        all_there: Barrier::new(threads as usize),
        is_over: AtomicBool::new(changes == 0),
    };
    let (queue, course) = (&queue, &course);
    let change = move || -> Result<(), Fault>
        requires { (freezer.queue ≡ queue.now) × (freezer.queue.hardware ≡ HARDWARE) }
    {
        let made = time_changes(rt, queue, freezer, changes);
        course.is_over.store(true, Ordering::SeqCst);
        made
    };
    let (made, went) = thread::join(
        rt,
        change,
        move || -> Result<Vec<io::Result<Rounds>>, AllocError>
            requires { All (λ t. (t.queue ≡ queue.now) × (t.entered ≡ false)) tags.items }
        { through_all(rt, queue, tags, course) },
    );
    made?;
    print_rounds(rt, if lanes { "lanes" } else { "leaves" }, went?)
}

/// Returns a number from 1 to `most`.
fn number(text: &str, most: u32) -> Option<u32>
    ensures { IfSome result (λ number. (1 ≤ number) × (number ≤ most)) }
{
    let number = text.parse().ok()?;
    (1 <= number && number <= most).then_some(number)
}

/// Does what the arguments ask for.
fn run(rt: &impl Host) -> Result<(), Fault> {
    let words: Vec<String> = env::args(rt)?.skip(1).collect(rt.alloc())?;
    let [threads, rounds, changes] = words.as_slice() else {
        return Err(Fault::Usage);
    };
    let threads = number(threads, 63).ok_or(Fault::Usage)?;
    let rounds = number(rounds, u32::MAX).ok_or(Fault::Usage)?;
    let changes = number(changes, u32::MAX).ok_or(Fault::Usage)?;
    time_gate(rt, threads, rounds)?;
    for lanes in [false, true] {
        time_queue(rt, lanes, threads, rounds, 0)?;
        time_queue(rt, lanes, threads, BATCH, changes)?;
    }
    Ok(())
}

fn main(rt: HostRuntime) -> ExitCode {
    match run(&rt) {
        Ok(()) => ExitCode::SUCCESS,
        Err(why) => {
            let _ = eprintln!(rt; "bench: {why}");
            ExitCode::FAILURE
        }
    }
}
