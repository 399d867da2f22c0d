//! How the queue's freezer follows a script.
ghost use Rattle.std.specs.Prelude.{◌≡◌, ℕ, ◌+◌, ◌<◌, ◌≤◌, ◌^◌, true};
ghost use Rattle.blk_workers.specs.Following.{IsInStep, IsNear, once_frozen, one_nearer, queue_mode};
ghost use Rattle.blk_workers.specs.Progress.{IsFollowing};
ghost use Rattle.freeze_queue.specs.Queue.{after_mode};

use freeze_queue::{BlockQueue, Freezer, Mode};
use queue_limits::Limits;
use script_meaning::{Mode as ScriptMode, QueueState};
use std::sync::Wait;

/// Freezes the queue and waits until it is drained. Does nothing if the queue is frozen already, because it is drained then.
///
/// A gate can be killed 2^40 times at most (`percpu_core`, `KILL_LIMIT`).
pub(crate) fn freeze<R: Wait>(rt: &R, freezer: &mut Freezer, queue: &BlockQueue)
    requires own { freezer.old.queue ≡ queue.now }
    requires drained { 0 < freezer.old.depth → freezer.old.drained ≡ true }
    requires few { freezer.old.kills < 2 ^ 40 }
    ensures follows { (kills : ℕ) → IsFollowing queue.now kills freezer.old → IsFollowing queue.now (kills + 1) freezer.new }
    ensures depth { freezer.new.depth ≡ once_frozen freezer.old.depth }
    ensures others { (freezer.new.limits ≡ freezer.old.limits) × (freezer.new.mode ≡ freezer.old.mode) }
{
    if freezer.depth() > 0 {
        return;
    }
    let frozen = freezer.freeze(rt, queue);
    prove!(frozen.is_ok());
}

// Sets the limits of a frozen, drained queue if they differ. `set` would look at the gate and store each limit anyway.
fn set_limits(freezer: &mut Freezer, queue: &BlockQueue, limits: Limits)
    requires own { (freezer.old.queue ≡ queue.now) × (limits.hardware ≡ queue.now.hardware) }
    requires drained { (0 < freezer.old.depth) × (freezer.old.drained ≡ true) }
    ensures follows { (kills : ℕ) → IsFollowing queue.now kills freezer.old → IsFollowing queue.now kills freezer.new }
    ensures kills { freezer.new.kills ≡ freezer.old.kills }
    ensures limits { freezer.new.limits ≡ limits }
    ensures others { (freezer.new.depth ≡ freezer.old.depth) × (freezer.new.mode ≡ freezer.old.mode) }
{
    if freezer.limits() != limits {
        let set = freezer.set(queue, limits);
        prove!(set.is_ok());
    }
}

// Brings the depth of a frozen queue one step closer to `depth`. One step is enough: a drain adds one if the depth is 0, and a line
// changes the script's depth by one at most. Each line that isn't an accepted request is followed, and so is each drain before an
// ordered request. 1,000 is the script's `DEPTH_LIMIT` and the freezer's `MOST_DEPTH`.
fn step_to(freezer: &mut Freezer, queue: &BlockQueue, depth: u32)
    requires own { (freezer.old.queue ≡ queue.now) × (0 < freezer.old.depth) }
    requires shallow { depth ≤ 1000 }
    ensures follows { (kills : ℕ) → IsFollowing queue.now kills freezer.old → IsFollowing queue.now kills freezer.new }
    ensures kills { freezer.new.kills ≡ freezer.old.kills }
    ensures depth { freezer.new.depth ≡ one_nearer freezer.old.depth depth }
    ensures others { (freezer.new.limits ≡ freezer.old.limits) × (freezer.new.mode ≡ freezer.old.mode) }
{
    let now = freezer.depth();
    if now < depth {
        let frozen = freezer.start_freeze(queue);
        prove!(frozen.is_ok());
    } else if depth < now {
        let thawed = freezer.thaw(queue);
        prove!(thawed.is_ok());
    }
}

// Returns the queue's mode for a script's mode.
fn queue_mode(mode: ScriptMode) -> Mode
    ensures { result ≡ queue_mode mode }
{
    match mode {
        ScriptMode::Atomic => Mode::Atomic,
        ScriptMode::Slots => Mode::Slots,
    }
}

/// Brings the queue into step with the script's queue: sets its mode and, if it is frozen, its limits and its depth. So each freeze
/// and thaw of the script is one of the queue. A queue that the script removed stays frozen.
pub(crate) fn follow(freezer: &mut Freezer, queue: &BlockQueue, state: &QueueState)
    requires own { freezer.old.queue ≡ queue.now }
    requires drained { 0 < freezer.old.depth → freezer.old.drained ≡ true }
    requires hardware { state.now.limits.hardware ≡ queue.now.hardware }
    requires near { IsNear state.now freezer.old }
    ensures follows { (kills : ℕ) → IsFollowing queue.now kills freezer.old → IsFollowing queue.now kills freezer.new }
    ensures kills { freezer.new.kills ≡ freezer.old.kills }
    ensures in_step { IsInStep state.now freezer.new }
    // Setting the mode that is in force moves no count (`after_mode`).
    ensures live { freezer.old.depth ≡ 0 → freezer.new ≡ after_mode (queue_mode state.now.mode) freezer.old }
{
    freezer.mode(queue, queue_mode(state.mode()));
    // A live queue already has the script's limits and its depth, 0. A line that changes either drains first or comes under a
    // freeze, so the queue is frozen by then.
    if freezer.depth() == 0 {
        return;
    }
    set_limits(freezer, queue, state.limits());
    let goal = if state.is_removed() && state.depth() == 0 {
        1
    } else {
        state.depth()
    };
    step_to(freezer, queue, goal);
}
