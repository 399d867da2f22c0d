//! What a biased tag does at the gate with its pass.
ghost use Rattle.std.specs.Prelude.{◌≡◌, ◌<◌, ◌≤◌, true, false, None, is_some, IfSome, if◌then◌else◌};
ghost use Rattle.bias_lanes.specs.declared.views.Stage.TheVariants as stages;
ghost use Rattle.bias_lanes.specs.Seats.{at};
ghost use Rattle.queue_core.specs.BiasedSteps.{AsksAtGate, Brings, ComesIn, LooksIn, PutsOnce};
ghost use Rattle.queue_core.specs.BiasedTags.{is_unbiased, not_in_lane};

use crate::limit_words::{LIMIT_WORDS, load_words};
use crate::parked::ParkedPass;
use crate::queue::BlockQueue;
use bias_lanes::{Lane, Stage};
use percpu_gate::{Gate, Pass, Put, Tried};
use queue_limits::Limits;

/// Takes the pass of a tag into its hand, if it is parked. Returns false if the freezer has it in hand.
pub(crate) fn take_out(
    lane: &mut Lane<ParkedPass, Gate<LIMIT_WORDS>>,
    hand: &mut Option<Pass<LIMIT_WORDS>>,
    queue: &BlockQueue,
) -> bool
    requires own { lane.old.lanes ≡ queue.now.lanes }
    requires hand { is_some hand.old ≡ is_unbiased lane.old.view.stage }
    requires fits { IfSome hand.old (λ p. (p.gate ≡ lane.old.lanes.key) × (p.view.standing.held ≤ 1)) }
    requires out { not_in_lane lane.old.view.stage ≡ true }
    ensures hand { is_some hand.new ≡ result }
    ensures taken { IfSome hand.new (λ p. (lane.new ≡ at stages.Unbiased lane.old) × Brings lane.old hand.old p) }
    ensures fits { IfSome hand.new (λ p. (p.gate ≡ lane.old.lanes.key) × (p.view.standing.held ≤ 1)) }
    ensures in_hand { result ≡ false → (hand.old ≡ None) × (lane.new ≡ at stages.Parked lane.old) }
{
    if lane.stage() == Stage::Unbiased {
        return true;
    }
    let Some(parked) = lane.take_back(&queue.lanes) else {
        return false;
    };
    if parked.pass.held() == 1 {
        queue.count_back();
    }
    *hand = Some(parked.pass);
    true
}

/// Enters with a pass, or stays if it has its reference already. Returns the put if the queue is frozen: the reference is dropped.
pub(crate) fn come_in(
    pass: &mut Pass<LIMIT_WORDS>,
    gate: &Gate<LIMIT_WORDS>,
    slot: u32,
) -> Option<Put>
    requires own { pass.old.gate ≡ gate.now }
    requires slot { slot < gate.now.slots }
    requires one { pass.old.view.standing.held ≤ 1 }
    ensures own { pass.new.gate ≡ pass.old.gate }
    ensures held { pass.new.view.standing.held ≡ (if is_some result then 0 else 1) }
    ensures steps { ComesIn slot gate.now result pass.old pass.new }
{
    if pass.held() == 1 {
        if pass.is_dying(gate) {
            return Some(pass.put(gate, slot, 1));
        }
        return None;
    }
    match pass.try_get_live(gate, slot) {
        Tried::Given => None,
        Tried::Refused(put) => Some(put),
    }
}

/// Enters with a pass if the gate isn't at zero, or takes no step if it has its reference already. Returns the put at zero.
pub(crate) fn look_in(
    pass: &mut Pass<LIMIT_WORDS>,
    gate: &Gate<LIMIT_WORDS>,
    slot: u32,
) -> Option<Put>
    requires own { pass.old.gate ≡ gate.now }
    requires slot { slot < gate.now.slots }
    requires one { pass.old.view.standing.held ≤ 1 }
    ensures own { pass.new.gate ≡ pass.old.gate }
    ensures held { pass.new.view.standing.held ≡ (if is_some result then 0 else 1) }
    ensures steps { LooksIn slot gate.now result pass.old pass.new }
{
    if pass.held() == 1 {
        return None;
    }
    match pass.try_get(gate, slot) {
        Tried::Given => None,
        Tried::Refused(put) => Some(put),
    }
}

/// Drops the reference of a pass, if it has one.
pub(crate) fn put_once(pass: &mut Pass<LIMIT_WORDS>, gate: &Gate<LIMIT_WORDS>, slot: u32) -> Put
    requires own { pass.old.gate ≡ gate.now }
    requires slot { slot < gate.now.slots }
    requires one { pass.old.view.standing.held ≤ 1 }
    ensures own { pass.new.gate ≡ pass.old.gate }
    ensures held { pass.new.view.standing.held ≡ 0 }
    ensures puts { PutsOnce slot result pass.old pass.new }
{
    if pass.held() == 1 {
        return pass.put(gate, slot, 1);
    }
    Put::NotLast
}

/// Returns the limits in force, for a pass that has its reference.
pub(crate) fn ask(pass: &mut Pass<LIMIT_WORDS>, queue: &BlockQueue) -> Limits
    requires own { pass.old.gate ≡ queue.now.gate }
    requires held { pass.old.view.standing.held ≡ 1 }
    ensures { AsksAtGate queue.now result pass.old pass.new }
{
    Limits::from_words(queue.hardware, load_words(pass, &queue.gate))
}
