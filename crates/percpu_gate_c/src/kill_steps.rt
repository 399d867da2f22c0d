//! The steps of a kill one by one, for C that acts at its confirmation. A closed handle returns Closed, and a step out
//! of its turn returns Step.
ghost use Rattle.c_answers.specs.Numbers.{put_number};
ghost use Rattle.c_answers.specs.Ran.{Answers, Writes, no_misuse};
ghost use Rattle.percpu_gate_c.specs.KillSteps.{Begins, ClosedSlot, close_misuse, CollectedSlots, collect_misuse, ConfirmedKill, confirm_misuse, DroppedBase, drop_misuse, TellsPhase, phase_number};

use crate::control_handle::ControlHandle;
use crate::number::{of_closed, of_phase, write_slots};
use c_answers::{Misuse, of_put, of_unit, write};

/// Begins a kill, and writes how many slots have to be closed now: 0 if all counts are on the shared word. Linux:
/// `percpu_ref_kill_and_confirm` (lib/percpu-refcount.c), which sets `__PERCPU_REF_DEAD`.
#[tactic(auto, using(crate::proofs::Closed::closed_begins))]
#[unsafe(no_mangle)]
pub extern "C" fn percpu_gate_mark_dead(control: &mut ControlHandle, slots: &mut u32) -> u32
    ensures { Begins control.old.held.control control.new.held.control slots.old slots.new result }
{
    let Some(mut open) = control.take() else {
        return write_slots(Err(Misuse::Closed), slots);
    };
    let answer = open.mark_dead();
    control.put_back(open);
    write_slots(answer, slots)
}

/// Closes the next slot of a kill. Linux: the switch to atomic mode in `percpu_ref_kill_and_confirm`
/// (lib/percpu-refcount.c).
#[tactic(auto, using(c_answers::proofs::Closed::closed_answers))]
#[unsafe(no_mangle)]
pub extern "C" fn percpu_gate_close_next(control: &mut ControlHandle) -> u32
    ensures { Answers (λ _. 0) close_misuse ClosedSlot control.old.held.control control.new.held.control result }
{
    let Some(mut open) = control.take() else {
        return of_closed(Err(Misuse::Closed));
    };
    let answer = open.close_next();
    control.put_back(open);
    of_closed(answer)
}

/// Adds what was counted on the closed slots to the shared word. Linux: `percpu_ref_switch_to_atomic_rcu`
/// (lib/percpu-refcount.c).
#[tactic(auto, using(c_answers::proofs::Closed::closed_answers))]
#[unsafe(no_mangle)]
pub extern "C" fn percpu_gate_collect(control: &mut ControlHandle) -> u32
    ensures { Answers (λ _. 0) collect_misuse CollectedSlots control.old.held.control control.new.held.control result }
{
    let Some(mut open) = control.take() else {
        return of_unit(Err(Misuse::Closed));
    };
    let answer = open.collect();
    control.put_back(open);
    of_unit(answer)
}

/// Confirms a kill, and writes its odd front. Linux: the `confirm_kill` callback of `percpu_ref_kill_and_confirm`
/// (lib/percpu-refcount.c).
#[tactic(auto, using(c_answers::proofs::Closed::closed_writes))]
#[unsafe(no_mangle)]
pub extern "C" fn percpu_gate_confirm(control: &mut ControlHandle, front: &mut u64) -> u32
    ensures { Writes confirm_misuse ConfirmedKill control.old.held.control control.new.held.control front.old front.new result }
{
    let Some(mut open) = control.take() else {
        return write(Err(Misuse::Closed), front);
    };
    let answer = open.confirm();
    control.put_back(open);
    write(answer, front)
}

/// Drops the initial reference, which ends a kill. 1 is the release. Linux: the put of
/// `percpu_ref_kill_and_confirm` (lib/percpu-refcount.c).
#[tactic(auto, using(c_answers::proofs::Closed::closed_answers))]
#[unsafe(no_mangle)]
pub extern "C" fn percpu_gate_drop_base(control: &mut ControlHandle) -> u32
    ensures { Answers put_number drop_misuse DroppedBase control.old.held.control control.new.held.control result }
{
    let Some(mut open) = control.take() else {
        return of_put(Err(Misuse::Closed));
    };
    let answer = open.drop_base();
    control.put_back(open);
    of_put(answer)
}

/// The number of the control's phase: live on slots (0), live on the shared word alone (1), closing (2), collected
/// (3), confirmed (4), dead (5).
#[tactic(auto, using(c_answers::proofs::Closed::closed_answers))]
#[unsafe(no_mangle)]
pub extern "C" fn percpu_gate_phase(control: &mut ControlHandle) -> u32
    ensures { Answers phase_number no_misuse TellsPhase control.old.held.control control.new.held.control result }
{
    let Some(mut open) = control.take() else {
        return of_phase(Err(Misuse::Closed));
    };
    let answer = open.phase();
    control.put_back(open);
    of_phase(answer)
}
