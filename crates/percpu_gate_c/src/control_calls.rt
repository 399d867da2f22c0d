//! The calls of the control. A closed handle returns Closed, or false from a question.
ghost use Rattle.percpu_words.specs.declared.mode.Mode.TheVariants as modes;
ghost use Rattle.c_answers.specs.Numbers.{put_number};
ghost use Rattle.c_answers.specs.Ran.{Answers, Asks, Writes, no_misuse};
ghost use Rattle.percpu_gate_c.specs.Numbers.{gate_number, revived_number};
ghost use Rattle.percpu_gate_c.specs.ControlCalls.{Killed, SawZero, Reinited, Resurrected, Switched, StoredWord, store_misuse, Told, ToldWords};

use crate::control_handle::ControlHandle;
use crate::number::{of_done, of_kill, of_revived};
use crate::open_pass::WORDS;
use c_answers::{Misuse, write};

/// Kills the gate. 1 is the release. Linux: `percpu_ref_kill` (include/linux/percpu-refcount.h).
#[tactic(auto, using(c_answers::proofs::Closed::closed_answers))]
#[unsafe(no_mangle)]
pub extern "C" fn percpu_gate_kill(control: &mut ControlHandle) -> u32
    ensures { Answers (gate_number put_number) no_misuse Killed control.old.held.control control.new.held.control result }
{
    let Some(mut open) = control.take() else {
        return of_kill(Err(Misuse::Closed));
    };
    let answer = open.kill();
    control.put_back(open);
    of_kill(answer)
}

/// Whether the count has reached zero. Linux: `percpu_ref_is_zero` (lib/percpu-refcount.c).
#[unsafe(no_mangle)]
pub extern "C" fn percpu_gate_control_is_zero(control: &mut ControlHandle) -> bool
    ensures { Asks SawZero control.old.held.control control.new.held.control result }
{
    let Some(mut open) = control.take() else {
        return false;
    };
    let yes = open.is_zero();
    control.put_back(open);
    yes
}

/// Revives a gate that has reached zero. Linux: `percpu_ref_reinit` (lib/percpu-refcount.c).
#[tactic(auto, using(c_answers::proofs::Closed::closed_answers))]
#[unsafe(no_mangle)]
pub extern "C" fn percpu_gate_reinit(control: &mut ControlHandle) -> u32
    ensures { Answers (gate_number (λ _. 0)) no_misuse Reinited control.old.held.control control.new.held.control result }
{
    let Some(mut open) = control.take() else {
        return of_done(Err(Misuse::Closed));
    };
    let answer = open.reinit();
    control.put_back(open);
    of_done(answer)
}

/// Revives a dead gate. Returns 4 if it had reached zero. Linux: `percpu_ref_resurrect` (lib/percpu-refcount.c).
#[tactic(auto, using(c_answers::proofs::Closed::closed_answers))]
#[unsafe(no_mangle)]
pub extern "C" fn percpu_gate_resurrect(control: &mut ControlHandle) -> u32
    ensures { Answers (gate_number revived_number) no_misuse Resurrected control.old.held.control control.new.held.control result }
{
    let Some(mut open) = control.take() else {
        return of_revived(Err(Misuse::Closed));
    };
    let answer = open.resurrect();
    control.put_back(open);
    of_revived(answer)
}

/// Counts on the shared word alone from now on. Linux: `percpu_ref_switch_to_atomic_sync`
/// (lib/percpu-refcount.c).
#[tactic(auto, using(c_answers::proofs::Closed::closed_answers))]
#[unsafe(no_mangle)]
pub extern "C" fn percpu_gate_switch_to_atomic(control: &mut ControlHandle) -> u32
    ensures { Answers (gate_number (λ _. 0)) no_misuse (Switched modes.Atomic) control.old.held.control control.new.held.control result }
{
    let Some(mut open) = control.take() else {
        return of_done(Err(Misuse::Closed));
    };
    let answer = open.switch_to_atomic();
    control.put_back(open);
    of_done(answer)
}

/// Counts on slots from now on. Linux: `percpu_ref_switch_to_percpu` (lib/percpu-refcount.c).
#[tactic(auto, using(c_answers::proofs::Closed::closed_answers))]
#[unsafe(no_mangle)]
pub extern "C" fn percpu_gate_switch_to_slots(control: &mut ControlHandle) -> u32
    ensures { Answers (gate_number (λ _. 0)) no_misuse (Switched modes.Slots) control.old.held.control control.new.held.control result }
{
    let Some(mut open) = control.take() else {
        return of_done(Err(Misuse::Closed));
    };
    let answer = open.switch_to_slots();
    control.put_back(open);
    of_done(answer)
}

/// Stores the guarded word `k`, while the gate is dead and at zero.
#[tactic(auto, using(c_answers::proofs::Closed::closed_answers))]
#[unsafe(no_mangle)]
pub extern "C" fn percpu_gate_store_word(control: &mut ControlHandle, k: u32, v: u64) -> u32
    ensures { Answers (gate_number (λ _. 0)) (store_misuse k) (StoredWord k v) control.old.held.control control.new.held.control result }
{
    let Some(mut open) = control.take() else {
        return of_done(Err(Misuse::Closed));
    };
    let answer = open.store_word(k, v);
    control.put_back(open);
    of_done(answer)
}

/// Writes the number of kills so far.
#[tactic(auto, using(c_answers::proofs::Closed::closed_writes))]
#[unsafe(no_mangle)]
pub extern "C" fn percpu_gate_kill_count(control: &mut ControlHandle, kills: &mut u64) -> u32
    ensures { Writes no_misuse (Told (λ c. c.standing.kills)) control.old.held.control control.new.held.control kills.old kills.new result }
{
    let Some(mut open) = control.take() else {
        return write(Err(Misuse::Closed), kills);
    };
    let answer = open.kills();
    control.put_back(open);
    write(answer, kills)
}

/// Writes the number of releases of the control and of retired passes.
#[tactic(auto, using(c_answers::proofs::Closed::closed_writes))]
#[unsafe(no_mangle)]
pub extern "C" fn percpu_gate_release_count(control: &mut ControlHandle, releases: &mut u64) -> u32
    ensures { Writes no_misuse (Told (λ c. c.releases)) control.old.held.control control.new.held.control releases.old releases.new result }
{
    let Some(mut open) = control.take() else {
        return write(Err(Misuse::Closed), releases);
    };
    let answer = open.releases();
    control.put_back(open);
    write(answer, releases)
}

/// Writes the guarded words. (A pass reads them one by one while it holds a reference.)
#[tactic(auto, using(c_answers::proofs::Closed::closed_writes))]
#[unsafe(no_mangle)]
pub extern "C" fn percpu_gate_all_words(
    control: &mut ControlHandle,
    words: &mut [u64; WORDS],
) -> u32
    ensures { Writes no_misuse ToldWords control.old.held.control control.new.held.control words.old words.new result }
{
    let Some(mut open) = control.take() else {
        return write(Err(Misuse::Closed), words);
    };
    let answer = open.words();
    control.put_back(open);
    write(answer, words)
}
