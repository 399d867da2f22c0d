//! The calls of a pass. A closed handle returns Closed, or false from a question.
ghost use Rattle.c_answers.specs.Numbers.{put_number};
ghost use Rattle.c_answers.specs.Ran.{Answers, Asks, Writes, no_misuse};
ghost use Rattle.percpu_gate_c.specs.Numbers.{tried_number};
ghost use Rattle.percpu_gate_c.specs.PassCalls.{take_misuse, get_misuse, put_misuse, word_misuse, TryGot, LiveTryGot, Got, HasPut, ReadFront, LookedForDead, LookedForZero, ReadWord};

use crate::number::of_tried;
use crate::pass_handle::PassHandle;
use c_answers::{Misuse, of_put, of_unit, write};

/// Takes a reference unless the gate has reached zero. Linux: `percpu_ref_tryget`
/// (include/linux/percpu-refcount.h).
#[tactic(auto, using(c_answers::proofs::Closed::closed_answers))]
#[unsafe(no_mangle)]
pub extern "C" fn percpu_gate_try_get(pass: &mut PassHandle, slot: u32) -> u32
    ensures { Answers tried_number (take_misuse slot) (TryGot slot) pass.old.held.pass pass.new.held.pass result }
{
    let Some(mut open) = pass.take() else {
        return of_tried(Err(Misuse::Closed));
    };
    let answer = open.try_get(slot);
    pass.put_back(open);
    of_tried(answer)
}

/// Takes a reference unless the gate was killed. Linux: `percpu_ref_tryget_live`
/// (include/linux/percpu-refcount.h).
#[tactic(auto, using(c_answers::proofs::Closed::closed_answers))]
#[unsafe(no_mangle)]
pub extern "C" fn percpu_gate_try_get_live(pass: &mut PassHandle, slot: u32) -> u32
    ensures { Answers tried_number (take_misuse slot) (LiveTryGot slot) pass.old.held.pass pass.new.held.pass result }
{
    let Some(mut open) = pass.take() else {
        return of_tried(Err(Misuse::Closed));
    };
    let answer = open.try_get_live(slot);
    pass.put_back(open);
    of_tried(answer)
}

/// Takes `n` more references of a pass that holds one. Linux: `percpu_ref_get_many` (include/linux/percpu-refcount.h).
#[tactic(auto, using(c_answers::proofs::Closed::closed_answers))]
#[unsafe(no_mangle)]
pub extern "C" fn percpu_gate_get(pass: &mut PassHandle, slot: u32, n: u32) -> u32
    ensures { Answers (λ _. 0) (get_misuse slot n) (Got slot n) pass.old.held.pass pass.new.held.pass result }
{
    let Some(mut open) = pass.take() else {
        return of_unit(Err(Misuse::Closed));
    };
    let answer = open.get(slot, n);
    pass.put_back(open);
    of_unit(answer)
}

/// Drops `n` references. 1 is the release. Linux: `percpu_ref_put_many` (include/linux/percpu-refcount.h).
#[tactic(auto, using(c_answers::proofs::Closed::closed_answers))]
#[unsafe(no_mangle)]
pub extern "C" fn percpu_gate_put(pass: &mut PassHandle, slot: u32, n: u32) -> u32
    ensures { Answers put_number (put_misuse slot n) (HasPut slot n) pass.old.held.pass pass.new.held.pass result }
{
    let Some(mut open) = pass.take() else {
        return of_put(Err(Misuse::Closed));
    };
    let answer = open.put(slot, n);
    pass.put_back(open);
    of_put(answer)
}

/// Whether the gate was killed. Linux: `percpu_ref_is_dying` (include/linux/percpu-refcount.h).
#[unsafe(no_mangle)]
pub extern "C" fn percpu_gate_is_dying(pass: &mut PassHandle) -> bool
    ensures { Asks LookedForDead pass.old.held.pass pass.new.held.pass result }
{
    let Some(mut open) = pass.take() else {
        return false;
    };
    let yes = open.is_dying();
    pass.put_back(open);
    yes
}

/// Whether the count has reached zero. Linux: `percpu_ref_is_zero` (lib/percpu-refcount.c).
#[unsafe(no_mangle)]
pub extern "C" fn percpu_gate_is_zero(pass: &mut PassHandle) -> bool
    ensures { Asks LookedForZero pass.old.held.pass pass.new.held.pass result }
{
    let Some(mut open) = pass.take() else {
        return false;
    };
    let yes = open.is_zero();
    pass.put_back(open);
    yes
}

/// Writes the front.
#[tactic(auto, using(c_answers::proofs::Closed::closed_writes))]
#[unsafe(no_mangle)]
pub extern "C" fn percpu_gate_front(pass: &mut PassHandle, front: &mut u64) -> u32
    ensures { Writes no_misuse ReadFront pass.old.held.pass pass.new.held.pass front.old front.new result }
{
    let Some(mut open) = pass.take() else {
        return write(Err(Misuse::Closed), front);
    };
    let answer = open.front();
    pass.put_back(open);
    write(answer, front)
}

/// Writes the guarded word `k`.
#[tactic(auto, using(c_answers::proofs::Closed::closed_writes))]
#[unsafe(no_mangle)]
pub extern "C" fn percpu_gate_word(pass: &mut PassHandle, k: u32, word: &mut u64) -> u32
    ensures { Writes (word_misuse k) (ReadWord k) pass.old.held.pass pass.new.held.pass word.old word.new result }
{
    let Some(mut open) = pass.take() else {
        return write(Err(Misuse::Closed), word);
    };
    let answer = open.word(k);
    pass.put_back(open);
    write(answer, word)
}
