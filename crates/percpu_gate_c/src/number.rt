//! The numbers that only the library of the gate returns to C.
ghost use Rattle.std.specs.Prelude.{◌≡◌, ◌+◌};
ghost use Rattle.percpu_gate.specs.ControlCalls.{fault_number};
ghost use Rattle.c_answers.specs.Numbers.{number_of, put_number};
ghost use Rattle.percpu_gate_c.specs.Numbers.{gate_number, revived_number, tried_number};
ghost use Rattle.percpu_gate_c.specs.KillSteps.{phase_number, slots_written};

use c_answers::{Misuse, put_number};
use percpu_gate::{ControlFault, Phase, Put, Revived, Tried};

/// The number of a try: 0 if the reference was taken; otherwise 2, or 3 if the try's put was the last.
pub fn of_tried(answer: Result<Tried, Misuse>) -> u32
    ensures { result ≡ number_of tried_number answer }
{
    match answer {
        Ok(Tried::Given) => 0,
        Ok(Tried::Refused(put)) => 2 + put_number(put),
        Err(why) => why.number(),
    }
}

/// The number of a refusal by the gate, plus 16.
fn of_fault(why: ControlFault) -> u32
    ensures { result ≡ 16 + fault_number why }
{
    16 + u32::from(why.number())
}

/// The number of a kill: that of its put, or of the gate's refusal.
pub fn of_kill(answer: Result<Result<Put, ControlFault>, Misuse>) -> u32
    ensures { result ≡ number_of (gate_number put_number) answer }
{
    match answer {
        Ok(Ok(put)) => put_number(put),
        Ok(Err(why)) => of_fault(why),
        Err(why) => why.number(),
    }
}

/// 0 if the gate did it.
pub fn of_done(answer: Result<Result<(), ControlFault>, Misuse>) -> u32
    ensures { result ≡ number_of (gate_number (λ _. 0)) answer }
{
    match answer {
        Ok(Ok(())) => 0,
        Ok(Err(why)) => of_fault(why),
        Err(why) => why.number(),
    }
}

/// 4 if the count had reached zero, else 0.
pub fn of_revived(answer: Result<Result<Revived, ControlFault>, Misuse>) -> u32
    ensures { result ≡ number_of (gate_number revived_number) answer }
{
    match answer {
        Ok(Ok(Revived::AtZero)) => 4,
        Ok(Ok(Revived::Held)) => 0,
        Ok(Err(why)) => of_fault(why),
        Err(why) => why.number(),
    }
}

/// Writes the number of slots that a kill has to close. Returns 0 if the kill has begun.
pub fn write_slots(answer: Result<Result<u32, ControlFault>, Misuse>, slots: &mut u32) -> u32
    ensures number { result ≡ number_of (gate_number (λ _. 0)) answer }
    ensures written { slots.new ≡ slots_written answer slots.old }
{
    match answer {
        Ok(Ok(to_close)) => {
            *slots = to_close;
            0
        }
        Ok(Err(why)) => of_fault(why),
        Err(why) => why.number(),
    }
}

/// 0 if a slot was closed. (The control sums up its delta.)
pub fn of_closed(answer: Result<i64, Misuse>) -> u32
    ensures { result ≡ number_of (λ _. 0) answer }
{
    match answer {
        Ok(_) => 0,
        Err(why) => why.number(),
    }
}

/// The phase's number, 0 to 8.
pub fn of_phase(answer: Result<Phase, Misuse>) -> u32
    ensures { result ≡ number_of phase_number answer }
{
    match answer {
        Ok(Phase::LiveSlots) => 0,
        Ok(Phase::LiveAtomic) => 1,
        Ok(Phase::Closing(_)) => 2,
        Ok(Phase::Collected) => 3,
        Ok(Phase::Confirmed) => 4,
        Ok(Phase::Dead) => 5,
        Ok(Phase::Reviving) => 6,
        Ok(Phase::Fronted) => 7,
        Ok(Phase::Opening(_)) => 8,
        Err(why) => why.number(),
    }
}
