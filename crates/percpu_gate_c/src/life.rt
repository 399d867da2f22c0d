//! The beginning and the end of gates and their handles.
ghost use Rattle.std.specs.Prelude.{◌≡◌, None};
ghost use Rattle.c_answers.specs.Ran.{Tells};
ghost use Rattle.percpu_gate_c.specs.ControlCalls.{Retires};
ghost use Rattle.percpu_gate_c.specs.Life.{Exits, Given, Gives, HasMade, NumbersTell, NumbersTellOn, Retired, control_number, pass_number, start_named};

use crate::control_handle::ControlHandle;
use crate::open_control::OpenControl;
use crate::open_pass::WORDS;
use crate::pass_handle::PassHandle;
use c_answers::{DrawnNumber, Misuse, of_unit};
use percpu_gate::Start;

/// The last facts of a gate that has ended.
#[derive(Debug, Drop)]
#[repr(C)]
pub struct Final {
    pub dead: bool,
    pub kills: u64,
    pub releases: u64,
    pub words: [u64; WORDS],
}

/// The start with this number.
fn start_of(start: u32) -> Start
    ensures { result ≡ start_named start }
{
    match start {
        0 => Start::Slots,
        1 => Start::Atomic,
        _ => Start::Dead,
    }
}

/// The control of a new gate, for a closed handle. Refuses with Open, Size or Memory.
fn make(
    control: &mut ControlHandle,
    number: &DrawnNumber,
    slots: u32,
    passes: u32,
    start: u32,
    words: &[u64; WORDS],
) -> Result<(), Misuse>
    ensures { HasMade number.now slots passes start words.now control.old.held.control control.new.held.control result }
{
    let alloc = control.closed()?;
    if start > 2 {
        return Err(Misuse::Size);
    }
    let open = OpenControl::new(alloc, *number, slots, passes, start_of(start), words)?;
    control.open(open)
}

/// Makes a gate with this many slots (1 to 512) and passes (1 to 1,024) and with eight guarded words, for a closed
/// control handle. It starts with its slots open (0), with them closed (1), or dead and at zero (2). Refuses with Open,
/// Size or Memory. Linux: `percpu_ref_init` (lib/percpu-refcount.c).
#[unsafe(no_mangle)]
pub extern "C" fn percpu_gate_new_numbered(
    control: &mut ControlHandle,
    number: &DrawnNumber,
    slots: u32,
    passes: u32,
    start: u32,
    words: &[u64; WORDS],
) -> u32
    ensures { Tells (HasMade number.now slots passes start words.now control.old.held.control control.new.held.control) result }
{
    of_unit(make(control, number, slots, passes, start, words))
}

/// Gives the next pass of this control to a closed handle.
fn give(chosen: &mut OpenControl, pass: &mut PassHandle) -> Result<(), Misuse>
    ensures { Gives chosen.old chosen.new pass.old.held.pass pass.new.held.pass result }
{
    let alloc = pass.closed()?;
    let given = chosen.next_pass(alloc)?;
    pass.put_back(given);
    Ok(())
}

/// Gives the next pass of the gate to a closed pass handle. Refuses with Closed, Open, NoneWaits or Memory.
#[tactic(auto, using(crate::proofs::Closed::closed_given))]
#[unsafe(no_mangle)]
pub extern "C" fn percpu_gate_next_pass(control: &mut ControlHandle, pass: &mut PassHandle) -> u32
    ensures { Tells (Given control.old.held.control control.new.held.control pass.old.held.pass pass.new.held.pass) result }
{
    let Some(mut open) = control.take() else {
        return of_unit(Err(Misuse::Closed));
    };
    let answer = give(&mut open, pass);
    control.put_back(open);
    of_unit(answer)
}

/// The number of a pass's gate, or 0 for a closed handle.
#[unsafe(no_mangle)]
pub extern "C" fn percpu_gate_pass_number(pass: &mut PassHandle) -> u64
    ensures number { result ≡ pass_number pass.old.held.pass }
    ensures same { pass.new.held.pass ≡ pass.old.held.pass }
{
    let Some(open) = pass.take() else {
        return 0;
    };
    let number = open.number().drawn;
    pass.put_back(open);
    number
}

/// The number of a control's gate, or 0 for a closed handle.
#[unsafe(no_mangle)]
pub extern "C" fn percpu_gate_control_number(control: &mut ControlHandle) -> u64
    ensures number { result ≡ control_number control.old.held.control }
    ensures same { control.new.held.control ≡ control.old.held.control }
{
    let Some(open) = control.take() else {
        return 0;
    };
    let number = open.number().drawn;
    control.put_back(open);
    number
}

/// Frees the box of a pass handle, and closes it. If the pass wasn't retired, its gate counts it as out forever.
#[unsafe(no_mangle)]
pub extern "C" fn percpu_gate_free_pass(pass: &mut PassHandle)
    ensures { pass.new.held.pass ≡ None }
{
    drop(pass.take());
}

/// Frees the box of a control handle, and closes it.
#[unsafe(no_mangle)]
pub extern "C" fn percpu_gate_free_control(control: &mut ControlHandle)
    ensures { control.new.held.control ≡ None }
{
    drop(control.take());
}

/// Has the control take in the pass of a handle, unless that is refused.
fn retire(chosen: &mut OpenControl, pass: &mut PassHandle) -> Result<(), Misuse>
    requires numbers { NumbersTell chosen.old pass.old.held.pass }
    ensures { Retires chosen.old chosen.new pass.old.held.pass pass.new.held.pass result }
{
    let Some(given) = pass.take() else {
        return Err(Misuse::Closed);
    };
    if let Err(why) = chosen.refuse_retire(&given) {
        pass.put_back(given);
        return Err(why);
    }
    chosen.retire(Box::into_inner(given));
    Ok(())
}

/// Ends a pass that holds nothing. Refuses with Closed, Foreign or StillHeld.
#[tactic(auto, using(crate::proofs::Closed::closed_retired))]
#[unsafe(no_mangle)]
pub extern "C" fn percpu_gate_retire(control: &mut ControlHandle, pass: &mut PassHandle) -> u32
    requires numbers { NumbersTellOn control.old.held.control pass.old.held.pass }
    ensures { Tells (Retired control.old.held.control control.new.held.control pass.old.held.pass pass.new.held.pass) result }
{
    let Some(mut open) = control.take() else {
        return of_unit(Err(Misuse::Closed));
    };
    let answer = retire(&mut open, pass);
    control.put_back(open);
    of_unit(answer)
}

/// Ends a gate, and closes the handle; takes in the passes that nobody asked for. Refuses with Closed; returns 20
/// during a kill, and 22 if passes that were given out aren't retired. If somebody else has a share of the gate, which
/// no use of handles leads to, it returns InUse with everything unchanged, or Memory if the control gets no new box:
/// then the control is gone. Linux: `percpu_ref_exit` (lib/percpu-refcount.c).
#[unsafe(no_mangle)]
pub extern "C" fn percpu_gate_exit(control: &mut ControlHandle, last: &mut Final) -> u32
    ensures { Exits control.old.held.control control.new.held.control last.old last.new result }
{
    let Some(open) = control.take() else {
        return Misuse::Closed.number();
    };
    if let Some(why) = open.refuse_exit() {
        control.put_back(open);
        return 16 + u32::from(why.number());
    }
    match Box::into_inner(open).end() {
        Ok(ended) => {
            *last = ended;
            0
        }
        Err(back) => match control.open(back) {
            Ok(()) => Misuse::InUse.number(),
            Err(why) => why.number(),
        },
    }
}
