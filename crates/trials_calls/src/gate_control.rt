//! The calls of `percpu_gate` on the control of a gate, and its end.
ghost use Rattle.std.specs.Prelude.{◌≡◌, ◌<◌};
ghost use Rattle.percpu_gate.specs.ControlCalls.{HasClosedAll, HasSlotToClose, exit_number, fault_number};
ghost use Rattle.percpu_core.specs.declared.phase.Phase.TheVariants as phases;

use percpu_gate::{
    Control, ControlFault, ExitFault, ExitWhy, Final, Gate, Mode, Pass, Phase, Put, Revived,
};

pub fn kill<const W: usize>(control: &mut Control<W>, gate: &Gate<W>) -> Result<Put, ControlFault>
    requires { control.old.gate ≡ gate.now }
{
    control.kill(gate)
}

pub fn kill_and_confirm<const W: usize, R, F: FnOnce(u64) -> R + Drop>(
    control: &mut Control<W>,
    gate: &Gate<W>,
    confirm: F,
) -> Result<(Put, R), ControlFault>
    requires own { control.old.gate ≡ gate.now }
    requires callable { F.IsAlwaysCallable confirm }
{
    control.kill_and_confirm(gate, confirm)
}

pub fn mark_dead<const W: usize>(
    control: &mut Control<W>,
    gate: &Gate<W>,
) -> Result<u32, ControlFault>
    requires { control.old.gate ≡ gate.now }
{
    control.mark_dead(gate)
}

pub fn close_next<const W: usize>(control: &mut Control<W>, gate: &Gate<W>) -> i64
    requires own { control.old.gate ≡ gate.now }
    requires closing { HasSlotToClose control.old.view.standing.phase gate.now.slots }
{
    control.close_next(gate)
}

pub fn collect<const W: usize>(control: &mut Control<W>, gate: &Gate<W>)
    requires own { control.old.gate ≡ gate.now }
    requires closed { control.old.view.standing.phase ≡ phases.Closing gate.now.slots }
{
    control.collect(gate);
}

pub fn confirm<const W: usize>(control: &mut Control<W>, gate: &Gate<W>) -> u64
    requires own { control.old.gate ≡ gate.now }
    requires phase { control.old.view.standing.phase ≡ phases.Collected }
{
    control.confirm(gate)
}

pub fn drop_base<const W: usize>(control: &mut Control<W>, gate: &Gate<W>) -> Put
    requires own { control.old.gate ≡ gate.now }
    requires phase { control.old.view.standing.phase ≡ phases.Confirmed }
{
    control.drop_base(gate)
}

pub fn switch_to_atomic<const W: usize>(
    control: &mut Control<W>,
    gate: &Gate<W>,
) -> Result<(), ControlFault>
    requires { control.old.gate ≡ gate.now }
{
    control.switch_to_atomic(gate)
}

pub fn switch_to_slots<const W: usize>(
    control: &mut Control<W>,
    gate: &Gate<W>,
) -> Result<(), ControlFault>
    requires { control.old.gate ≡ gate.now }
{
    control.switch_to_slots(gate)
}

pub fn reinit<const W: usize>(control: &mut Control<W>, gate: &Gate<W>) -> Result<(), ControlFault>
    requires { control.old.gate ≡ gate.now }
{
    control.reinit(gate)
}

pub fn resurrect<const W: usize>(
    control: &mut Control<W>,
    gate: &Gate<W>,
) -> Result<Revived, ControlFault>
    requires { control.old.gate ≡ gate.now }
{
    control.resurrect(gate)
}

pub fn is_zero<const W: usize>(control: &mut Control<W>, gate: &Gate<W>) -> bool
    requires { control.old.gate ≡ gate.now }
{
    control.is_zero(gate)
}

pub fn store_word<const W: usize>(
    control: &mut Control<W>,
    gate: &Gate<W>,
    k: u32,
    v: u64,
) -> Result<(), ControlFault>
    requires own { control.old.gate ≡ gate.now }
    requires word { k < W }
{
    control.store_word(gate, k, v)
}

pub fn words<const W: usize>(control: &Control<W>) -> [u64; W] {
    control.words()
}

pub fn kills<const W: usize>(control: &Control<W>) -> u64 {
    control.kills()
}

pub fn releases<const W: usize>(control: &Control<W>) -> u64 {
    control.releases()
}

pub fn wants<const W: usize>(control: &Control<W>) -> Mode {
    control.wants()
}

/// Returns how many slots are closed already. The phase is one of these six.
pub fn phase<const W: usize>(control: &Control<W>) -> u32 {
    match control.phase() {
        Phase::LiveSlots | Phase::LiveAtomic | Phase::Collected | Phase::Confirmed | Phase::Dead =>
            0,
        Phase::Closing(slot) => slot,
        _ => unreachable!(),
    }
}

pub fn retire<const W: usize>(control: &mut Control<W>, gate: &Gate<W>, pass: Pass<W>)
    requires own { (control.old.gate ≡ gate.now) × (pass.gate ≡ gate.now) }
    requires none { pass.view.standing.held ≡ 0 }
{
    control.retire(gate, pass);
}

pub fn exit<const W: usize>(gate: Gate<W>, control: Control<W>) -> Result<Final<W>, ExitFault<W>>
    requires { control.gate ≡ gate }
{
    Gate::exit(gate, control)
}

/// Returns whether the gate had reached zero.
pub fn revived(revived: Revived) -> bool {
    match revived {
        Revived::AtZero => true,
        Revived::Held => false,
    }
}

/// Returns the number of a refusal.
pub fn control_fault(fault: ControlFault) -> u8
    ensures { result ≡ fault_number fault }
{
    match fault {
        ControlFault::AlreadyDead => 1,
        ControlFault::NotDead => 2,
        ControlFault::NotZero => 3,
        ControlFault::MidSwitch => 4,
        ControlFault::WornOut => 5,
    }
}

/// Returns the number of a refusal to end.
pub fn exit_why(why: ExitWhy) -> u8
    ensures { result ≡ exit_number why }
{
    match why {
        ExitWhy::MidSwitch => 4,
        ExitWhy::PassesOut(passes) => {
            let _: u32 = passes;
            6
        }
    }
}

/// Returns why a gate may not end, the gate and its control.
pub fn handed_back<const W: usize>(fault: ExitFault<W>) -> (ExitWhy, Gate<W>, Control<W>) {
    let ExitFault { why, gate, control } = fault;
    (why, gate, control)
}

/// Returns whether the gate was dead, its kills, its releases and its words.
pub fn ended<const W: usize>(left: Final<W>) -> (bool, u64, u64, [u64; W]) {
    let Final {
        dead,
        kills,
        releases,
        words,
    } = left;
    (dead, kills, releases, words)
}
