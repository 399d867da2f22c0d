//! A request that races with the removal of its device.
ghost use Rattle.std.specs.Prelude.{◌≡◌, ◌+◌, ◌<◌, false, None};
ghost use Rattle.percpu_core.specs.declared.phase.Phase.TheVariants.{Dead};
ghost use Rattle.percpu_core.specs.Starts.{starts_dead};
ghost use Rattle.percpu_gate.specs.Calls.{holding, released, LiveTryFinds};
ghost use Rattle.percpu_gate.specs.ControlCalls.{kill_refusal};
ghost use Rattle.uses.specs.Racing.{IsIdle, IsServedBy, HasOnePass, MayKill};
ghost use Rattle.uses.specs.Removal.{told, tried};

use crate::removal::{Served, remove, serve};
use percpu_gate::{Control, Gate, Pass, Put};
use std::thread;
use std::thread::Threads;

/// The results of a request, and of the removal of its device.
#[derive(Clone, Copy, Debug, PartialEq, Eq)]
pub struct Raced {
    pub served: Served,
    pub removed: Put,
}

fn served_by(gate: &Gate<1>, mut pass: Pass<1>) -> (Pass<1>, Served)
    requires own { pass.gate ≡ gate.now }
    requires slots { 0 < gate.now.slots }
    requires idle { pass.view.standing ≡ holding 0 }
    ensures own { result.0.gate ≡ gate.now }
    ensures idle { result.0.view.standing ≡ holding 0 }
    ensures told { result.0.view.releases ≡ pass.view.releases + told result.1 }
    ensures finds { LiveTryFinds gate.now 0 pass.view (tried result.1) }
{
    let served = serve(gate, &mut pass, 0);
    (pass, served)
}

fn removed_by(gate: &Gate<1>, mut control: Control<1>) -> (Control<1>, Put)
    requires own { control.gate ≡ gate.now }
    requires live { kill_refusal control.view.standing.phase control.view.standing.kills ≡ None }
    ensures own { result.0.gate ≡ gate.now }
    ensures passes { result.0.view.passes ≡ control.view.passes }
    ensures zeros { result.0.view.zeros_cleared ≡ control.view.zeros_cleared }
    ensures dead { result.0.view.standing.phase ≡ Dead }
    ensures told { result.0.view.releases ≡ control.view.releases + released result.1 }
{
    match remove(gate, &mut control) {
        Ok(put) => (control, put),
        Err(_) => unreachable!(),
    }
}

/// Runs a request on this thread while another thread removes its device; then the gate ends. In every interleaving of their steps
/// exactly one of the two puts the last reference, and so the device is freed once.
pub fn race<R: Threads>(rt: &R, gate: Gate<1>, pass: Pass<1>, control: Control<1>) -> Raced
    requires own { (pass.gate ≡ gate) × (control.gate ≡ gate) }
    requires slots { 0 < gate.slots }
    requires idle { (pass.view.standing ≡ holding 0) × (pass.view.releases ≡ 0) }
    requires live { kill_refusal control.view.standing.phase control.view.standing.kills ≡ None }
    requires passes { control.view.passes ≡ 1 }
    requires new { (starts_dead gate.start ≡ false) × (control.view.releases ≡ 0) × (control.view.zeros_cleared ≡ 0) }
    ensures once { told result.served + released result.removed ≡ 1 }
    // The request was done if a live gate let it in; otherwise it found the device removed.
    ensures finds { LiveTryFinds gate 0 pass.view (tried result.served) }
{
    let shared = &gate;
    let ((mut control, removed), (pass, served)) = thread::join(
        rt,
        move || -> (Control<1>, Put)
            requires { HasOnePass shared.now control 0 × MayKill control }
            ensures { HasOnePass shared.entry.now result.0 (released result.1) × (result.0.view.standing.phase ≡ Dead) }
        { removed_by(shared, control) },
        move || -> (Pass<1>, Served)
            requires { IsIdle shared.now pass 0 × (0 < shared.now.slots) }
            ensures { IsServedBy shared.entry.now pass.view result.0 result.1 }
        { served_by(shared, pass) },
    );
    control.retire(&gate, pass);
    match gate.exit(control) {
        Ok(_) => Raced { served, removed },
        Err(_) => unreachable!(),
    }
}
