//! A device that may be removed while requests run on it.
ghost use Rattle.std.specs.Prelude.{◌≡◌, ◌+◌, ◌<◌, IfOk, OnErr};
ghost use Rattle.percpu_core.specs.declared.phase.Phase.TheVariants.{Dead};
ghost use Rattle.percpu_core.specs.Views.{count as one_if};
ghost use Rattle.percpu_gate.specs.Calls.{holding, is_refused, released, taken, LiveTryFinds};
ghost use Rattle.percpu_gate.specs.ControlCalls.{fault_of, kill_refusal};
ghost use Rattle.uses.specs.Removal.{told, tried, after_removal, HasWorked, ServeSteps};

use percpu_gate::{Control, ControlFault, Gate, Pass, Put, Tried};

/// The result of a request. If it has `Put::Last`, its caller frees the device: no thread uses it any more.
#[derive(Clone, Copy, Debug, PartialEq, Eq)]
pub enum Served {
    Done(Put),
    /// The device is being removed, so the request wasn't run. Its failed try held a reference briefly, and its put may be the last
    /// put too.
    Gone(Put),
}

/// Runs a request on a device, unless it is being removed. The device's setting is the guarded word 0.
///
/// Linux: `blk_try_enter_queue` and `blk_queue_exit` around a driver's work (block/blk.h, block/blk-core.c).
pub fn serve(gate: &Gate<1>, pass: &mut Pass<1>, slot: u32) -> Served
    requires own { pass.old.gate ≡ gate.now }
    requires slot { slot < gate.now.slots }
    requires idle { pass.old.view.standing ≡ holding 0 }
    ensures own { pass.new.gate ≡ gate.now }
    ensures idle { pass.new.view.standing ≡ holding 0 }
    ensures told { pass.new.view.releases ≡ pass.old.view.releases + told result }
    // A request that is done was let in by a step of a live gate; a request that isn't done found the device removed.
    ensures finds { LiveTryFinds gate.now slot pass.old.view (tried result) }
    ensures counted { pass.new.view.live_given ≡ pass.old.view.live_given + taken (tried result) }
    ensures times { pass.new.view.found_dead_times ≡ pass.old.view.found_dead_times + one_if (is_refused (tried result)) }
    // It read the setting before and after its work, and got the same value both times.
    ensures worked { HasWorked pass.new.view.read result }
    ensures steps { ServeSteps slot result pass.old.steps pass.new.steps }
{
    match pass.try_get_live(gate, slot) {
        Tried::Refused(put) => Served::Gone(put),
        Tried::Given => {
            let setting = pass.word(gate, 0);
            // Here the request works on the device, while others may remove it.
            let still = pass.word(gate, 0);
            prove!(still == setting);
            Served::Done(pass.put(gate, slot, 1))
        }
    }
}

/// Removes the device: later requests aren't run. `Put::Last` means that no request is in flight.
///
/// Linux: `blk_queue_start_drain` (block/blk-core.c).
pub fn remove(gate: &Gate<1>, control: &mut Control<1>) -> Result<Put, ControlFault>
    requires own { control.old.gate ≡ gate.now }
    ensures own { control.new.gate ≡ gate.now }
    ensures passes { control.new.view.passes ≡ control.old.view.passes }
    ensures zeros { control.new.view.zeros_cleared ≡ control.old.view.zeros_cleared }
    ensures refused { fault_of result ≡ kill_refusal control.old.view.standing.phase control.old.view.standing.kills }
    ensures unchanged { OnErr result (control.new ≡ control.old) }
    ensures dead { IfOk result (λ put. control.new.view.standing.phase ≡ Dead) }
    ensures told { IfOk result (λ put. control.new.view.releases ≡ control.old.view.releases + released put) }
    ensures killed { IfOk result (λ put. control.new ≡ after_removal put control.old) }
{
    control.kill(gate)
}
