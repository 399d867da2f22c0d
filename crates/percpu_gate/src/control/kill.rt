//! Killing a gate.
ghost use Rattle.std.specs.Prelude.{◌≡◌, ◌*◌, ◌+◌, ◌%◌, ◌<◌, IfOk, IfErr, true};
ghost use Rattle.percpu_core.specs.Phases.{is_live};
ghost use Rattle.percpu_core.specs.declared.phase.Phase.TheVariants as phases;
ghost use Rattle.percpu_gate.specs.ControlCalls.{fault_of, to_close, to_close_of, kill_refusal, after_moving, after_mark_dead, after_gathering, after_confirm, after_drop_base, after_kill};

use super::Control;
use crate::control_fault::ControlFault;
use crate::gate::Gate;
use crate::tried::Put;
use percpu_core::{KILL_LIMIT, Phase};

impl<const W: usize> Control<W> {
    /// Why a kill would be refused now.
    fn refuse_unless_live(&self) -> Result<(), ControlFault>
        ensures refused { fault_of result ≡ kill_refusal self.now.view.standing.phase self.now.view.standing.kills }
        ensures live { IfOk result (λ _. (is_live self.now.view.standing.phase ≡ true) × (self.now.view.standing.kills < KILL_LIMIT)) }
    {
        if self.phase.is_mid_switch() {
            Err(ControlFault::MidSwitch)
        } else if self.phase == Phase::Dead {
            Err(ControlFault::AlreadyDead)
        } else if self.kills >= KILL_LIMIT {
            Err(ControlFault::WornOut)
        } else {
            Ok(())
        }
    }

    /// Begins a kill: sets DEAD. `try_get_live` is now refused on the shared word, and on a slot once that slot is
    /// closed. Returns the number of slots that have to be closed now: 0 in atomic mode. Refuses with MidSwitch,
    /// AlreadyDead or WornOut. Linux: `percpu_ref_kill_and_confirm` (lib/percpu-refcount.c).
    pub fn mark_dead(&mut self, gate: &Gate<W>) -> Result<u32, ControlFault>
        requires own { self.old.gate ≡ gate.now }
        ensures refused { fault_of result ≡ kill_refusal self.old.view.standing.phase self.old.view.standing.kills }
        ensures unchanged { IfErr result (λ why. self.new ≡ self.old) }
        ensures slots { IfOk result (λ slots. slots ≡ to_close self.old.view.standing.phase gate.now.slots) }
        ensures begun { IfOk result (λ slots. self.new ≡ record self.old { view = after_mark_dead self.old.view }) }
    {
        self.refuse_unless_live()?;
        self.seat.set_dead(&gate.table);
        self.kills += 1;
        if self.phase == Phase::LiveSlots {
            self.phase = Phase::Closing(0);
            Ok(gate.slots())
        } else {
            self.phase = Phase::Collected;
            Ok(0)
        }
    }

    /// Begins a kill, and closes and collects the open slots: `mark_dead`, `close_next` for each slot, and `collect` in
    /// one call.
    fn begin_and_gather(&mut self, gate: &Gate<W>) -> Result<(), ControlFault>
        requires own { self.old.gate ≡ gate.now }
        ensures refused { fault_of result ≡ kill_refusal self.old.view.standing.phase self.old.view.standing.kills }
        ensures unchanged { IfErr result (λ why. self.new ≡ self.old) }
        ensures begun { IfOk result (λ _. self.new ≡ after_moving (to_close_of self.old) (after_gathering (after_mark_dead self.old.view)) self.old) }
    {
        self.refuse_unless_live()?;
        self.seat.set_dead(&gate.table);
        self.kills += 1;
        if self.phase == Phase::LiveSlots {
            self.seat.gather(&gate.table);
        }
        self.phase = Phase::Collected;
        Ok(())
    }

    /// Stores the odd front of the kill, and returns it. A pass that has seen it gets no live reference before the next
    /// life. Linux: the `confirm_kill` callback of `percpu_ref_kill_and_confirm` (lib/percpu-refcount.c).
    pub fn confirm(&mut self, gate: &Gate<W>) -> u64
        requires own { self.old.gate ≡ gate.now }
        requires phase { self.old.view.standing.phase ≡ phases.Collected }
        ensures front { result ≡ self.old.view.front + 1 }
        ensures odd { result % 2 ≡ 1 }
        ensures view { self.new ≡ record self.old { view = after_confirm self.old.view } }
    {
        self.front += 1;
        self.seat.confirm(&gate.table, self.front);
        self.phase = Phase::Confirmed;
        self.front
    }

    /// Drops the initial reference, which ends a kill. `Last` is the release. Linux: the put of
    /// `percpu_ref_kill_and_confirm` (lib/percpu-refcount.c).
    pub fn drop_base(&mut self, gate: &Gate<W>) -> Put
        requires own { self.old.gate ≡ gate.now }
        requires phase { self.old.view.standing.phase ≡ phases.Confirmed }
        ensures view { self.new ≡ record self.old { view = after_drop_base result self.old.view } }
    {
        let answer = self.seat.drop_initial(&gate.table);
        self.phase = Phase::Dead;
        self.releases += answer.released();
        answer
    }

    /// Kills the gate: `mark_dead`, `close_next` for each open slot and `collect`, `confirm`, and `drop_base`. Returns
    /// the result of putting the initial reference. Refuses with MidSwitch, AlreadyDead or WornOut. Linux:
    /// `percpu_ref_kill` (include/linux/percpu-refcount.h).
    pub fn kill(&mut self, gate: &Gate<W>) -> Result<Put, ControlFault>
        requires own { self.old.gate ≡ gate.now }
        ensures refused { fault_of result ≡ kill_refusal self.old.view.standing.phase self.old.view.standing.kills }
        ensures unchanged { IfErr result (λ why. self.new ≡ self.old) }
        ensures killed { IfOk result (λ r. self.new ≡ after_moving (to_close_of self.old) (after_kill r self.old.view) self.old) }
    {
        self.begin_and_gather(gate)?;
        self.confirm(gate);
        Ok(self.drop_base(gate))
    }

    /// Kills the gate, and calls `confirm` once with the odd front, when everything is collected and the initial
    /// reference is still held. Also returns the result of `confirm`. Linux: `percpu_ref_kill_and_confirm`
    /// (lib/percpu-refcount.c).
    pub fn kill_and_confirm<R, F: FnOnce(u64) -> R + Drop>(
        &mut self,
        gate: &Gate<W>,
        confirm: F,
    ) -> Result<(Put, R), ControlFault>
        requires own { self.old.gate ≡ gate.now }
        requires callable { F.IsAlwaysCallable confirm }
        ensures refused { fault_of result ≡ kill_refusal self.old.view.standing.phase self.old.view.standing.kills }
        ensures unchanged { IfErr result (λ why. self.new ≡ self.old) }
        ensures killed { IfOk result (λ r. self.new ≡ after_moving (to_close_of self.old) (after_kill r.0 self.old.view) self.old) }
        ensures called { IfOk result (λ r. ((self.old.view.front + 1) % 2 ≡ 1) × F.post confirm (self.old.view.front + 1) r.1) }
    {
        self.begin_and_gather(gate)?;
        let front = self.confirm(gate);
        let answer = confirm(front);
        Ok((self.drop_base(gate), answer))
    }
}
