//! Reviving a dead gate.
ghost use Rattle.std.specs.Prelude.{◌≡◌, IfOk, IfErr, true};
ghost use Rattle.percpu_core.specs.declared.phase.Phase.TheVariants as phases;
ghost use Rattle.percpu_gate.specs.Seats.{FindsZero};
ghost use Rattle.percpu_gate.specs.ControlCalls.{fault_of, live_phase, to_open_of, after_moving, dead_refusal, LooksForZero, is_at_zero, after_revival};

use super::Control;
use crate::control_fault::ControlFault;
use crate::gate::Gate;
use crate::revived::Revived;
use percpu_core::Phase;
use percpu_words::Mode;

impl<const W: usize> Control<W> {
    /// Revives a gate that has reached zero. Refuses with MidSwitch, NotDead or NotZero. Linux: `percpu_ref_reinit`
    /// (lib/percpu-refcount.c).
    pub fn reinit(&mut self, gate: &Gate<W>) -> Result<(), ControlFault>
        requires own { self.old.gate ≡ gate.now }
        ensures looks { LooksForZero gate.now self.old.view (fault_of result) }
        ensures unchanged { IfErr result (λ why. self.new ≡ self.old) }
        ensures revived { IfOk result (λ _. self.new ≡ after_moving (to_open_of self.old) (after_revival (live_phase self.old) true self.old.view) self.old) }
    {
        self.refuse_unless_at_zero(gate)?;
        self.revive(gate);
        Ok(())
    }

    /// Revives a dead gate, whether or not it has reached zero. Refuses with MidSwitch or NotDead. Linux:
    /// `percpu_ref_resurrect` (lib/percpu-refcount.c).
    pub fn resurrect(&mut self, gate: &Gate<W>) -> Result<Revived, ControlFault>
        requires own { self.old.gate ≡ gate.now }
        ensures refused { fault_of result ≡ dead_refusal self.old.view.standing.phase }
        ensures unchanged { IfErr result (λ why. self.new ≡ self.old) }
        ensures revived { IfOk result (λ r. self.new ≡ after_moving (to_open_of self.old) (after_revival (live_phase self.old) (is_at_zero r) self.old.view) self.old) }
        ensures base { IfOk result (λ r. FindsZero gate.now self.old.view (is_at_zero r)) }
    {
        self.refuse_unless_dead()?;
        Ok(if self.revive(gate) {
            Revived::AtZero
        } else {
            Revived::Held
        })
    }

    /// Revives a dead gate in its mode. Returns whether it was at zero.
    fn revive(&mut self, gate: &Gate<W>) -> bool
        requires own { self.old.gate ≡ gate.now }
        requires dead { self.old.view.standing.phase ≡ phases.Dead }
        ensures revived { self.new ≡ after_moving (to_open_of self.old) (after_revival (live_phase self.old) result self.old.view) self.old }
        ensures base { FindsZero gate.now self.old.view result }
    {
        self.front += 1;
        let at_zero = self.seat.revive(&gate.table, self.front);
        if self.wants == Mode::Slots {
            self.seat.open_all(&gate.table);
        }
        self.phase = Phase::live(self.wants);
        at_zero
    }
}
