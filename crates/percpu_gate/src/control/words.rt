//! The calls of the control for a gate at zero: looking for ZERO, and storing guarded words.
ghost use Rattle.std.specs.Prelude.{◌≡◌, ◌<◌, ◌||◌, IfOk, IfErr, true};
ghost use Rattle.percpu_core.specs.declared.phase.Phase.TheVariants as phases;
ghost use Rattle.percpu_gate.specs.Seats.{FindsZero};
ghost use Rattle.percpu_gate.specs.ControlCalls.{fault_of, dead_refusal, LooksForZero, after_store};

use super::Control;
use crate::control_fault::ControlFault;
use crate::gate::Gate;
use percpu_core::Phase;
use percpu_words::is_zero;

impl<const W: usize> Control<W> {
    /// Whether the count has reached zero since the kill, at this load. It stays true until the gate is revived. Linux:
    /// `percpu_ref_is_zero` (lib/percpu-refcount.c).
    pub fn is_zero(&mut self, gate: &Gate<W>) -> bool
        requires own { self.old.gate ≡ gate.now }
        ensures view { self.new ≡ record self.old { view = record self.old.view { knows_zero = self.old.view.knows_zero || result } } }
        ensures found { FindsZero gate.now self.old.view result }
        ensures known { self.old.view.knows_zero ≡ true → result ≡ true }
        ensures dead { result ≡ true → self.old.view.standing.phase ≡ phases.Dead }
        ensures none_out { self.old.view.passes ≡ 0 → self.old.view.standing.phase ≡ phases.Dead → result ≡ true }
    {
        is_zero(self.seat.look(&gate.table))
    }

    /// Why a call for a dead gate would be refused now.
    pub(super) fn refuse_unless_dead(&self) -> Result<(), ControlFault>
        ensures refused { fault_of result ≡ dead_refusal self.now.view.standing.phase }
        ensures dead { IfOk result (λ _. self.now.view.standing.phase ≡ phases.Dead) }
    {
        if self.phase.is_mid_switch() {
            Err(ControlFault::MidSwitch)
        } else if self.phase == Phase::Dead {
            Ok(())
        } else {
            Err(ControlFault::NotDead)
        }
    }

    /// Why a call for a gate at zero would be refused now. It makes one load.
    pub(super) fn refuse_unless_at_zero(&mut self, gate: &Gate<W>) -> Result<(), ControlFault>
        requires own { self.old.gate ≡ gate.now }
        ensures looks { LooksForZero gate.now self.old.view (fault_of result) }
        ensures unchanged { IfErr result (λ why. self.new ≡ self.old) }
        ensures dead { IfOk result (λ _. self.old.view.standing.phase ≡ phases.Dead) }
        ensures zero { IfOk result (λ _. self.new ≡ record self.old { view = record self.old.view { knows_zero = true } }) }
    {
        self.refuse_unless_dead()?;
        if self.is_zero(gate) {
            Ok(())
        } else {
            Err(ControlFault::NotZero)
        }
    }

    /// Stores the guarded word `k`, while the gate is dead and at zero. Refuses with MidSwitch, NotDead or NotZero.
    pub fn store_word(&mut self, gate: &Gate<W>, k: u32, v: u64) -> Result<(), ControlFault>
        requires own { self.old.gate ≡ gate.now }
        requires word { k < W }
        ensures looks { LooksForZero gate.now self.old.view (fault_of result) }
        ensures unchanged { IfErr result (λ why. self.new ≡ self.old) }
        ensures stored { IfOk result (λ _. self.new ≡ record self.old { view = after_store k v self.old.view }) }
    {
        self.refuse_unless_at_zero(gate)?;
        self.seat.store_word(&gate.table, k, v);
        self.words[k as usize] = v;
        Ok(())
    }

    /// The guarded words.
    pub fn words(&self) -> [u64; W]
        ensures { result ≡ self.now.view.words }
    {
        self.words
    }
}
