//! The box of an open control handle.
ghost use Rattle.std.specs.Prelude.{◌≡◌, ◌+◌, ◌-◌, None, All, IfSome, MatchResult, length, option_to_list};
ghost use Rattle.c_answers.specs.Ran.{Ran, misuse_of};
ghost use Rattle.percpu_gate_c.specs.Life.{IsFinal, end_refusal};
ghost use Rattle.percpu_gate.specs.Rule.{after_retire};
ghost use Rattle.percpu_gate.specs.Seats.{fresh_pass};
ghost use Rattle.percpu_words.specs.declared.mode.Mode.TheVariants as modes;
ghost use Rattle.percpu_gate_c.specs.ControlCalls.{Makes, NewControl, size_misuse, Next, value_of, Killed, SawZero, Reinited, Resurrected, Switched, StoredWord, store_misuse, Told, ToldWords, retire_misuse, knowing, with_passes};
ghost use Rattle.percpu_gate_c.specs.KillSteps.{BegunKill, ClosedSlot, close_misuse, CollectedSlots, collect_misuse, ConfirmedKill, confirm_misuse, DroppedBase, drop_misuse, TellsPhase};

use crate::life::Final;
use crate::open_pass::{OpenPass, WORDS};
use c_answers::{DrawnNumber, Misuse};
use percpu_gate::{
    Control, ControlFault, ExitWhy, Gate, PASS_LIMIT, Pass, Phase, Put, Revived, SLOT_LIMIT, Start,
};
use std::alloc::Global;
use std::marker::Model;
use std::sync::Arc;

/// The control with its gate, the gate's number, and the passes that no handle has had yet.
#[derive(Drop)]
#[repr(C)]
pub struct OpenControl {
    before: [u64; 16],
    gate: Arc<Gate<WORDS>>,
    number: DrawnNumber,
    waiting: Vec<Pass<WORDS>>,
    spare: Option<Pass<WORDS>>,
    control: Control<WORDS>,
    after: [u64; 16],
}

impl Model for OpenControl {
    ghost use Rattle.std.specs.Prelude.{◌≡◌, ◌+◌, All, IfSome, length, option_to_list};
    ghost use Rattle.std.specs.Arc.{arc_value};
    ghost use Rattle.percpu_gate.specs.Seats.{fresh_pass};
    ghost use Rattle.percpu_gate_c.specs.Opened.{ControlOpened};

    ghost Value = { ControlOpened };

    ghost view = { λ c. record { number = c.number; waiting = length c.waiting.items + length (option_to_list c.spare); control = c.control } };

    ghost invariant = { λ c. (c.control.gate ≡ arc_value c.gate)
        × All (λ p. p ≡ fresh_pass (arc_value c.gate)) c.waiting.items
        × IfSome c.spare (λ p. p ≡ fresh_pass (arc_value c.gate)) };
}

/// Takes in a pass that nobody asked for.
#[tactic(auto, using(crate::proofs::Fresh::taken))]
fn take_in(gate: &Gate<WORDS>, control: &mut Control<WORDS>, pass: Pass<WORDS>)
    requires own { control.old.gate ≡ gate.now }
    requires fresh { pass ≡ fresh_pass gate.now }
    ensures { control.new ≡ with_passes (control.old.view.passes - 1) control.old }
{
    control.retire(gate, pass);
}

/// Takes in passes that nobody asked for.
fn take_in_all(
    gate: &Gate<WORDS>,
    control: &mut Control<WORDS>,
    waiting: Vec<Pass<WORDS>>,
    spare: Option<Pass<WORDS>>,
)
    requires own { control.old.gate ≡ gate.now }
    requires fresh { All (λ p. p ≡ fresh_pass gate.now) waiting.items }
    requires spare { IfSome spare (λ p. p ≡ fresh_pass gate.now) }
    ensures { control.new ≡ with_passes (control.old.view.passes - (length waiting.items + length (option_to_list spare))) control.old }
{
    for pass in waiting {
        take_in(gate, control, pass);
    }
    if let Some(pass) = spare {
        take_in(gate, control, pass);
    }
}

impl OpenControl {
    /// Makes the control of a new gate. Refuses with Size or Memory.
    pub fn new(
        alloc: Global,
        number: DrawnNumber,
        slots: u32,
        passes: u32,
        start: Start,
        words: &[u64; WORDS],
    ) -> Result<OpenControl, Misuse>
        ensures { Makes (size_misuse slots passes) (NewControl number slots passes start words.now) result }
    {
        if slots == 0 || slots > SLOT_LIMIT || passes == 0 || passes > PASS_LIMIT {
            return Err(Misuse::Size);
        }
        let Ok((gate, control, waiting)) = Gate::new(alloc, slots, passes, start, *words) else {
            return Err(Misuse::Memory);
        };
        let Ok(gate) = Arc::new(alloc, gate) else {
            return Err(Misuse::Memory);
        };
        Ok(OpenControl {
            before: [0; 16],
            gate,
            number,
            waiting,
            spare: None,
            control,
            after: [0; 16],
        })
    }

    /// The next pass that no handle has had yet. Refuses with NoneWaits or Memory.
    pub fn next_pass(&mut self, alloc: Global) -> Result<Box<OpenPass>, Misuse>
        ensures { Next self.old self.new (value_of result) }
    {
        let next = match self.spare.take() {
            Some(pass) => Some(pass),
            None => self.waiting.pop(),
        };
        let Some(pass) = next else {
            return Err(Misuse::NoneWaits);
        };
        let Ok(gate) = Arc::try_clone(&self.gate) else {
            self.spare = Some(pass);
            return Err(Misuse::Memory);
        };
        match Box::new(alloc, OpenPass::new(gate, self.number, pass)) {
            Ok(open) => Ok(open),
            Err(back) => {
                self.spare = Some(back.value.into_pass());
                Err(Misuse::Memory)
            }
        }
    }

    /// Kills the gate.
    pub fn kill(&mut self) -> Result<Result<Put, ControlFault>, Misuse>
        ensures { Ran None Killed self.old self.new result }
    {
        Ok(self.control.kill(&self.gate))
    }

    /// Begins a kill. Returns the number of slots that have to be closed.
    pub fn mark_dead(&mut self) -> Result<Result<u32, ControlFault>, Misuse>
        ensures { Ran None BegunKill self.old self.new result }
    {
        Ok(self.control.mark_dead(&self.gate))
    }

    /// Closes the next slot of a kill. Returns its delta. Refuses with Step.
    pub fn close_next(&mut self) -> Result<i64, Misuse>
        ensures { Ran (close_misuse self.old) ClosedSlot self.old self.new result }
    {
        match self.control.phase() {
            Phase::Closing(closed) if closed < self.gate.slots() => {
                Ok(self.control.close_next(&self.gate))
            }
            _ => Err(Misuse::Step),
        }
    }

    /// Collects the slots that a kill has closed. Refuses with Step.
    pub fn collect(&mut self) -> Result<(), Misuse>
        ensures { Ran (collect_misuse self.old) CollectedSlots self.old self.new result }
    {
        match self.control.phase() {
            Phase::Closing(closed) if closed == self.gate.slots() => {
                self.control.collect(&self.gate);
                Ok(())
            }
            _ => Err(Misuse::Step),
        }
    }

    /// Confirms a kill. Returns its front. Refuses with Step.
    pub fn confirm(&mut self) -> Result<u64, Misuse>
        ensures { Ran (confirm_misuse self.old) ConfirmedKill self.old self.new result }
    {
        match self.control.phase() {
            Phase::Collected => Ok(self.control.confirm(&self.gate)),
            _ => Err(Misuse::Step),
        }
    }

    /// Drops the initial reference, which ends a kill. Refuses with Step.
    pub fn drop_base(&mut self) -> Result<Put, Misuse>
        ensures { Ran (drop_misuse self.old) DroppedBase self.old self.new result }
    {
        match self.control.phase() {
            Phase::Confirmed => Ok(self.control.drop_base(&self.gate)),
            _ => Err(Misuse::Step),
        }
    }

    /// The phase of the control.
    pub fn phase(&mut self) -> Result<Phase, Misuse>
        ensures { Ran None TellsPhase self.old self.new result }
    {
        Ok(self.control.phase())
    }

    /// Whether the count has reached zero.
    pub fn is_zero(&mut self) -> bool
        ensures { SawZero self.old self.new result }
    {
        self.control.is_zero(&self.gate)
    }

    /// Revives a gate at zero.
    pub fn reinit(&mut self) -> Result<Result<(), ControlFault>, Misuse>
        ensures { Ran None Reinited self.old self.new result }
    {
        Ok(self.control.reinit(&self.gate))
    }

    /// Revives a dead gate.
    pub fn resurrect(&mut self) -> Result<Result<Revived, ControlFault>, Misuse>
        ensures { Ran None Resurrected self.old self.new result }
    {
        Ok(self.control.resurrect(&self.gate))
    }

    /// Counts on the shared word alone from now on.
    pub fn switch_to_atomic(&mut self) -> Result<Result<(), ControlFault>, Misuse>
        ensures { Ran None (Switched modes.Atomic) self.old self.new result }
    {
        Ok(self.control.switch_to_atomic(&self.gate))
    }

    /// Counts on slots from now on.
    pub fn switch_to_slots(&mut self) -> Result<Result<(), ControlFault>, Misuse>
        ensures { Ran None (Switched modes.Slots) self.old self.new result }
    {
        Ok(self.control.switch_to_slots(&self.gate))
    }

    /// Stores a guarded word. Refuses with Word.
    pub fn store_word(&mut self, k: u32, v: u64) -> Result<Result<(), ControlFault>, Misuse>
        ensures { Ran (store_misuse k self.old) (StoredWord k v) self.old self.new result }
    {
        if k as usize >= WORDS {
            return Err(Misuse::Word);
        }
        Ok(self.control.store_word(&self.gate, k, v))
    }

    /// The number of kills so far.
    pub fn kills(&mut self) -> Result<u64, Misuse>
        ensures { Ran None (Told (λ c. c.standing.kills)) self.old self.new result }
    {
        Ok(self.control.kills())
    }

    /// The number of releases of the control and of retired passes.
    pub fn releases(&mut self) -> Result<u64, Misuse>
        ensures { Ran None (Told (λ c. c.releases)) self.old self.new result }
    {
        Ok(self.control.releases())
    }

    /// The guarded words.
    pub fn words(&mut self) -> Result<[u64; WORDS], Misuse>
        ensures { Ran None ToldWords self.old self.new result }
    {
        Ok(self.control.words())
    }

    /// Why this pass may not be retired. Refuses with Foreign or StillHeld.
    pub fn refuse_retire(&self, pass: &OpenPass) -> Result<(), Misuse>
        ensures { misuse_of result ≡ retire_misuse self.now pass.now }
    {
        let number = pass.number();
        if self.number.counter != number.counter || self.number.drawn != number.drawn {
            Err(Misuse::Foreign)
        } else if pass.held() != 0 {
            Err(Misuse::StillHeld)
        } else {
            Ok(())
        }
    }

    /// Ends a pass.
    pub fn retire(&mut self, pass: OpenPass)
        requires own { pass.pass.gate ≡ self.old.control.gate }
        requires none { pass.pass.view.standing.held ≡ 0 }
        ensures { self.new ≡ knowing self.old (after_retire pass.pass.view self.old.control.view) }
    {
        self.control.retire(&self.gate, pass.into_pass());
    }

    /// The number of its gate.
    pub fn number(&self) -> DrawnNumber
        ensures { result ≡ self.now.number }
    {
        self.number
    }

    /// The number of passes that were given out and aren't retired.
    fn given_out(&self) -> u32
        ensures { result ≡ self.now.control.view.passes - self.now.waiting }
    {
        let waiting = self.waiting.len() + usize::from(self.spare.is_some());
        (self.control.passes() as usize).saturating_sub(waiting) as u32
    }

    /// Why the gate may not end: 20, or 22.
    pub fn refuse_exit(&self) -> Option<ExitWhy>
        ensures { result ≡ end_refusal self.now }
    {
        self.control.refuse_exit(self.given_out())
    }

    /// Ends the gate, after taking in the passes that nobody asked for. Returns itself if somebody has a share of the
    /// gate, which no use of handles leads to.
    pub fn end(self) -> Result<Final, OpenControl>
        requires retired { end_refusal self ≡ None }
        ensures { MatchResult result (λ f. IsFinal self f) (λ back. back ≡ self) }
    {
        let Self {
            before,
            gate,
            number,
            waiting,
            spare,
            mut control,
            after,
        } = self;
        let gate = match Arc::try_unwrap(gate) {
            Ok(gate) => gate,
            Err(gate) => {
                return Err(OpenControl {
                    before,
                    gate,
                    number,
                    waiting,
                    spare,
                    control,
                    after,
                });
            }
        };
        take_in_all(&gate, &mut control, waiting, spare);
        let Ok(ended) = gate.exit(control) else {
            unreachable!();
        };
        let words = ended.words;
        Ok(Final {
            dead: ended.dead,
            kills: ended.kills,
            releases: ended.releases,
            words,
        })
    }
}
