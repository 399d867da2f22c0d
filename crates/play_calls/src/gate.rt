//! A gate on which calls are made one after another, until it ends. The conditions of each call are tested when it is made, so a
//! row of calls needs no proof of its own.
ghost use Rattle.std.specs.Prelude.{◌≡◌, ◌<◌, ◌≤◌, true};
ghost use Rattle.percpu_gate.specs.ControlCalls.{HasSlotToClose};

use crate::answer::{Answer, push_end};
use crate::gate_calls::{ControlCall, PassCall};
use percpu_gate::{Control, ExitFault, Gate, Pass, Phase, Start};
use std::alloc::{AllocError, Global};
use std::marker::Model;

/// A gate, its control and its passes.
#[derive(Drop)]
pub(crate) struct GatePlayer {
    gate: Gate<8>,
    control: Control<8>,
    passes: Vec<Pass<8>>,
    /// The number of each pass, at its index.
    numbers: Vec<u32>,
    /// How many guarded words the row names. The gate has eight.
    words: usize,
}

impl Model for GatePlayer {
    ghost use Rattle.std.specs.Prelude.{◌≡◌, All};
    ghost use Rattle.percpu_gate.specs.Seats.{GateFacts};

    ghost Value = { GateFacts };

    ghost view = { λ p. p.gate };

    ghost invariant = { λ p. (p.control.gate ≡ p.gate) × All (λ q. q.gate ≡ p.gate) p.passes.items };
}

/// Returns whether the row names this guarded word.
fn is_named(k: u32, words: usize) -> bool
    ensures { result ≡ true → k < 8 }
{
    k < 8 && (k as usize) < words
}

/// Makes a call of a pass, except `Retire` and `Lose`.
fn play_pass(gate: &Gate<8>, pass: &mut Pass<8>, words: usize, call: PassCall) -> Answer
    requires own { pass.old.gate ≡ gate.now }
    ensures { pass.new.gate ≡ pass.old.gate }
{
    let held = pass.held();
    let slots = gate.slots();
    match call {
        PassCall::TryGet { slot } if slot < slots && held < 65_535 => {
            pass.try_get(gate, slot).into()
        }
        PassCall::TryGetLive { slot } if slot < slots && held < 65_535 => {
            pass.try_get_live(gate, slot).into()
        }
        PassCall::Get { slot, n } if slot < slots && held > 0 && n > 0 && n <= 65_535 - held => {
            pass.get(gate, slot, n);
            Answer::Done
        }
        PassCall::Put { slot, n } if slot < slots && n > 0 && n <= held => {
            pass.put(gate, slot, n).into()
        }
        PassCall::Word(k) if held > 0 && is_named(k, words) => pass.word(gate, k).into(),
        PassCall::Front => pass.front(gate).into(),
        PassCall::SeenFront => pass.seen_front().into(),
        PassCall::Held => held.into(),
        PassCall::IsDying => pass.is_dying(gate).into(),
        PassCall::IsZero => pass.is_zero(gate).into(),
        _ => Answer::PassedOver,
    }
}

/// Returns whether a kill has a slot left to close, of this many.
fn is_closing(phase: Phase, slots: u32) -> bool
    ensures { result ≡ true → HasSlotToClose phase slots }
{
    match phase {
        Phase::Closing(closed) => closed < slots,
        _ => false,
    }
}

/// Makes a call of the control, except `Exit`.
fn play_control(gate: &Gate<8>, control: &mut Control<8>, words: usize, call: ControlCall) -> Answer
    requires own { control.old.gate ≡ gate.now }
    ensures { control.new.gate ≡ control.old.gate }
{
    match call {
        ControlCall::Kill => control.kill(gate).into(),
        ControlCall::KillAndConfirm => control.kill_and_confirm(gate, |front| front).into(),
        ControlCall::MarkDead => control.mark_dead(gate).into(),
        ControlCall::CloseNext if is_closing(control.phase(), gate.slots()) => {
            Answer::Closed(control.close_next(gate))
        }
        ControlCall::Collect if control.phase() == Phase::Closing(gate.slots()) => {
            control.collect(gate);
            Answer::Done
        }
        ControlCall::Confirm if control.phase() == Phase::Collected => control.confirm(gate).into(),
        ControlCall::DropBase if control.phase() == Phase::Confirmed => {
            control.drop_base(gate).into()
        }
        ControlCall::Reinit => control.reinit(gate).into(),
        ControlCall::Resurrect => control.resurrect(gate).into(),
        ControlCall::StoreWord { k, v } if is_named(k, words) => {
            control.store_word(gate, k, v).into()
        }
        ControlCall::WordAt(k) if is_named(k, words) => control.words()[k as usize].into(),
        ControlCall::SwitchToAtomic => control.switch_to_atomic(gate).into(),
        ControlCall::SwitchToSlots => control.switch_to_slots(gate).into(),
        ControlCall::Wants => control.wants().into(),
        ControlCall::IsZero => control.is_zero(gate).into(),
        ControlCall::InPhase => control.phase().into(),
        ControlCall::Kills => control.kills().into(),
        ControlCall::Releases => control.releases().into(),
        _ => Answer::PassedOver,
    }
}

impl GatePlayer {
    /// Returns a new gate of these sizes, whose first words are these.
    pub(crate) fn new(
        alloc: Global,
        slots: u32,
        passes: u32,
        start: Start,
        named: &[u64],
    ) -> Result<GatePlayer, AllocError>
        requires slots { (1 ≤ slots) × (slots ≤ 512) }
        requires passes { (1 ≤ passes) × (passes ≤ 1024) }
    {
        let mut words = [0u64; 8];
        for (word, named) in words.iter_mut().zip(named) {
            *word = *named;
        }
        let numbers = (0..passes).collect(alloc)?;
        let (gate, control, passes) = Gate::new(alloc, slots, passes, start, words).map_err(
            |_refused| AllocError,
        )?;
        Ok(GatePlayer {
            gate,
            control,
            passes,
            numbers,
            words: named.len(),
        })
    }

    /// Returns the answer to a call of the pass with this number, if it is there. After a pass is retired or lost, those behind it
    /// move up.
    pub(crate) fn ask_pass(&mut self, number: u32, call: PassCall) -> Answer {
        let Some(at) = self.numbers.iter().position(|it| *it == number) else {
            return Answer::PassedOver;
        };
        if at >= self.passes.len() {
            return Answer::PassedOver;
        }
        match call {
            PassCall::Retire if self.passes[at].held() == 0 => {
                let pass = self.passes.remove(at);
                self.control.retire(&self.gate, pass);
                self.numbers.retain(|it| *it != number);
                Answer::Done
            }
            PassCall::Lose => {
                let _lost = self.passes.remove(at);
                self.numbers.retain(|it| *it != number);
                Answer::Done
            }
            call => play_pass(&self.gate, &mut self.passes[at], self.words, call),
        }
    }

    /// Ends the gate, and appends its end. Returns the gate if it may not end.
    fn exit(self, out: &mut Vec<u8>) -> Result<Option<GatePlayer>, AllocError> {
        let GatePlayer {
            gate,
            control,
            passes,
            numbers,
            words,
        } = self;
        match gate.exit(control) {
            Ok(ended) => {
                push_end(out, &ended, words)?;
                Ok(None)
            }
            Err(ExitFault { why, gate, control }) => {
                let player = GatePlayer {
                    gate,
                    control,
                    passes,
                    numbers,
                    words,
                };
                Answer::from(why).append_to(out)?;
                Ok(Some(player))
            }
        }
    }
}

/// Appends the answer to a call of the control. After its end there is no gate.
pub(crate) fn ask_control(
    gate: &mut Option<GatePlayer>,
    out: &mut Vec<u8>,
    call: ControlCall,
) -> Result<(), AllocError> {
    match (gate.take(), call) {
        (None, _) => Answer::PassedOver.append_to(out),
        (Some(player), ControlCall::Exit) => {
            *gate = player.exit(out)?;
            Ok(())
        }
        (Some(mut player), call) => {
            let answer = play_control(&player.gate, &mut player.control, player.words, call);
            *gate = Some(player);
            answer.append_to(out)
        }
    }
}
