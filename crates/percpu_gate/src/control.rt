//! The control of a gate: its state and its end. It kills the gate (`kill`), switches its mode (`switch`), stores
//! guarded words once nothing is held (`words`), and revives the gate (`revival`).
ghost use Rattle.std.specs.Prelude.{◌≡◌, ℕ, ◌≤◌, true, false};
ghost use Rattle.percpu_core.specs.declared.limits.TheConstants.{PASS_LIMIT};
ghost use Rattle.percpu_core.specs.Phases.{is_live, live_in};
ghost use Rattle.percpu_core.specs.Starts.{first_mode, opening};
ghost use Rattle.percpu_core.specs.Snapshots.{first_control};
ghost use Rattle.percpu_gate.specs.Rule.{after_retire};
ghost use Rattle.percpu_gate.specs.ControlCalls.{IsBetweenCalls, exit_refusal};

mod kill;
mod revival;
mod switch;
mod words;

use crate::control_seat::ControlSeat;
use crate::exit::ExitWhy;
use crate::gate::Gate;
use crate::pass::Pass;
use percpu_core::{Phase, Start};
use percpu_words::Mode;
use std::marker::Model;

/// The one control of a gate. It kills the gate, and knows the phase and the numbers of kills and releases.
///
/// It moves between threads by ownership.
#[derive(Drop)]
pub struct Control<const W: usize> {
    seat: ControlSeat,
    phase: Phase,
    kills: u64,
    front: u64,
    releases: u64,
    words: [u64; W],
    passes: u32,
    /// The sum of the deltas of the slots that a kill has closed and not yet collected.
    uncollected: i64,
    wants: Mode,
}

impl<const W: usize> Model for Control<W> {
    ghost use Rattle.std.specs.Prelude.{◌≡◌, ◌+◌, ◌*◌, ◌≤◌};
    ghost use Rattle.percpu_core.specs.declared.limits.TheConstants.{KILL_LIMIT, PASS_LIMIT};
    ghost use Rattle.percpu_gate.specs.Seats.{ControlFacts};
    ghost use Rattle.percpu_core.specs.Phases.{is_mid_switch};
    ghost use Rattle.percpu_gate.specs.Modes.{IsWanted};
    ghost use Rattle.percpu_gate.specs.ControlCalls.{standing, IsBetweenCalls, IsSumIn, HasRoom};

    ghost Value = { ControlFacts };

    ghost view = { λ c. record { gate = c.seat.gate; view = c.seat.view; moves = c.seat.moves; wants = c.wants } };

    ghost invariant = { λ c. (c.seat.view.standing ≡ record (standing c.phase c.kills) { uncollected = c.uncollected }) × IsBetweenCalls c.phase × HasRoom c.phase c.kills c.front
        × (c.seat.view.front ≡ c.front) × (c.seat.view.releases ≡ c.releases) × (c.seat.view.words ≡ c.words) × (c.seat.view.passes ≡ c.passes)
        × IsSumIn c.phase c.uncollected × (c.seat.view.killing ≡ is_mid_switch c.phase)
        × (c.passes ≤ PASS_LIMIT) × (c.releases + 2 * KILL_LIMIT * c.passes ≤ 2 * KILL_LIMIT * (PASS_LIMIT + 1))
        × IsWanted c.wants c.phase };
}

impl<const W: usize> Control<W> {
    /// The control of a new gate that has made this many passes.
    pub(crate) fn new(seat: ControlSeat, start: Start, words: [u64; W], passes: u32) -> Control<W>
        requires passes { passes ≤ PASS_LIMIT }
        requires view { (slots : ℕ) × (seat.view ≡ first_control (opening slots passes start 0 words)) }
        ensures { result ≡ record { gate = seat.gate; view = seat.view; moves = seat.moves; wants = first_mode start } }
    {
        Control {
            seat,
            phase: start.phase(),
            kills: 0,
            front: start.front(0),
            releases: 0,
            words,
            passes,
            uncollected: 0,
            wants: start.mode(),
        }
    }

    /// The phase: live, closing, collected, confirmed or dead.
    #[inline]
    pub fn phase(&self) -> Phase
        ensures value { result ≡ self.now.view.standing.phase }
        ensures between { IsBetweenCalls result }
        ensures settled { self.now.view.standing.to_mark ≡ false }
    {
        self.phase
    }

    /// The number of kills so far.
    #[inline]
    pub fn kills(&self) -> u64
        ensures { result ≡ self.now.view.standing.kills }
    {
        self.kills
    }

    /// The mode of a live gate; of a dead gate, or during a kill, the mode in which it will be revived. Linux:
    /// `force_atomic` (lib/percpu-refcount.c).
    #[inline]
    pub fn wants(&self) -> Mode
        ensures value { result ≡ self.now.wants }
        ensures live { is_live self.now.view.standing.phase ≡ true → self.now.view.standing.phase ≡ live_in result }
    {
        self.wants
    }

    /// The number of releases that the control and the retired passes have won.
    #[inline]
    pub fn releases(&self) -> u64
        ensures { result ≡ self.now.view.releases }
    {
        self.releases
    }

    /// The number of passes that aren't retired.
    #[inline]
    pub fn passes(&self) -> u32
        ensures { result ≡ self.now.view.passes }
    {
        self.passes
    }

    /// Ends a pass that holds nothing, and adds its releases to the control's.
    pub fn retire(&mut self, gate: &Gate<W>, pass: Pass<W>)
        requires own { (self.old.gate ≡ gate.now) × (pass.gate ≡ gate.now) }
        requires none { pass.view.standing.held ≡ 0 }
        ensures { self.new ≡ record self.old { view = after_retire pass.entry.view self.old.view } }
    {
        let (seat, releases) = pass.into_parts();
        self.seat.take_in(&gate.table, seat);
        // Always so, by the laws: this pass was counted.
        if self.passes > 0 {
            self.releases += releases;
            self.passes -= 1;
        }
    }

    /// Why the gate may not end if this many passes are out: MidSwitch, PassesOut. Don't count passes that were never
    /// handed out, if they are retired before the end. Linux: `percpu_ref_exit` (lib/percpu-refcount.c).
    pub fn refuse_exit(&self, out: u32) -> Option<ExitWhy>
        ensures { result ≡ exit_refusal self.now.view.standing.phase out }
    {
        if self.phase.is_mid_switch() {
            Some(ExitWhy::MidSwitch)
        } else if out > 0 {
            Some(ExitWhy::PassesOut(out))
        } else {
            None
        }
    }

    /// The seat of a control that ends.
    pub(crate) fn into_seat(self) -> ControlSeat
        ensures seat { result ≡ record { gate = self.entry.gate; view = self.entry.view; moves = self.entry.moves } }
        ensures stands { (self.entry.view.standing.to_mark ≡ false) × IsBetweenCalls self.entry.view.standing.phase }
    {
        self.seat
    }
}
