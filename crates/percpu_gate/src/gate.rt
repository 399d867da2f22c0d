//! A gate.
ghost use Rattle.std.specs.Prelude.{◌≡◌, ◌≤◌, replicate, IfOk, IfErr, OnOk};
ghost use Rattle.percpu_gate.specs.ControlCalls.{exit_refusal};
ghost use Rattle.percpu_gate.specs.Exits.{why_of, Ended, IsFinal};
ghost use Rattle.percpu_gate.specs.Seats.{facts_of, fresh_pass, fresh_control};

use crate::control::Control;
use crate::control_seat::ControlSeat;
use crate::exit::{ExitFault, Final};
use crate::pass::Pass;
use crate::rule::GateKey;
use crate::table::GateTable;
use percpu_core::{Memory, PASS_LIMIT, Phase, SLOT_LIMIT, Start, WORD_LIMIT};
use std::alloc::{AllocError, Global};
use std::marker::Model;

/// A gate, its control and its passes.
pub type NewGate<const W: usize> = (Gate<W>, Control<W>, Vec<Pass<W>>);

/// A gate with `W` guarded words. Threads share it by reference, and count on it with their passes.
///
/// 128 unused bytes on each side keep the pointer to the words, which every call reads, off the cache lines of
/// neighbouring data.
#[derive(Drop)]
#[repr(C)]
pub struct Gate<const W: usize> {
    before: [u64; 16],
    pub(crate) table: GateTable,
    after: [u64; 16],
}

impl<const W: usize> Model for Gate<W> {
    ghost use Rattle.std.specs.Prelude.{◌≡◌};
    ghost use Rattle.percpu_gate.specs.Seats.{GateFacts, facts_of};

    ghost Value = { GateFacts };

    ghost view = { λ g. facts_of g.table };

    ghost invariant = { λ g. g.table.key.count ≡ W };
}

/// Makes this many passes, from a control that has made none.
fn make_passes<const W: usize>(
    alloc: Global,
    seat: &mut ControlSeat,
    table: &GateTable,
    passes: u32,
) -> Result<Vec<Pass<W>>, AllocError>
    requires own { seat.old.gate ≡ facts_of table.now }
    requires none { seat.old.view.passes ≡ 0 }
    requires few { passes ≤ PASS_LIMIT }
    ensures seat { OnOk result (seat.new ≡ record seat.old { view = record seat.old.view { passes = passes } }) }
    ensures passes { IfOk result (λ made. made.items ≡ replicate passes (fresh_pass (facts_of table.now))) }
{
    let mut made = Vec::with_capacity(alloc, passes as usize)?;
    for _ in 0..passes {
        made.push(Pass::new(seat.make_pass(table)))?;
    }
    Ok(made)
}

impl<const W: usize> Gate<W> {
    /// Returns a gate with this many slots (1 to 512), its control, and this many passes (1 to 1,024) that hold
    /// nothing. With `Start::Slots` the gate is live with its slots open, with `Start::Atomic` live with them closed,
    /// and with `Start::Dead` dead and at zero; then its slots open when it is revived. Returns `Memory` if an
    /// allocation was refused. Linux: `percpu_ref_init` (lib/percpu-refcount.c).
    pub fn new(
        alloc: Global,
        slots: u32,
        passes: u32,
        start: Start,
        words: [u64; W],
    ) -> Result<NewGate<W>, Memory>
        requires words { W ≤ WORD_LIMIT }
        requires slots { (1 ≤ slots) × (slots ≤ SLOT_LIMIT) }
        requires passes { (1 ≤ passes) × (passes ≤ PASS_LIMIT) }
        ensures gate { IfOk result (λ g. (g.0.slots ≡ slots) × (g.0.start ≡ start) × (g.0.words ≡ W)) }
        ensures control { IfOk result (λ g. g.1 ≡ fresh_control g.0 passes words.entry) }
        ensures passes { IfOk result (λ g. g.2.items ≡ replicate passes (fresh_pass g.0)) }
    {
        let (table, mut seat) = GateTable::new(alloc, &GateKey::new(slots, start, &words))?;
        let made = make_passes(alloc, &mut seat, &table, passes)?;
        let control = Control::new(seat, start, words, passes);
        let gate = Gate {
            before: [0; 16],
            table,
            after: [0; 16],
        };
        Ok((gate, control, made))
    }

    /// The number of slots: 1 to 512.
    #[inline]
    pub fn slots(&self) -> u32
        ensures value { result ≡ self.now.slots }
        ensures some_slot { 1 ≤ result }
        ensures few { result ≤ SLOT_LIMIT }
    {
        self.table.slots()
    }

    /// Ends a gate whose passes are all retired. Refuses with MidSwitch or PassesOut. Linux: `percpu_ref_exit`
    /// (lib/percpu-refcount.c).
    pub fn exit(self, control: Control<W>) -> Result<Final<W>, ExitFault<W>>
        requires own { control.gate ≡ self }
        ensures refused { exit_refusal control.entry.view.standing.phase control.entry.view.passes ≡ why_of result }
        ensures unchanged { IfErr result (λ f. (f.gate ≡ self.entry) × (f.control ≡ control.entry)) }
        ensures ended { IfOk result (λ f. IsFinal control.entry.view f) }
        ensures nothing_lost { IfOk result (λ f. Ended self.entry control.entry.view) }
    {
        if let Some(why) = control.refuse_exit(control.passes()) {
            return Err(ExitFault {
                why,
                gate: self,
                control,
            });
        }
        let ended = Final {
            dead: control.phase() == Phase::Dead,
            kills: control.kills(),
            releases: control.releases(),
            words: control.words(),
        };
        self.table.close(control.into_seat());
        Ok(ended)
    }
}
