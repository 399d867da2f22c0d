//! The words of a gate, on which its seats step.
ghost use Rattle.std.specs.Prelude.{◌≡◌, ◌≤◌, length, take, IfOk};
ghost use Rattle.percpu_core.specs.declared.limits.TheConstants.{SLOT_LIMIT, WORD_LIMIT};
ghost use Rattle.percpu_core.specs.Cells.{slot_spelling};
ghost use Rattle.percpu_core.specs.Starts.{first_cells, first_slot};
ghost use Rattle.percpu_core.specs.Snapshots.{first_control};
ghost use Rattle.percpu_gate.specs.Layout.{slot_place, words_in_all, Spell};
ghost use Rattle.percpu_gate.specs.Rule.{opening_of};
ghost use Rattle.percpu_gate.specs.Seats.{facts_of, Moment};
ghost use Rattle.percpu_core.specs.declared.view.View.TheVariants.{OfControl};

use crate::control_seat::ControlSeat;
use crate::rule::{GateKey, GateRule, SeatView};
use atomic_table::Table;
use percpu_core::Start;
use percpu_words::{CLOSED, slot_word};
use std::alloc::{AllocError, Global};
use std::marker::Model;

/// Index of the shared word: 128 bytes into the block, so that whatever precedes the block is on another line.
pub(crate) const SHARED: usize = 16;

/// Index of the front.
pub(crate) const FRONT: usize = 32;

/// Index of the first guarded word.
pub(crate) const FIRST_WORD: usize = 33;

/// Index of the first slot, more than 128 bytes after the words before it.
const FIRST_SLOT: usize = 64;

/// A slot is written by its thread all the time, so it has 128 bytes to itself.
const WORDS_OF_A_SLOT: usize = 16;

/// Index of a slot.
#[inline]
pub(crate) fn place_of(slot: u32) -> usize
    ensures { result ≡ slot_place slot }
{
    FIRST_SLOT + WORDS_OF_A_SLOT * slot as usize
}

/// The words of a gate.
#[derive(Drop)]
pub(crate) struct GateTable {
    pub(crate) table: Table<(), SeatView, GateKey, GateRule, Global>,
    slots: u32,
}

impl Model for GateTable {
    ghost use Rattle.std.specs.Prelude.{◌≡◌, ◌≤◌};
    ghost use Rattle.percpu_core.specs.declared.limits.TheConstants.{SLOT_LIMIT, WORD_LIMIT};
    ghost use Rattle.percpu_gate.specs.Layout.{words_in_all};
    ghost use Rattle.percpu_gate.specs.Seats.{TableFacts};

    ghost Value = { TableFacts };

    ghost view = { λ t. record { id = t.table.shared.table_id; key = t.table.shared.key } };

    ghost invariant = { λ t. (t.slots ≡ t.table.shared.key.slots) × (1 ≤ t.slots) × (t.slots ≤ SLOT_LIMIT) × (t.table.shared.key.count ≤ WORD_LIMIT)
        × (t.table.shared.table_id.words ≡ words_in_all t.slots) × (t.table.shared.table_id.slots ≡ 0) };
}

/// The word of each slot at the start.
fn first_slot_word(start: Start) -> u64
    ensures { result ≡ slot_spelling (first_slot start) }
{
    match start {
        Start::Slots => slot_word(0),
        Start::Atomic | Start::Dead => CLOSED,
    }
}

/// The words of a gate that isn't shared yet. Unused words have the same value as the slots.
fn first_words(alloc: Global, key: &GateKey) -> Result<Vec<u64>, AllocError>
    requires count { key.now.count ≤ WORD_LIMIT }
    requires slots { key.now.slots ≤ SLOT_LIMIT }
    ensures words { IfOk result (λ ws. Spell ws.items (first_cells (opening_of key.now))) }
    ensures size { IfOk result (λ ws. length ws.items ≡ words_in_all key.now.slots) }
    ensures count { IfOk result (λ ws. length (take key.now.count key.now.words) ≡ key.now.count) }
{
    let slot = first_slot_word(key.start);
    // The words end where another slot would begin.
    let size = place_of(key.slots);
    let mut words = Vec::with_capacity(alloc, size)?;
    words.resize(SHARED, slot)?;
    words.push(key.start.shared())?;
    words.resize(FRONT, slot)?;
    words.push(key.start.front(0))?;
    words.extend_from_slice(&key.words[..key.count])?;
    words.resize(size, slot)?;
    Ok(words)
}

impl GateTable {
    /// The words of a new gate, and the seat of its control, which has made no pass yet.
    pub(crate) fn new(alloc: Global, key: &GateKey) -> Result<(GateTable, ControlSeat), AllocError>
        requires count { key.now.count ≤ WORD_LIMIT }
        requires slots { (1 ≤ key.now.slots) × (key.now.slots ≤ SLOT_LIMIT) }
        ensures table { IfOk result (λ r. (r.0.key ≡ key.now) × (r.1.gate ≡ facts_of r.0)) }
        ensures control { IfOk result (λ r. r.1.view ≡ record (first_control (opening_of key.now)) { passes = 0 }) }
        ensures moves { IfOk result (λ r. r.1.moves ≡ 0) }
    {
        let words = first_words(alloc, key)?;
        let (table, seat) = Table::of_words(alloc, words.as_slice(), key)?;
        let slots = key.slots;
        Ok((GateTable { table, slots }, ControlSeat::of(seat)))
    }

    /// Ends the table, with the control's seat.
    pub(crate) fn close(self, control: ControlSeat)
        requires own { control.gate ≡ facts_of self }
        ensures { Moment (facts_of self) (OfControl control.view) }
    {
        let closed = self.table.close_with(control.into_seat());
        closed.free();
    }

    /// The number of slots of the gate.
    #[inline]
    pub(crate) fn slots(&self) -> u32
        ensures value { result ≡ self.now.key.slots }
        ensures some_slot { 1 ≤ result }
        ensures few { result ≤ SLOT_LIMIT }
    {
        self.slots
    }
}
