//! The rule of a gate's table: the laws of `percpu_core`.
ghost use Rattle.std.specs.Prelude.{◌≡◌, ◌≤◌, length, take};

use atomic_table::TableRule;
use percpu_core::{PassEvent, Reply, Start, View, WORD_LIMIT};
use std::collections::LinkedList;

/// What a gate was made with. It never changes.
#[derive(Drop)]
pub(crate) struct GateKey {
    pub slots: u32,
    pub start: Start,
    /// The guarded words, of which there are `count`.
    pub words: [u64; WORD_LIMIT],
    pub count: usize,
}

impl GateKey {
    /// The key of a gate with this many slots and these guarded words.
    pub(crate) fn new(slots: u32, start: Start, words: &[u64]) -> GateKey
        requires { length words.now ≤ WORD_LIMIT }
        ensures key { (result.slots ≡ slots) × (result.start ≡ start) × (result.count ≡ length words.now) }
        ensures words { take result.count result.words ≡ words.now }
    {
        let count = words.len();
        let mut padded = [0; WORD_LIMIT];
        padded[..count].copy_from_slice(words);
        GateKey {
            slots,
            start,
            words: padded,
            count,
        }
    }
}

/// What a seat knows: how its gate was made, its view, and the steps that it took. It exists only in proofs.
pub(crate) struct SeatView {
    pub slots: u32,
    pub start: Start,
    /// The number of guarded words.
    pub words: usize,
    pub view: View,
    /// The steps of a pass, each with its reply, the last one first.
    pub steps: LinkedList<(PassEvent, Reply)>,
    /// How many slots the control has closed and opened.
    pub moves: u64,
}

/// The laws, over the memory that the words of the table encode.
pub(crate) struct GateRule;

impl TableRule<(), SeatView, GateKey> for GateRule {
    ghost use Rattle.percpu_gate.specs.Rule.{Ruled, first_view};

    ghost holds = { Ruled };

    ghost first = { first_view };
}
