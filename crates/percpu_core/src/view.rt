//! What each seat of a gate knows. The laws are about these views; no value of them is made.
use crate::control_standing::ControlStanding;
use crate::pass_standing::PassStanding;
use std::collections::LinkedList;

/// A guarded word as a pass has read it.
pub struct WordRead {
    pub word: u32,
    pub value: u64,
}

/// What a pass knows.
pub struct PassView {
    pub standing: PassStanding,
    /// The guarded words that the pass has read since it began to hold references.
    pub read: LinkedList<WordRead>,
    /// The greatest front that it has seen.
    pub seen_front: u64,
    /// A lower bound of the front.
    pub floor: u64,
    /// The number of its loads of the front.
    pub front_loads: u64,
    /// The number of its steps that took a reference while the gate was live: additions that found DEAD clear, and
    /// exchanges of a slot that were won.
    pub live_given: u64,
    /// The number of its loads of the shared word.
    pub looks: u64,
    /// The number of these loads, and of additions by its tries, that found DEAD set, and that found ZERO set.
    pub found_dead_times: u64,
    pub found_zero_times: u64,
    /// The number of releases that it has won.
    pub releases: u64,
    /// Whether it has ever found DEAD set, and ZERO set.
    pub found_dead: bool,
    pub found_zero: bool,
}

/// What the control knows.
pub struct ControlView {
    pub standing: ControlStanding,
    /// A kill has begun and the initial reference isn't dropped yet.
    pub killing: bool,
    /// The guarded words, and the front.
    pub words: LinkedList<u64>,
    pub front: u64,
    pub revivals: u64,
    /// The number of revivals of a gate that had reached zero.
    pub zeros_cleared: u64,
    /// The number of releases that the control and the joined passes have won.
    pub releases: u64,
    /// The control knows that ZERO is set.
    pub knows_zero: bool,
    /// The number of passes that haven't joined yet.
    pub passes: u64,
    /// Whether any joined pass had found DEAD set, and ZERO set.
    pub found_dead: bool,
    pub found_zero: bool,
}

/// What one seat of a gate knows. The view of a joined pass is `Spent`.
pub enum View {
    OfControl(ControlView),
    OfPass(PassView),
    Spent,
}
