//! A parked pass.

use crate::limit_words::LIMIT_WORDS;
use bias_lanes::Reference;
use percpu_gate::{Gate, Pass};

/// The pass of a tag that is parked in its lane. It still has its reference, unless the freezer has dropped it.
#[derive(Drop)]
pub struct ParkedPass {
    pub(crate) pass: Pass<LIMIT_WORDS>,
    /// The slot on which the freezer leaves with it.
    pub(crate) slot: u32,
}

impl Reference<Gate<LIMIT_WORDS>> for ParkedPass {
    ghost use Rattle.queue_core.specs.Biased.{Fits};

    ghost fits = { Fits };
}
