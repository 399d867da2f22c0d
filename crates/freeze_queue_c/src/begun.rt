//! The result of starting a freeze.

/// A freeze that has started.
#[derive(Clone, Copy, Debug, PartialEq, Eq)]
pub struct Begun {
    /// The number of freezes that aren't thawed yet, including this freeze.
    pub depth: u32,
    /// Whether a look after the freeze found the queue drained. A leave may have returned `Last` too.
    pub drained: bool,
}
