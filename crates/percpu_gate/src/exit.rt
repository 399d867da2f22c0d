//! The end of a gate.
ghost use Rattle.std.specs.Prelude.{◌≡◌};
ghost use Rattle.percpu_gate.specs.ControlCalls.{exit_number};

use crate::control::Control;
use crate::gate::Gate;
use thiserror::Error;

/// Why a gate may not end.
#[derive(Clone, Copy, Debug, PartialEq, Eq, Error)]
pub enum ExitWhy {
    /// A kill that `mark_dead` began hasn't reached `drop_base`.
    #[error("mid switch")]
    MidSwitch,
    /// This many passes aren't retired.
    #[error("{0} passes out")]
    PassesOut(u32),
}

impl ExitWhy {
    /// The refusal's number: 4 or 6.
    pub fn number(&self) -> u8
        ensures { result ≡ exit_number self.now }
    {
        match self {
            ExitWhy::MidSwitch => 4,
            ExitWhy::PassesOut(_) => 6,
        }
    }
}

/// A gate that may not end, with its control, both unchanged.
#[derive(Drop)]
pub struct ExitFault<const W: usize> {
    pub why: ExitWhy,
    pub gate: Gate<W>,
    pub control: Control<W>,
}

impl<const W: usize> ExitFault<W> {
    /// The refusal's number: 4 or 6.
    pub fn number(&self) -> u8
        ensures { result ≡ exit_number self.now.why }
    {
        self.why.number()
    }
}

/// The last facts of a gate that has ended.
#[derive(Clone, Copy, Debug, PartialEq, Eq)]
pub struct Final<const W: usize> {
    /// Whether it was dead.
    pub dead: bool,
    pub kills: u64,
    /// The number of releases that all its seats have won.
    pub releases: u64,
    /// The guarded words.
    pub words: [u64; W],
}
