//! Misuse by a C program.
ghost use Rattle.std.specs.Prelude.{◌≡◌};
ghost use Rattle.c_answers.specs.Numbers.{misuse_number};

use thiserror::Error;

/// Why a call is refused before it reaches the gate or the queue. The call has changed nothing.
#[derive(Clone, Copy, Debug, PartialEq, Eq, Error)]
pub enum Misuse {
    #[error("the handle is closed")]
    Closed,
    #[error("the handle is open")]
    Open,
    #[error("no such slot")]
    Slot,
    #[error("too few or too many")]
    Size,
    #[error("no memory")]
    Memory,
    #[error("the gate or the queue is in use")]
    InUse,
    #[error("the pass or the tag is of another gate or queue")]
    Foreign,
    #[error("no pass or tag waits")]
    NoneWaits,
    #[error("the tag has entered")]
    Entered,
    #[error("the tag hasn't entered")]
    NotEntered,
    #[error("no such mode")]
    Mode,
    #[error("no such range")]
    Range,
    #[error("the pass holds no more")]
    HeldFull,
    #[error("the pass doesn't hold as many")]
    NotHeld,
    #[error("the pass holds references")]
    StillHeld,
    #[error("none is asked for")]
    Amount,
    #[error("no such word")]
    Word,
    #[error("not the next step")]
    Step,
}

impl Misuse {
    /// The number that C gets: 32 to 39 for what both libraries refuse, 48 to 51 for the queue alone, 64 to 69 for the
    /// gate alone.
    pub fn number(&self) -> u32
        ensures { result ≡ misuse_number self.now }
    {
        match self {
            Misuse::Closed => 32,
            Misuse::Open => 33,
            Misuse::Slot => 34,
            Misuse::Size => 35,
            Misuse::Memory => 36,
            Misuse::InUse => 37,
            Misuse::Foreign => 38,
            Misuse::NoneWaits => 39,
            Misuse::Entered => 48,
            Misuse::NotEntered => 49,
            Misuse::Mode => 50,
            Misuse::Range => 51,
            Misuse::HeldFull => 64,
            Misuse::NotHeld => 65,
            Misuse::StillHeld => 66,
            Misuse::Amount => 67,
            Misuse::Word => 68,
            Misuse::Step => 69,
        }
    }
}
