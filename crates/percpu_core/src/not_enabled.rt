//! Why an event isn't enabled.
ghost use Rattle.std.specs.Prelude.{◌≡◌};
ghost use Rattle.percpu_core.specs.Numbers.{refusal_number};

use thiserror::Error;

/// Why a step isn't enabled now: the first reason, in the order in which they are tested.
#[derive(Clone, Copy, Debug, PartialEq, Eq, Error)]
pub enum NotEnabled {
    #[error("no such actor")]
    NoSuchActor,
    #[error("no such slot")]
    NoSuchSlot,
    #[error("wrong phase")]
    WrongPhase,
    #[error("nothing held")]
    NothingHeld,
    #[error("mid call")]
    MidCall,
    #[error("held full")]
    HeldFull,
    #[error("worn out")]
    WornOut,
    #[error("no such word")]
    NoSuchWord,
    #[error("bad amount")]
    BadAmount,
    #[error("still held")]
    StillHeld,
}

impl NotEnabled {
    /// The refusal's number, 1 to 10.
    pub fn number(&self) -> u8
        ensures { result ≡ refusal_number self.now }
    {
        match self {
            NotEnabled::NoSuchActor => 1,
            NotEnabled::NoSuchSlot => 2,
            NotEnabled::WrongPhase => 3,
            NotEnabled::NothingHeld => 4,
            NotEnabled::MidCall => 5,
            NotEnabled::HeldFull => 6,
            NotEnabled::WornOut => 7,
            NotEnabled::NoSuchWord => 8,
            NotEnabled::BadAmount => 9,
            NotEnabled::StillHeld => 10,
        }
    }
}
