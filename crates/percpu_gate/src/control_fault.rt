//! Refusals of the control.
ghost use Rattle.std.specs.Prelude.{◌≡◌};
ghost use Rattle.percpu_gate.specs.ControlCalls.{fault_number};

use thiserror::Error;

/// Why the control refuses a call. The call has changed nothing.
#[derive(Clone, Copy, Debug, PartialEq, Eq, Error)]
pub enum ControlFault {
    /// The gate is killed already. Linux: a second kill warns (`percpu_ref_kill_and_confirm`).
    #[error("already dead")]
    AlreadyDead,
    /// The gate is live.
    #[error("not dead")]
    NotDead,
    /// The count hasn't reached zero.
    #[error("not zero")]
    NotZero,
    /// A kill that `mark_dead` began hasn't reached `drop_base`.
    #[error("mid switch")]
    MidSwitch,
    /// The gate was killed 2^40 times.
    #[error("worn out")]
    WornOut,
}

impl ControlFault {
    /// The refusal's number, 1 to 5.
    pub fn number(&self) -> u8
        ensures { result ≡ fault_number self.now }
    {
        match self {
            ControlFault::AlreadyDead => 1,
            ControlFault::NotDead => 2,
            ControlFault::NotZero => 3,
            ControlFault::MidSwitch => 4,
            ControlFault::WornOut => 5,
        }
    }
}
