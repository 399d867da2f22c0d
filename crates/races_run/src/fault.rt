//! The reasons for which a race isn't answered.
ghost use Rattle.std.specs.Prelude.{◌≡◌};
ghost use Rattle.races_run.specs.Faults.{number_of, status_of};

use counted_io::{InputFault, WriteFault};
use line_text::ParseFault;
use percpu_core::Memory;
use race_outcomes::SearchFault;
use thiserror::Error;

/// Why a race isn't answered, or not completely.
#[derive(Clone, Copy, Debug, PartialEq, Eq, Error)]
pub enum Fault {
    /// Memory was refused.
    #[error("memory")]
    Memory,
    /// The reader failed.
    #[error("read")]
    Read,
    /// The writer failed.
    #[error("write")]
    Write {
        /// The number of bytes of the answer that were written.
        written: u64,
    },
    /// The input is no race.
    #[error("{0}")]
    Parse(ParseFault),
    /// The search would keep more states than the bound on them.
    #[error("states")]
    States,
}

impl Fault {
    /// The fault's number, from 1 in the order of declaration.
    pub fn number(&self) -> u8
        ensures { result ≡ number_of self.now }
    {
        match self {
            Fault::Memory => 1,
            Fault::Read => 2,
            Fault::Write { .. } => 3,
            Fault::Parse(_) => 4,
            Fault::States => 5,
        }
    }

    /// The program's exit status: 2 if the input is no race, otherwise 4.
    pub fn status(&self) -> u8
        ensures { result ≡ status_of self.now }
    {
        match self {
            Fault::Parse(_) => 2,
            Fault::Memory | Fault::Read | Fault::Write { .. } | Fault::States => 4,
        }
    }
}

impl From<InputFault> for Fault {
    ghost use Rattle.races_run.specs.Faults.{fault_of_input};

    ghost from_gives = { λ e fault. fault ≡ fault_of_input e };

    fn from(e: InputFault) -> Self {
        match e {
            InputFault::Memory => Fault::Memory,
            InputFault::Read => Fault::Read,
        }
    }
}

impl From<WriteFault> for Fault {
    ghost use Rattle.races_run.specs.declared.fault.Fault.TheVariants.{Write};

    ghost from_gives = { λ e fault. fault ≡ Write e.written };

    fn from(e: WriteFault) -> Self {
        Fault::Write { written: e.written }
    }
}

impl From<Memory> for Fault {
    ghost use Rattle.races_run.specs.declared.fault.Fault.TheVariants as fault;

    ghost from_gives = { λ _ it. it ≡ fault.Memory };

    fn from(_refused: Memory) -> Self {
        Fault::Memory
    }
}

impl From<SearchFault> for Fault {
    ghost use Rattle.races_run.specs.Faults.{fault_of_search};

    ghost from_gives = { λ e fault. fault ≡ fault_of_search e };

    fn from(e: SearchFault) -> Self {
        match e {
            SearchFault::Memory => Fault::Memory,
            SearchFault::States => Fault::States,
        }
    }
}
