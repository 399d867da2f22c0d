//! Why a run has no output, or only a part of it.
ghost use Rattle.std.specs.Prelude.{◌≡◌};
ghost use Rattle.blkq_run.specs.Faults.{number_of, status_of};

use blk_workers::RunFault;
use counted_io::{InputFault, WriteFault};
use line_text::{Overlap, ParseFault, ScriptFault};
use thiserror::Error;

/// Why a run has no output, or only a part of it.
#[derive(Clone, Copy, Debug, PartialEq, Eq, Error)]
pub enum Fault {
    /// Memory was refused.
    #[error("memory")]
    Memory,
    /// A thread couldn't be started.
    #[error("thread")]
    Thread,
    /// The reader failed.
    #[error("read")]
    Read,
    /// The writer failed.
    #[error("write")]
    Write {
        /// How many bytes of the output were written before the failure.
        written: u64,
    },
    /// The input isn't a script.
    #[error("{0}")]
    Parse(ParseFault),
    /// Two requests of the script overlap.
    #[error("{0}")]
    Overlap(Overlap),
}

impl Fault {
    /// Returns the fault's number, counted from 1 in order of declaration.
    pub fn number(&self) -> u8
        ensures { result ≡ number_of self.now }
    {
        match self {
            Fault::Memory => 1,
            Fault::Thread => 2,
            Fault::Read => 3,
            Fault::Write { .. } => 4,
            Fault::Parse(_) => 5,
            Fault::Overlap(_) => 6,
        }
    }

    /// Returns the exit status of the program: 2 if the input isn't a script, 3 if requests overlap, otherwise 4.
    pub fn status(&self) -> u8
        ensures { result ≡ status_of self.now }
    {
        match self {
            Fault::Parse(_) => 2,
            Fault::Overlap(_) => 3,
            Fault::Memory | Fault::Thread | Fault::Read | Fault::Write { .. } => 4,
        }
    }
}

impl From<InputFault> for Fault {
    ghost use Rattle.blkq_run.specs.Faults.{fault_of_input};

    ghost from_gives = { λ e fault. fault ≡ fault_of_input e };

    fn from(e: InputFault) -> Self {
        match e {
            InputFault::Memory => Fault::Memory,
            InputFault::Read => Fault::Read,
        }
    }
}

impl From<WriteFault> for Fault {
    ghost use Rattle.blkq_run.specs.declared.fault.Fault.TheVariants.{Write};

    ghost from_gives = { λ e fault. fault ≡ Write e.written };

    fn from(e: WriteFault) -> Self {
        Fault::Write { written: e.written }
    }
}

impl From<ScriptFault> for Fault {
    ghost use Rattle.blkq_run.specs.Faults.{fault_of_script};

    ghost from_gives = { λ e fault. fault ≡ fault_of_script e };

    fn from(e: ScriptFault) -> Self {
        match e {
            ScriptFault::Memory => Fault::Memory,
            ScriptFault::Parse(fault) => Fault::Parse(fault),
            ScriptFault::Overlap(pair) => Fault::Overlap(pair),
        }
    }
}

impl From<RunFault> for Fault {
    ghost use Rattle.blkq_run.specs.Faults.{fault_of_run};

    ghost from_gives = { λ e fault. fault ≡ fault_of_run e };

    fn from(e: RunFault) -> Self {
        match e {
            RunFault::Memory => Fault::Memory,
            RunFault::Thread => Fault::Thread,
        }
    }
}
