//! The laws that hold whichever steps the seats take, and in whatever order. The functions do nothing: each one's contract is
//! a law.
ghost use Rattle.percpu_core.specs.SeatLaws.{PassStepsKeepLaws, ControlStepsKeepLaws, KnownZeroIsSet, JoiningKeepsLaws, SplittingKeepsLaws, OpeningIsLawful};
ghost use Rattle.percpu_core.specs.StepsFit.{PassStepsFit, ControlStepsFit};
ghost use Rattle.percpu_core.specs.Endings.{RunsLoseNothing};
ghost use Rattle.percpu_core.specs.Interleavings.{LawsAlways, ReleasedAtZero, ReleasedOncePerKill, ReleasedOnceInALife, MovesOfTheCounter, NumbersStaySmall};

/// Each step of a seat that the seat's own view enables keeps the laws of all memory and all views. Splitting off a new
/// pass and taking one in keep them too, and every gate starts with them.
pub fn each_step_keeps_the_laws()
    ensures opening { OpeningIsLawful }
    ensures splitting { SplittingKeepsLaws }
    ensures passes { PassStepsKeepLaws }
    ensures control { ControlStepsKeepLaws }
    ensures known_zero { KnownZeroIsSet }
    ensures joining { JoiningKeepsLaws }
{}

/// Each step of a seat that the seat's own view enables fits the words: the shared value has what the step subtracts
/// and room for what it adds, and the slot that it closes or opens exists.
pub fn each_step_fits()
    ensures passes { PassStepsFit }
    ensures control { ControlStepsFit }
{}

/// Every interleaving: after every run from every start, the laws hold of the memory and of what the seats know, and a
/// world keeps what the machine says.
#[tactic(auto, using(crate::proofs::EveryRun::laws_always))]
pub fn every_interleaving()
    ensures { LawsAlways }
{}

/// A release is won only when the initial reference is out and nothing is held, and at most once for each kill. Any
/// part of a run has at most one release more than it has kills, so there is at most one between two kills.
pub fn a_release_is_the_last()
    ensures at_zero { ReleasedAtZero }
    ensures once { ReleasedOncePerKill }
    ensures in_a_life { ReleasedOnceInALife }
{}

/// Each enabled event is a move of the plain counter, or changes none of its facts.
#[tactic(auto, using(crate::proofs::EveryRun::moves_of_the_counter))]
pub fn events_are_moves()
    ensures { MovesOfTheCounter }
{}

/// Nothing overflows.
#[tactic(auto, using(crate::proofs::EveryRun::numbers_stay_small))]
pub fn numbers_stay_small()
    ensures { NumbersStaySmall }
{}

/// Nothing is lost at the end. Once every pass has joined and the control is at rest: a dead gate has ZERO set; the
/// number of releases is the number of zeros cleared, plus 1 if the gate is dead and less 1 if it started dead; each kill has
/// at most one release; and a gate that started live has refused no try unless it was killed.
#[tactic(auto, using(crate::proofs::Endings::runs_lose_nothing))]
pub fn nothing_is_lost()
    ensures { RunsLoseNothing }
{}
