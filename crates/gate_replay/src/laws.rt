//! Laws of replays, apart from the code.
ghost use Rattle.gate_replay.specs.Laws.{EndedReplaysLoseNothing, StuckRunsAreShown, WholeRunsAreShown};

/// What a replay shows is a run of the gate's machine: the replies to the steps that it takes, and then the state that all of them
/// leave, or the first step that isn't enabled. If every pass has joined at the end and the control is at rest, nothing is lost: a
/// dead gate is at zero, each of its releases was reported, and a gate that started live refused nobody without a kill. The
/// contract is the law; the function does nothing.
#[tactic(auto, using(crate::proofs::ShownRuns::stuck_runs, crate::proofs::ShownRuns::whole_runs, crate::proofs::ShownRuns::ended_replays))]
pub fn replays_are_runs()
    ensures whole { WholeRunsAreShown }
    ensures stuck { StuckRunsAreShown }
    ensures ended { EndedReplaysLoseNothing }
{}
