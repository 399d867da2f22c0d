//! The names of a run and of its queues.

use std::marker::Brand;

/// A run, by its script and its queue. It names both for the types of what its threads hand to one another.
pub(crate) trait Run {
    ghost use Rattle.script_meaning.specs.Script.{Meant};
    ghost use Rattle.freeze_queue.specs.Queue.{QueueFacts};

    ghost script: { Meant };

    ghost queue: { QueueFacts };
}

// `Brand` is the kit's type for such names: a function is proved for every name, and the proof of a call `f::<Brand, ..>` picks one
// (the `ghosts` of proofs/running/*/Invariants.antt). All three calls do, so nothing depends on the values here. No type in the
// signature of such a call may depend on the names. So the points of a run, which `run_as` takes, have a `J` without a bound.
impl Run for Brand {
    ghost use Rattle.blk_workers.specs.Nobody.{no_script, no_queue};

    ghost script = { no_script };

    ghost queue = { no_queue };
}

/// A queue through which the threads of a run hand something on. It is made once the run has its name, so it has a name of its own.
pub(crate) trait QueueName {
    ghost use Rattle.atomic_table.specs.Seated.{TableId};

    ghost id: { TableId };
}

// As for `Run`.
impl QueueName for Brand {
    ghost use Rattle.run_queues.specs.Nobody.{no_table};

    ghost id = { no_table };
}

/// The queues of requests and of free tags of a run, which are made together.
pub(crate) trait QueueNames {
    ghost use Rattle.atomic_table.specs.Seated.{TableId};

    ghost requests: { TableId };

    ghost free_tags: { TableId };
}

// As for `Run`.
impl QueueNames for Brand {
    ghost use Rattle.run_queues.specs.Nobody.{no_table};

    ghost requests = { no_table };

    ghost free_tags = { no_table };
}
