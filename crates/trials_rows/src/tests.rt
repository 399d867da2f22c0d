//! Callers that reason from the contracts of a gate and of a queue, and a row for each library of a gate, a queue, a disk and a
//! script.
mod fixture;
mod gate_caller;
mod handed;
mod queue_caller;
mod rows;
