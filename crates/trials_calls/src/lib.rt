//! Each public call of the crates below, made once, with the types that it is promised to have.
//!
//! A function here has the name of the call that it makes. Its signature spells out the types, its `requires` are the conditions of
//! that call, and a `match` without a wildcard names each result. If a name, a type, a condition or a result changes, this crate
//! doesn't compile, or isn't proved.
#![tactic(auto)]

pub mod cutting;
pub mod gate_control;
pub mod gate_passes;
pub mod machine;
pub mod program;
pub mod queue;
pub mod scripts;
pub mod sectors;
pub mod shown;
pub mod spellings;
pub mod threads;
