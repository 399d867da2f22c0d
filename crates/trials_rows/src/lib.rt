//! The tests in which a proof has a part: callers that reason from the contracts of a gate and of a queue, and a row of each
//! library. They use only public calls.
//!
//! The rows of programs and of calls are in tests/rows, and the other tests of libraries in rust/trials/tests, which tests the
//! plain Rust.
#![tactic(auto)]

#[cfg(test)]
mod tests;
