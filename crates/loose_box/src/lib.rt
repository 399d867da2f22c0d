//! A box taken apart, with its pointer visible, and put together again. The libraries for C keep such boxes behind a
//! pointer that C may have.
#![tactic(auto)]

mod loose;

pub use loose::Loose;
