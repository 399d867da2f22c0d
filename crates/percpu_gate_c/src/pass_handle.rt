//! A pass's handle for C.
ghost use Rattle.std.specs.Prelude.{◌≡◌, Some, None, is_some, IsSome, IfOk, IfErr};
ghost use Rattle.c_answers.specs.declared.misuse.Misuse.TheVariants.{Open};
ghost use Rattle.percpu_gate_c.specs.PassHolding.{opened};

use crate::open_pass::OpenPass;
use crate::pass_held::PassHeld;
use c_answers::Misuse;
use std::alloc::Global;
use std::mem;

/// A pass's handle: for C a `bool` and a pointer, all zero if it is closed.
#[derive(Drop)]
#[repr(C)]
pub struct PassHandle {
    is_open: bool,
    held: PassHeld,
    alloc: Global,
    ghost told: { is_open ≡ is_some held.pass },
}

impl PassHandle {
    /// A closed handle. (C makes its own, all zero.)
    #[cfg(test)]
    pub fn new(alloc: Global) -> PassHandle
        ensures { result.held.pass ≡ None }
    {
        PassHandle {
            is_open: false,
            held: PassHeld::nothing(alloc),
            alloc,
        }
    }

    /// Takes the box of an open handle, which is closed afterwards.
    pub fn take(&mut self) -> Option<Box<OpenPass>>
        ensures pass { opened result ≡ self.old.held.pass }
        ensures closed { self.new.held.pass ≡ None }
    {
        if !self.is_open {
            return None;
        }
        self.is_open = false;
        let nothing = PassHeld::nothing(self.alloc);
        Some(mem::replace(&mut self.held, nothing).into_box())
    }

    /// The allocator of a closed handle. Refuses with Open.
    pub fn closed(&self) -> Result<Global, Misuse>
        ensures closed { IfOk result (λ _. self.now.held.pass ≡ None) }
        ensures open { IfErr result (λ why. (why ≡ Open) × IsSome self.now.held.pass) }
    {
        if self.is_open {
            Err(Misuse::Open)
        } else {
            Ok(self.alloc)
        }
    }

    /// Opens a closed handle.
    pub fn put_back(&mut self, pass: Box<OpenPass>)
        requires closed { self.old.held.pass ≡ None }
        ensures { self.new.held.pass ≡ Some pass.value }
    {
        // Field by field, since the bytes between them needn't be stored: a store delays the exchange that comes next.
        self.held = PassHeld::of(pass);
        self.is_open = true;
    }
}
