//! The control's handle for C.
ghost use Rattle.std.specs.Prelude.{◌≡◌, Some, None, is_some, IsSome, IfOk, IfErr};
ghost use Rattle.c_answers.specs.declared.misuse.Misuse.TheVariants.{Open, Memory};
ghost use Rattle.percpu_gate_c.specs.ControlHolding.{opened};

use crate::control_held::ControlHeld;
use crate::open_control::OpenControl;
use c_answers::Misuse;
use std::alloc::Global;
use std::mem;

/// The control's handle: for C a `bool` and a pointer, all zero if it is closed.
#[derive(Drop)]
#[repr(C)]
pub struct ControlHandle {
    is_open: bool,
    held: ControlHeld,
    alloc: Global,
    ghost told: { is_open ≡ is_some held.control },
}

impl ControlHandle {
    /// A closed handle. (C makes its own, all zero.)
    #[cfg(test)]
    pub fn new(alloc: Global) -> ControlHandle
        ensures { result.held.control ≡ None }
    {
        ControlHandle {
            is_open: false,
            held: ControlHeld::nothing(alloc),
            alloc,
        }
    }

    /// Takes the box of an open handle, which is closed afterwards.
    pub fn take(&mut self) -> Option<Box<OpenControl>>
        ensures control { opened result ≡ self.old.held.control }
        ensures closed { self.new.held.control ≡ None }
    {
        if !self.is_open {
            return None;
        }
        self.is_open = false;
        let nothing = ControlHeld::nothing(self.alloc);
        Some(mem::replace(&mut self.held, nothing).into_box())
    }

    /// The allocator of a closed handle. Refuses with Open.
    pub fn closed(&self) -> Result<Global, Misuse>
        ensures closed { IfOk result (λ _. self.now.held.control ≡ None) }
        ensures open { IfErr result (λ why. (why ≡ Open) × IsSome self.now.held.control) }
    {
        if self.is_open {
            Err(Misuse::Open)
        } else {
            Ok(self.alloc)
        }
    }

    /// Opens a closed handle, in a new box. Refuses with Memory.
    pub fn open(&mut self, control: OpenControl) -> Result<(), Misuse>
        requires closed { self.old.held.control ≡ None }
        ensures open { IfOk result (λ _. self.new.held.control ≡ Some control) }
        ensures memory { IfErr result (λ why. (why ≡ Memory) × (self.new.held.control ≡ None)) }
    {
        match Box::new(self.alloc, control) {
            Ok(control) => {
                self.put_back(control);
                Ok(())
            }
            Err(_) => Err(Misuse::Memory),
        }
    }

    /// Opens a closed handle.
    pub fn put_back(&mut self, control: Box<OpenControl>)
        requires closed { self.old.held.control ≡ None }
        ensures { self.new.held.control ≡ Some control.value }
    {
        *self = ControlHandle {
            is_open: true,
            held: ControlHeld::of(control),
            alloc: self.alloc,
        };
    }
}
