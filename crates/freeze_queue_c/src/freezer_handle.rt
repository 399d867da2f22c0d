//! The freezer's handle for C.
ghost use Rattle.std.specs.Prelude.{◌≡◌, Some, None, is_some, IsSome, IfOk, IfErr};
ghost use Rattle.c_answers.specs.declared.misuse.Misuse.TheVariants.{Open, Memory};
ghost use Rattle.freeze_queue_c.specs.FreezerHolding.{opened};

use crate::freezer_held::FreezerHeld;
use crate::open_freezer::OpenFreezer;
use c_answers::Misuse;
use std::alloc::Global;
use std::mem;

/// The freezer's handle: for C a `bool` and a pointer, all zero if it is closed.
#[derive(Drop)]
#[repr(C)]
pub struct FreezerHandle {
    is_open: bool,
    held: FreezerHeld,
    alloc: Global,
    ghost told: { is_open ≡ is_some held.freezer },
}

impl FreezerHandle {
    /// A closed handle. (C makes its own, all zero.)
    #[cfg(test)]
    pub fn new(alloc: Global) -> FreezerHandle
        ensures { result.held.freezer ≡ None }
    {
        FreezerHandle {
            is_open: false,
            held: FreezerHeld::nothing(alloc),
            alloc,
        }
    }

    /// Takes the box of an open handle, which is closed afterwards.
    pub fn take(&mut self) -> Option<Box<OpenFreezer>>
        ensures freezer { opened result ≡ self.old.held.freezer }
        ensures closed { self.new.held.freezer ≡ None }
    {
        if !self.is_open {
            return None;
        }
        self.is_open = false;
        let nothing = FreezerHeld::nothing(self.alloc);
        Some(mem::replace(&mut self.held, nothing).into_box())
    }

    /// Returns the allocator of a closed handle. Refuses with Open.
    pub fn closed(&self) -> Result<Global, Misuse>
        ensures closed { IfOk result (λ _. self.now.held.freezer ≡ None) }
        ensures open { IfErr result (λ why. (why ≡ Open) × IsSome self.now.held.freezer) }
    {
        if self.is_open {
            Err(Misuse::Open)
        } else {
            Ok(self.alloc)
        }
    }

    /// Returns the allocator of a handle, open or closed.
    pub fn allocator(&self) -> Global {
        self.alloc
    }

    /// Opens a closed handle, in a new box. Refuses with Memory.
    pub fn open(&mut self, freezer: OpenFreezer) -> Result<(), Misuse>
        requires closed { self.old.held.freezer ≡ None }
        ensures open { IfOk result (λ _. self.new.held.freezer ≡ Some freezer) }
        ensures memory { IfErr result (λ why. (why ≡ Memory) × (self.new.held.freezer ≡ None)) }
    {
        match Box::new(self.alloc, freezer) {
            Ok(freezer) => {
                self.put_back(freezer);
                Ok(())
            }
            Err(_) => Err(Misuse::Memory),
        }
    }

    /// Opens a closed handle.
    pub fn put_back(&mut self, freezer: Box<OpenFreezer>)
        requires closed { self.old.held.freezer ≡ None }
        ensures { self.new.held.freezer ≡ Some freezer.value }
    {
        *self = FreezerHandle {
            is_open: true,
            held: FreezerHeld::of(freezer),
            alloc: self.alloc,
        };
    }
}
