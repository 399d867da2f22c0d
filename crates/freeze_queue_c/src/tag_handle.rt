//! A tag's handle for C.
ghost use Rattle.std.specs.Prelude.{◌≡◌, Some, None, is_some, IsSome, IfOk, IfErr};
ghost use Rattle.c_answers.specs.declared.misuse.Misuse.TheVariants.{Open};
ghost use Rattle.freeze_queue_c.specs.TagHolding.{opened};

use crate::open_tag::OpenTag;
use crate::tag_held::TagHeld;
use c_answers::Misuse;
use std::alloc::Global;
use std::mem;

/// A tag's handle: for C a `bool` and a pointer, all zero if it is closed.
#[derive(Drop)]
#[repr(C)]
pub struct TagHandle {
    is_open: bool,
    held: TagHeld,
    alloc: Global,
    ghost told: { is_open ≡ is_some held.tag },
}

impl TagHandle {
    /// A closed handle. (C makes its own, all zero.)
    #[cfg(test)]
    pub fn new(alloc: Global) -> TagHandle
        ensures { result.held.tag ≡ None }
    {
        TagHandle {
            is_open: false,
            held: TagHeld::nothing(alloc),
            alloc,
        }
    }

    /// Takes the box of an open handle, which is closed afterwards.
    pub fn take(&mut self) -> Option<Box<OpenTag>>
        ensures tag { opened result ≡ self.old.held.tag }
        ensures closed { self.new.held.tag ≡ None }
    {
        if !self.is_open {
            return None;
        }
        self.is_open = false;
        let nothing = TagHeld::nothing(self.alloc);
        Some(mem::replace(&mut self.held, nothing).into_box())
    }

    /// Returns the allocator of a closed handle. Refuses with Open.
    pub fn closed(&self) -> Result<Global, Misuse>
        ensures closed { IfOk result (λ _. self.now.held.tag ≡ None) }
        ensures open { IfErr result (λ why. (why ≡ Open) × IsSome self.now.held.tag) }
    {
        if self.is_open {
            Err(Misuse::Open)
        } else {
            Ok(self.alloc)
        }
    }

    /// Opens a closed handle.
    pub fn put_back(&mut self, tag: Box<OpenTag>)
        requires closed { self.old.held.tag ≡ None }
        ensures { self.new.held.tag ≡ Some tag.value }
    {
        // Field by field: between the two are bytes of C's (lent_slots).
        self.held = TagHeld::of(tag);
        self.is_open = true;
    }
}
