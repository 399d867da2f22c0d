//! The box of a handle, behind a pointer that C may keep.
ghost use Rattle.std.specs.Prelude.{◌≡◌, Some, None, Option};
ghost use Rattle.freeze_queue_c.specs.TagHolding.{tag_owns, tag_coded};
ghost use Rattle.freeze_queue_c.specs.declared.open_tag.OpenTag.{OpenTag};

use crate::open_tag::OpenTag;
use loose_box::Loose;
use std::alloc::Global;
use std::marker::Model;
use std::ptr;

/// A box of a tag, or nothing. The pointer's type hides the tag's, which C may not know. Dropping it doesn't free the
/// box.
#[derive(Drop)]
#[repr(C)]
pub struct TagHeld {
    at: *mut u8,
    alloc: Global,
    pub ghost tag: { Option OpenTag } by { tag_coded },
}

impl Model for TagHeld {
    ghost also_owns = { λ h. tag_owns h.alloc h.at h.tag };
}

impl TagHeld {
    /// Returns nothing.
    pub(crate) fn nothing(alloc: Global) -> TagHeld
        ensures { result.tag ≡ None }
    {
        let at = ptr::null_mut();
        TagHeld { at, alloc }
    }

    /// Holds this box.
    pub(crate) fn of(tag: Box<OpenTag>) -> TagHeld
        ensures { result.tag ≡ Some tag.value }
    {
        TagHeld::of_loose(Loose::of(tag))
    }

    /// Returns the box.
    pub(crate) fn into_box(self) -> Box<OpenTag>
        requires open { (s : OpenTag) × (self.tag ≡ Some s) }
        ensures { self.tag ≡ Some result.value }
    {
        self.into_loose().into_box()
    }

    fn of_loose(loose: Loose<OpenTag, Global>) -> TagHeld
        ensures { result.tag ≡ Some loose.value }
    {
        let Loose { at, alloc } = loose;
        TagHeld {
            at: at as *mut u8,
            alloc,
        }
    }

    fn into_loose(self) -> Loose<OpenTag, Global>
        requires open { (s : OpenTag) × (self.tag ≡ Some s) }
        ensures { self.tag ≡ Some result.value }
    {
        let TagHeld { at, alloc } = self;
        Loose {
            at: at as *mut OpenTag,
            alloc,
        }
    }
}

unsafe impl Send for TagHeld {}
