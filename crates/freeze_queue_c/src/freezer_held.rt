//! The box of a handle, behind a pointer that C may keep.
ghost use Rattle.std.specs.Prelude.{◌≡◌, Some, None, Option};
ghost use Rattle.freeze_queue_c.specs.FreezerHolding.{freezer_owns, freezer_coded};
ghost use Rattle.freeze_queue_c.specs.declared.open_freezer.OpenFreezer.{OpenFreezer};

use crate::open_freezer::OpenFreezer;
use loose_box::Loose;
use std::alloc::Global;
use std::marker::Model;
use std::ptr;

/// A box of a freezer, or nothing. The pointer's type hides the freezer's, which C may not know. Dropping it doesn't
/// free the box.
#[derive(Drop)]
#[repr(C)]
pub struct FreezerHeld {
    at: *mut u8,
    alloc: Global,
    pub ghost freezer: { Option OpenFreezer } by { freezer_coded },
}

impl Model for FreezerHeld {
    ghost also_owns = { λ h. freezer_owns h.alloc h.at h.freezer };
}

impl FreezerHeld {
    /// Returns nothing.
    pub(crate) fn nothing(alloc: Global) -> FreezerHeld
        ensures { result.freezer ≡ None }
    {
        let at = ptr::null_mut();
        FreezerHeld { at, alloc }
    }

    /// Holds this box.
    pub(crate) fn of(freezer: Box<OpenFreezer>) -> FreezerHeld
        ensures { result.freezer ≡ Some freezer.value }
    {
        FreezerHeld::of_loose(Loose::of(freezer))
    }

    /// Returns the box.
    pub(crate) fn into_box(self) -> Box<OpenFreezer>
        requires open { (s : OpenFreezer) × (self.freezer ≡ Some s) }
        ensures { self.freezer ≡ Some result.value }
    {
        self.into_loose().into_box()
    }

    fn of_loose(loose: Loose<OpenFreezer, Global>) -> FreezerHeld
        ensures { result.freezer ≡ Some loose.value }
    {
        let Loose { at, alloc } = loose;
        FreezerHeld {
            at: at as *mut u8,
            alloc,
        }
    }

    fn into_loose(self) -> Loose<OpenFreezer, Global>
        requires open { (s : OpenFreezer) × (self.freezer ≡ Some s) }
        ensures { self.freezer ≡ Some result.value }
    {
        let FreezerHeld { at, alloc } = self;
        Loose {
            at: at as *mut OpenFreezer,
            alloc,
        }
    }
}

unsafe impl Send for FreezerHeld {}
