//! The box of a handle, behind a pointer that C may keep.
ghost use Rattle.std.specs.Prelude.{◌≡◌, Some, None, Option};
ghost use Rattle.percpu_gate_c.specs.PassHolding.{pass_owns, pass_coded};
ghost use Rattle.percpu_gate_c.specs.declared.open_pass.OpenPass.{OpenPass};

use crate::open_pass::OpenPass;
use loose_box::Loose;
use std::alloc::Global;
use std::marker::Model;
use std::ptr;

/// A box of a pass, or nothing. The pointer's type hides the pass's, which C may not know. Dropping it doesn't free the
/// box.
#[derive(Drop)]
#[repr(C)]
pub struct PassHeld {
    at: *mut u8,
    alloc: Global,
    pub ghost pass: { Option OpenPass } by { pass_coded },
}

impl Model for PassHeld {
    ghost also_owns = { λ h. pass_owns h.alloc h.at h.pass };
}

impl PassHeld {
    /// Returns nothing.
    pub(crate) fn nothing(alloc: Global) -> PassHeld
        ensures { result.pass ≡ None }
    {
        let at = ptr::null_mut();
        PassHeld { at, alloc }
    }

    /// Holds this box.
    pub(crate) fn of(pass: Box<OpenPass>) -> PassHeld
        ensures { result.pass ≡ Some pass.value }
    {
        PassHeld::of_loose(Loose::of(pass))
    }

    /// Returns the box.
    pub(crate) fn into_box(self) -> Box<OpenPass>
        requires open { (s : OpenPass) × (self.pass ≡ Some s) }
        ensures { self.pass ≡ Some result.value }
    {
        self.into_loose().into_box()
    }

    fn of_loose(loose: Loose<OpenPass, Global>) -> PassHeld
        ensures { result.pass ≡ Some loose.value }
    {
        let Loose { at, alloc } = loose;
        PassHeld {
            at: at as *mut u8,
            alloc,
        }
    }

    fn into_loose(self) -> Loose<OpenPass, Global>
        requires open { (s : OpenPass) × (self.pass ≡ Some s) }
        ensures { self.pass ≡ Some result.value }
    {
        let PassHeld { at, alloc } = self;
        Loose {
            at: at as *mut OpenPass,
            alloc,
        }
    }
}

unsafe impl Send for PassHeld {}
