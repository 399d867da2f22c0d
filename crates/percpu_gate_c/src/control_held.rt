//! The box of a handle, behind a pointer that C may keep.
ghost use Rattle.std.specs.Prelude.{◌≡◌, Some, None, Option};
ghost use Rattle.percpu_gate_c.specs.ControlHolding.{control_owns, control_coded};
ghost use Rattle.percpu_gate_c.specs.declared.open_control.OpenControl.{OpenControl};

use crate::open_control::OpenControl;
use loose_box::Loose;
use std::alloc::Global;
use std::marker::Model;
use std::ptr;

/// A box of a control, or nothing. The pointer's type hides the control's, which C may not know. Dropping it doesn't
/// free the box.
#[derive(Drop)]
#[repr(C)]
pub struct ControlHeld {
    at: *mut u8,
    alloc: Global,
    pub ghost control: { Option OpenControl } by { control_coded },
}

impl Model for ControlHeld {
    ghost also_owns = { λ h. control_owns h.alloc h.at h.control };
}

impl ControlHeld {
    /// Returns nothing.
    pub(crate) fn nothing(alloc: Global) -> ControlHeld
        ensures { result.control ≡ None }
    {
        let at = ptr::null_mut();
        ControlHeld { at, alloc }
    }

    /// Holds this box.
    pub(crate) fn of(control: Box<OpenControl>) -> ControlHeld
        ensures { result.control ≡ Some control.value }
    {
        ControlHeld::of_loose(Loose::of(control))
    }

    /// Returns the box.
    pub(crate) fn into_box(self) -> Box<OpenControl>
        requires open { (s : OpenControl) × (self.control ≡ Some s) }
        ensures { self.control ≡ Some result.value }
    {
        self.into_loose().into_box()
    }

    fn of_loose(loose: Loose<OpenControl, Global>) -> ControlHeld
        ensures { result.control ≡ Some loose.value }
    {
        let Loose { at, alloc } = loose;
        ControlHeld {
            at: at as *mut u8,
            alloc,
        }
    }

    fn into_loose(self) -> Loose<OpenControl, Global>
        requires open { (s : OpenControl) × (self.control ≡ Some s) }
        ensures { self.control ≡ Some result.value }
    {
        let ControlHeld { at, alloc } = self;
        Loose {
            at: at as *mut OpenControl,
            alloc,
        }
    }
}

unsafe impl Send for ControlHeld {}
