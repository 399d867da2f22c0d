//! The events of a gate: each is one atomic step of one seat.
use crate::control_event::ControlEvent;
use crate::pass_event::PassEvent;

/// One atomic step, by the pass of this number or by the control.
#[derive(Clone, Copy, Debug, PartialEq, Eq)]
pub enum Event {
    Pass(u32, PassEvent),
    Control(ControlEvent),
}
