//! Handles that are freed: the gate stays as it was, for each handle that is left.
use super::{NUMBER, WORDS};
use crate::control_calls::{
    percpu_gate_control_is_zero, percpu_gate_kill, percpu_gate_release_count, percpu_gate_resurrect,
};
use crate::control_handle::ControlHandle;
use crate::kill_steps::{
    percpu_gate_close_next, percpu_gate_collect, percpu_gate_confirm, percpu_gate_mark_dead,
};
use crate::life::{
    percpu_gate_free_control, percpu_gate_free_pass, percpu_gate_new_numbered,
    percpu_gate_next_pass,
};
use crate::pass_calls::{
    percpu_gate_front, percpu_gate_get, percpu_gate_is_dying, percpu_gate_is_zero, percpu_gate_put,
    percpu_gate_try_get, percpu_gate_try_get_live,
};
use crate::pass_handle::PassHandle;
use std::alloc::Global;
use std::process::Abort;

/// Returns a control and two passes of a new gate with two slots.
fn of_two_passes(alloc: Global) -> (ControlHandle, PassHandle, PassHandle) {
    let mut control = ControlHandle::new(alloc);
    let mut first = PassHandle::new(alloc);
    let mut second = PassHandle::new(alloc);
    percpu_gate_new_numbered(&mut control, &NUMBER, 2, 2, 0, &WORDS);
    percpu_gate_next_pass(&mut control, &mut first);
    percpu_gate_next_pass(&mut control, &mut second);
    (control, first, second)
}

/// A pass takes this many references on a slot. Returns whether all calls succeed.
fn holds(pass: &mut PassHandle, slot: u32, n: u32) -> bool {
    n == 0
        || (percpu_gate_try_get_live(pass, slot) == 0
            && (n == 1 || percpu_gate_get(pass, slot, n - 1) == 0))
}

/// A freed pass leaves the count of its slot, and the gate live.
#[test]
fn a_freed_pass_leaves_its_slot(rt: HostRuntime) {
    for (held, delta) in [(0u32, 0i64), (1, 1), (7, 7), (65_535, 65_535)] {
        let (mut control, mut freed, mut left) = of_two_passes(rt.alloc());
        let held_by_both = holds(&mut freed, 1, held) && holds(&mut left, 0, 2);
        assert!(rt; held_by_both);
        percpu_gate_free_pass(&mut freed);
        let is_dying = percpu_gate_is_dying(&mut left);
        assert!(rt; !is_dying);
        if let Some(mut open) = control.take() {
            let begun = open.mark_dead();
            assert!(rt; matches!(begun, Ok(Ok(2))));
            let on_first = open.close_next();
            assert!(rt; matches!(on_first, Ok(2)));
            let on_second = open.close_next();
            assert!(rt; matches!(on_second, Ok(found) if found == delta), "{held}");
            control.put_back(open);
        }
        percpu_gate_free_pass(&mut left);
        percpu_gate_free_control(&mut control);
    }
}

/// A freed pass of a dead gate leaves the count of the shared word: the last put is the last only if the freed pass held
/// nothing.
#[test]
fn a_freed_pass_leaves_the_shared_word(rt: HostRuntime) {
    for (held, last) in [(0u32, 1u32), (1, 0), (65_535, 0)] {
        let (mut control, mut freed, mut left) = of_two_passes(rt.alloc());
        let held_by_both = holds(&mut freed, 1, held) && holds(&mut left, 0, 2);
        assert!(rt; held_by_both);
        assert!(rt; percpu_gate_kill(&mut control) == 0);
        percpu_gate_free_pass(&mut freed);
        assert!(rt; !percpu_gate_control_is_zero(&mut control));
        let put = percpu_gate_put(&mut left, 0, 2);
        assert!(rt; put == last, "{held}");
        let is_zero = percpu_gate_is_zero(&mut left);
        assert!(rt; is_zero == (held == 0));
        let mut releases = 7;
        percpu_gate_release_count(&mut control, &mut releases);
        assert!(rt; releases == 0);
        percpu_gate_free_pass(&mut left);
        percpu_gate_free_control(&mut control);
    }
}

/// A freed pass of a gate at zero leaves it there.
#[test]
fn a_freed_pass_leaves_zero(rt: HostRuntime) {
    let (mut control, mut freed, mut left) = of_two_passes(rt.alloc());
    assert!(rt; percpu_gate_kill(&mut control) == 1);
    percpu_gate_free_pass(&mut freed);
    assert!(rt; percpu_gate_is_zero(&mut left));
    assert!(rt; percpu_gate_try_get(&mut left, 0) == 2);
    assert!(rt; percpu_gate_resurrect(&mut control) == 4);
    percpu_gate_free_pass(&mut left);
    percpu_gate_free_control(&mut control);
}

/// A control that is freed while its kill closes the slots leaves the second one open.
#[test]
fn a_freed_control_closes_no_slot(rt: HostRuntime) {
    let (mut control, mut first, mut second) = of_two_passes(rt.alloc());
    let mut slots = 7;
    let mut front = 7;
    assert!(rt; percpu_gate_mark_dead(&mut control, &mut slots) == 0);
    assert!(rt; percpu_gate_close_next(&mut control) == 0);
    percpu_gate_free_control(&mut control);
    assert!(rt; percpu_gate_is_dying(&mut first));
    assert!(rt; percpu_gate_try_get_live(&mut first, 0) == 2);
    assert!(rt; percpu_gate_try_get_live(&mut first, 1) == 0);
    assert!(rt; percpu_gate_put(&mut first, 1, 1) == 0);
    assert!(rt; percpu_gate_front(&mut first, &mut front) == 0);
    assert!(rt; front == 0);
    percpu_gate_free_pass(&mut first);
    percpu_gate_free_pass(&mut second);
}

/// A control that is freed once its kill is confirmed keeps the initial reference: the gate isn't at zero.
#[test]
fn a_freed_control_drops_nothing(rt: HostRuntime) {
    let (mut control, mut first, mut second) = of_two_passes(rt.alloc());
    let mut slots = 7;
    let mut front = 7;
    assert!(rt; percpu_gate_mark_dead(&mut control, &mut slots) == 0);
    assert!(rt; percpu_gate_close_next(&mut control) == 0);
    assert!(rt; percpu_gate_close_next(&mut control) == 0);
    assert!(rt; percpu_gate_collect(&mut control) == 0);
    assert!(rt; percpu_gate_confirm(&mut control, &mut front) == 0);
    percpu_gate_free_control(&mut control);
    assert!(rt; !percpu_gate_is_zero(&mut first));
    assert!(rt; percpu_gate_try_get(&mut first, 0) == 0);
    assert!(rt; percpu_gate_put(&mut first, 1, 1) == 0);
    assert!(rt; percpu_gate_front(&mut first, &mut front) == 0);
    assert!(rt; front == 1);
    percpu_gate_free_pass(&mut first);
    percpu_gate_free_pass(&mut second);
}

/// A control that is freed at zero revives nothing.
#[test]
fn a_freed_control_leaves_zero(rt: HostRuntime) {
    let (mut control, mut first, mut second) = of_two_passes(rt.alloc());
    let mut front = 7;
    assert!(rt; percpu_gate_kill(&mut control) == 1);
    percpu_gate_free_control(&mut control);
    assert!(rt; percpu_gate_is_zero(&mut first));
    assert!(rt; percpu_gate_try_get(&mut first, 0) == 2);
    assert!(rt; percpu_gate_front(&mut first, &mut front) == 0);
    assert!(rt; front == 1);
    percpu_gate_free_pass(&mut first);
    percpu_gate_free_pass(&mut second);
}
