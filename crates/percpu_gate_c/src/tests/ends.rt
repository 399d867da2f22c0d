//! Passes that are retired, and gates that end. `percpu_gate_retire` requires that gates of one number are one gate, so
//! the helpers say that this still holds of the two handles.
ghost use Rattle.std.specs.Prelude.{◌≡◌, IfSome};
ghost use Rattle.percpu_gate_c.specs.Life.{NumbersTellOn};

use super::WORDS;
use crate::control_calls::{
    percpu_gate_control_is_zero, percpu_gate_kill, percpu_gate_release_count, percpu_gate_resurrect,
};
use crate::control_handle::ControlHandle;
use crate::life::{
    Final, percpu_gate_control_number, percpu_gate_exit, percpu_gate_free_control,
    percpu_gate_free_pass, percpu_gate_new_numbered, percpu_gate_next_pass,
    percpu_gate_pass_number, percpu_gate_retire,
};
use crate::pass_calls::{percpu_gate_is_dying, percpu_gate_put, percpu_gate_try_get_live};
use crate::pass_handle::PassHandle;
use c_answers::DrawnNumber;
use std::alloc::Global;
use std::process::Abort;
use std::test::Fail;

/// The value before a gate has ended.
const NOT_YET: Final = Final {
    dead: false,
    kills: 9,
    releases: 9,
    words: [0; 8],
};

/// Returns the handles of a new gate with two slots and one pass.
fn of_one_gate<R: Abort>(rt: &R, alloc: Global, drawn: u64) -> (ControlHandle, PassHandle)
    ensures one { NumbersTellOn result.0.held.control result.1.held.pass }
    ensures control { IfSome result.0.held.control (λ c. c.number.drawn ≡ drawn) }
    ensures pass { IfSome result.1.held.pass (λ p. p.number.drawn ≡ drawn) }
{
    let mut control = ControlHandle::new(alloc);
    let mut pass = PassHandle::new(alloc);
    let number = DrawnNumber { counter: 5, drawn };
    let made = percpu_gate_new_numbered(&mut control, &number, 2, 1, 0, &WORDS);
    assert!(*rt; made == 0);
    let given = percpu_gate_next_pass(&mut control, &mut pass);
    assert!(*rt; given == 0);
    (control, pass)
}

fn take(control: &ControlHandle, pass: &mut PassHandle) -> u32
    requires { NumbersTellOn control.now.held.control pass.old.held.pass }
    ensures { NumbersTellOn control.now.held.control pass.new.held.pass }
{
    percpu_gate_try_get_live(pass, 1)
}

fn put(control: &ControlHandle, pass: &mut PassHandle) -> u32
    requires { NumbersTellOn control.now.held.control pass.old.held.pass }
    ensures { NumbersTellOn control.now.held.control pass.new.held.pass }
{
    percpu_gate_put(pass, 0, 1)
}

fn kill(control: &mut ControlHandle, pass: &PassHandle) -> u32
    requires { NumbersTellOn control.old.held.control pass.now.held.pass }
    ensures { NumbersTellOn control.new.held.control pass.now.held.pass }
{
    percpu_gate_kill(control)
}

fn resurrect(control: &mut ControlHandle, pass: &PassHandle) -> u32
    requires { NumbersTellOn control.old.held.control pass.now.held.pass }
    ensures { NumbersTellOn control.new.held.control pass.now.held.pass }
{
    percpu_gate_resurrect(control)
}

fn exit(control: &mut ControlHandle, pass: &PassHandle, last: &mut Final) -> u32
    requires { NumbersTellOn control.old.held.control pass.now.held.pass }
    ensures { NumbersTellOn control.new.held.control pass.now.held.pass }
{
    percpu_gate_exit(control, last)
}

#[test]
fn a_whole_life(rt: HostRuntime) {
    let (mut control, mut pass) = of_one_gate(&rt, rt.alloc(), 1);
    let mut last = NOT_YET;
    let mut releases = 0;
    assert!(rt; take(&control, &mut pass) == 0);
    assert!(rt; kill(&mut control, &pass) == 0);
    assert!(rt; exit(&mut control, &pass, &mut last) == 22);
    assert!(rt; last.kills == 9);
    assert!(rt; put(&control, &mut pass) == 1);
    assert!(rt; percpu_gate_retire(&mut control, &mut pass) == 0);
    assert!(rt; percpu_gate_put(&mut pass, 0, 1) == 32);
    assert!(rt; percpu_gate_release_count(&mut control, &mut releases) == 0);
    assert!(rt; releases == 1);
    assert!(rt; percpu_gate_exit(&mut control, &mut last) == 0);
    assert!(rt; (last.dead, last.kills, last.releases) == (true, 1, 1));
    assert!(rt; last.words == WORDS);
    assert!(rt; percpu_gate_exit(&mut control, &mut last) == 32);
}

/// Three kills, two of which reached zero: each field of the final facts has a number of its own, in its place.
#[test]
fn what_is_left(rt: HostRuntime) -> Result<(), Fail> {
    let (mut control, mut pass) = of_one_gate(&rt, rt.alloc(), 1);
    let mut last = NOT_YET;
    assert!(rt; take(&control, &mut pass) == 0);
    assert!(rt; kill(&mut control, &pass) == 0);
    assert!(rt; resurrect(&mut control, &pass) == 0);
    assert!(rt; put(&control, &mut pass) == 0);
    assert!(rt; kill(&mut control, &pass) == 1);
    assert!(rt; resurrect(&mut control, &pass) == 4);
    assert!(rt; kill(&mut control, &pass) == 1);
    assert!(rt; percpu_gate_retire(&mut control, &mut pass) == 0);
    assert!(rt; percpu_gate_exit(&mut control, &mut last) == 0);
    assert!(rt; last.dead);
    assert!(rt; last.kills == 3);
    assert!(rt; last.releases == 2);
    assert!(rt; last.words == WORDS);
    let told = format!(in rt.alloc(); "{last:?}")?;
    let wanted = "Final { dead: true, kills: 3, releases: 2, words: [7, 1, 2, 3, 4, 5, 6, 9] }";
    assert!(rt; told.as_str() == wanted);
    Ok(())
}

/// Of three passes one was never asked for: it ends with the gate, but a pass that was given out doesn't.
#[test]
fn passes_that_nobody_asked_for(rt: HostRuntime) {
    let mut control = ControlHandle::new(rt.alloc());
    let mut pass = PassHandle::new(rt.alloc());
    let mut last = NOT_YET;
    let number = DrawnNumber {
        counter: 5,
        drawn: 6,
    };
    assert!(rt; percpu_gate_new_numbered(&mut control, &number, 2, 3, 2, &WORDS) == 0);
    assert!(rt; percpu_gate_exit(&mut control, &mut last) == 0);
    assert!(rt; (last.dead, last.kills, last.releases) == (true, 0, 0));
    assert!(rt; percpu_gate_new_numbered(&mut control, &number, 2, 3, 0, &WORDS) == 0);
    assert!(rt; percpu_gate_next_pass(&mut control, &mut pass) == 0);
    assert!(rt; percpu_gate_exit(&mut control, &mut last) == 22);
    assert!(rt; percpu_gate_pass_number(&mut pass) == 6);
    assert!(rt; percpu_gate_control_number(&mut control) == 6);
    percpu_gate_free_pass(&mut pass);
    assert!(rt; percpu_gate_exit(&mut control, &mut last) == 22);
    percpu_gate_free_control(&mut control);
    assert!(rt; percpu_gate_pass_number(&mut pass) == 0);
    assert!(rt; percpu_gate_control_number(&mut control) == 0);
}

#[test]
fn a_pass_that_holds_is_not_retired(rt: HostRuntime) {
    let (mut control, mut pass) = of_one_gate(&rt, rt.alloc(), 1);
    assert!(rt; take(&control, &mut pass) == 0);
    assert!(rt; percpu_gate_retire(&mut control, &mut pass) == 66);
    assert!(rt; percpu_gate_put(&mut pass, 0, 1) == 0);
    percpu_gate_free_pass(&mut pass);
    percpu_gate_free_control(&mut control);
}

#[test]
fn a_pass_of_another_gate(rt: HostRuntime) {
    let (mut first, mut pass) = of_one_gate(&rt, rt.alloc(), 1);
    let (mut second, mut other) = of_one_gate(&rt, rt.alloc(), 2);
    assert!(rt; percpu_gate_retire(&mut second, &mut pass) == 38);
    assert!(rt; percpu_gate_try_get_live(&mut pass, 0) == 0);
    assert!(rt; percpu_gate_kill(&mut second) == 1);
    assert!(rt; percpu_gate_put(&mut pass, 0, 1) == 0);
    percpu_gate_free_pass(&mut pass);
    percpu_gate_free_pass(&mut other);
    percpu_gate_free_control(&mut first);
    percpu_gate_free_control(&mut second);
}

/// What a freed pass held stays held forever: no call returns that the last reference is gone.
#[test]
fn a_freed_pass_holds_on(rt: HostRuntime) {
    let (mut control, mut pass) = of_one_gate(&rt, rt.alloc(), 1);
    assert!(rt; percpu_gate_try_get_live(&mut pass, 0) == 0);
    percpu_gate_free_pass(&mut pass);
    assert!(rt; percpu_gate_kill(&mut control) == 0);
    assert!(rt; !percpu_gate_control_is_zero(&mut control));
    percpu_gate_free_control(&mut control);
}

/// The passes of a freed control go on counting: nobody has killed their gate.
#[test]
fn a_freed_control_leaves_its_gate_live(rt: HostRuntime) {
    let (mut control, mut pass) = of_one_gate(&rt, rt.alloc(), 1);
    percpu_gate_free_control(&mut control);
    assert!(rt; !percpu_gate_is_dying(&mut pass));
    assert!(rt; percpu_gate_try_get_live(&mut pass, 0) == 0);
    assert!(rt; percpu_gate_put(&mut pass, 0, 1) == 0);
    percpu_gate_free_pass(&mut pass);
}

/// The largest gate is made if there is memory, and gives each of its passes once.
#[test]
fn the_greatest_gate(rt: HostRuntime) {
    let mut control = ControlHandle::new(rt.alloc());
    let mut pass = PassHandle::new(rt.alloc());
    let mut last = NOT_YET;
    let number = DrawnNumber {
        counter: 5,
        drawn: 6,
    };
    assert!(rt; percpu_gate_new_numbered(&mut control, &number, 512, 1_024, 0, &WORDS) == 0);
    for _ in 0..1_024u32 {
        assert!(rt; percpu_gate_next_pass(&mut control, &mut pass) == 0);
        percpu_gate_free_pass(&mut pass);
    }
    assert!(rt; percpu_gate_next_pass(&mut control, &mut pass) == 39);
    assert!(rt; percpu_gate_exit(&mut control, &mut last) == 22);
    percpu_gate_free_control(&mut control);
}

/// Asking for a pass when none is left takes no share of the gate, which ends.
#[test]
fn no_pass_takes_no_share(rt: HostRuntime) {
    let (mut control, mut pass) = of_one_gate(&rt, rt.alloc(), 1);
    let mut last = NOT_YET;
    assert!(rt; percpu_gate_retire(&mut control, &mut pass) == 0);
    assert!(rt; percpu_gate_next_pass(&mut control, &mut pass) == 39);
    assert!(rt; percpu_gate_exit(&mut control, &mut last) == 0);
}

/// Two hundred gates in turn, each with another number, are made, give a pass and end: there is memory for all.
#[test]
fn gates_in_turn(rt: HostRuntime) {
    for drawn in 1..201u64 {
        let (mut control, mut pass) = of_one_gate(&rt, rt.alloc(), drawn);
        let mut last = NOT_YET;
        let retired = percpu_gate_retire(&mut control, &mut pass);
        assert!(rt; retired == 0, "{drawn}");
        let ended = percpu_gate_exit(&mut control, &mut last);
        assert!(rt; ended == 0, "{drawn}");
    }
}
