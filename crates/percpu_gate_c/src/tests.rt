//! A life through the exports, and each misuse. c/tests tests what the library does with C's threads, sanitizers and a
//! failing `malloc`.
mod amounts;
mod ends;
mod freed;
mod places;

use crate::control_calls::{
    percpu_gate_all_words, percpu_gate_control_is_zero, percpu_gate_kill, percpu_gate_kill_count,
    percpu_gate_reinit, percpu_gate_release_count, percpu_gate_resurrect, percpu_gate_store_word,
    percpu_gate_switch_to_atomic, percpu_gate_switch_to_slots,
};
use crate::control_handle::ControlHandle;
use crate::kill_steps::{
    percpu_gate_close_next, percpu_gate_collect, percpu_gate_confirm, percpu_gate_drop_base,
    percpu_gate_mark_dead, percpu_gate_phase,
};
use crate::life::{
    Final, percpu_gate_exit, percpu_gate_free_control, percpu_gate_free_pass,
    percpu_gate_new_numbered, percpu_gate_next_pass,
};
use crate::open_control::OpenControl;
use crate::open_pass::OpenPass;
use crate::pass_calls::{
    percpu_gate_front, percpu_gate_get, percpu_gate_is_dying, percpu_gate_is_zero, percpu_gate_put,
    percpu_gate_try_get, percpu_gate_try_get_live, percpu_gate_word,
};
use crate::pass_handle::PassHandle;
use c_answers::DrawnNumber;
use std::process::Abort;

const WORDS: [u64; 8] = [7, 1, 2, 3, 4, 5, 6, 9];

/// The number of the tests' gate.
const NUMBER: DrawnNumber = DrawnNumber {
    counter: 1,
    drawn: 1,
};

/// The box of a handle may cross threads.
fn crosses<T: Send>() {}

/// Returns a control and a pass of a new gate with two slots and two passes.
fn opened(rt: HostRuntime) -> (ControlHandle, PassHandle) {
    crosses::<OpenPass>();
    crosses::<OpenControl>();
    let mut control = ControlHandle::new(rt.alloc());
    let mut pass = PassHandle::new(rt.alloc());
    percpu_gate_new_numbered(&mut control, &NUMBER, 2, 2, 0, &WORDS);
    percpu_gate_next_pass(&mut control, &mut pass);
    (control, pass)
}

#[test]
fn a_life(rt: HostRuntime) {
    let (mut control, mut pass) = opened(rt);
    assert!(rt; percpu_gate_try_get_live(&mut pass, 1) == 0);
    assert!(rt; percpu_gate_get(&mut pass, 0, 2) == 0);
    assert!(rt; percpu_gate_kill(&mut control) == 0);
    assert!(rt; percpu_gate_kill(&mut control) == 17);
    assert!(rt; percpu_gate_is_dying(&mut pass));
    assert!(rt; percpu_gate_try_get_live(&mut pass, 1) == 2);
    assert!(rt; percpu_gate_try_get(&mut pass, 1) == 0);
    assert!(rt; !percpu_gate_control_is_zero(&mut control));
    assert!(rt; !percpu_gate_is_zero(&mut pass));
    assert!(rt; percpu_gate_put(&mut pass, 0, 4) == 1);
    assert!(rt; percpu_gate_control_is_zero(&mut control));
    assert!(rt; percpu_gate_is_zero(&mut pass));
    let mut words = WORDS;
    assert!(rt; percpu_gate_store_word(&mut control, 7, 4) == 0);
    assert!(rt; percpu_gate_all_words(&mut control, &mut words) == 0);
    assert!(rt; words == [7, 1, 2, 3, 4, 5, 6, 4]);
    assert!(rt; percpu_gate_reinit(&mut control) == 0);
    percpu_gate_free_pass(&mut pass);
    percpu_gate_free_control(&mut control);
}

/// In each life zero is found once it is reached and not before, a word is stored and the gate revived, with a pass
/// out.
#[test]
fn three_lives(rt: HostRuntime) {
    let (mut control, mut pass) = opened(rt);
    let mut words = WORDS;
    for life in 1..=3u64 {
        assert!(rt; percpu_gate_try_get_live(&mut pass, 1) == 0);
        assert!(rt; percpu_gate_kill(&mut control) == 0);
        assert!(rt; !percpu_gate_control_is_zero(&mut control));
        assert!(rt; percpu_gate_store_word(&mut control, 0, life) == 19);
        assert!(rt; percpu_gate_reinit(&mut control) == 19);
        assert!(rt; percpu_gate_put(&mut pass, 0, 1) == 1);
        assert!(rt; percpu_gate_control_is_zero(&mut control));
        assert!(rt; percpu_gate_store_word(&mut control, 0, life) == 0);
        assert!(rt; percpu_gate_all_words(&mut control, &mut words) == 0);
        assert!(rt; words == [life, 1, 2, 3, 4, 5, 6, 9]);
        assert!(rt; percpu_gate_reinit(&mut control) == 0);
    }
    percpu_gate_free_pass(&mut pass);
    percpu_gate_free_control(&mut control);
}

#[test]
fn guarded_words(rt: HostRuntime) {
    let (mut control, mut pass) = opened(rt);
    let mut word = 1;
    assert!(rt; percpu_gate_word(&mut pass, 7, &mut word) == 65);
    assert!(rt; word == 1);
    assert!(rt; percpu_gate_try_get(&mut pass, 0) == 0);
    assert!(rt; percpu_gate_word(&mut pass, 8, &mut word) == 68);
    assert!(rt; percpu_gate_word(&mut pass, 7, &mut word) == 0);
    assert!(rt; word == 9);
    assert!(rt; percpu_gate_store_word(&mut control, 8, 4) == 68);
    assert!(rt; percpu_gate_store_word(&mut control, 7, 4) == 18);
    percpu_gate_free_pass(&mut pass);
    percpu_gate_free_control(&mut control);
}

#[test]
fn misuse_of_a_pass(rt: HostRuntime) {
    let (mut control, mut pass) = opened(rt);
    assert!(rt; percpu_gate_try_get(&mut pass, 2) == 34);
    assert!(rt; percpu_gate_get(&mut pass, 0, 1) == 65);
    assert!(rt; percpu_gate_put(&mut pass, 0, 1) == 65);
    assert!(rt; percpu_gate_try_get(&mut pass, 1) == 0);
    assert!(rt; percpu_gate_get(&mut pass, 0, 65_535) == 64);
    assert!(rt; percpu_gate_get(&mut pass, 0, 65_534) == 0);
    assert!(rt; percpu_gate_try_get_live(&mut pass, 1) == 64);
    assert!(rt; percpu_gate_put(&mut pass, 0, 0) == 67);
    assert!(rt; percpu_gate_put(&mut pass, 1, 65_535) == 0);
    percpu_gate_free_pass(&mut pass);
    assert!(rt; percpu_gate_try_get(&mut pass, 1) == 32);
    assert!(rt; percpu_gate_kill(&mut control) == 1);
    assert!(rt; !percpu_gate_is_dying(&mut pass));
    assert!(rt; !percpu_gate_is_zero(&mut pass));
    assert!(rt; percpu_gate_control_is_zero(&mut control));
    percpu_gate_free_control(&mut control);
    assert!(rt; !percpu_gate_control_is_zero(&mut control));
    assert!(rt; percpu_gate_kill(&mut control) == 32);
}

#[test]
fn misuse_of_a_control(rt: HostRuntime) {
    let (mut control, mut pass) = opened(rt);
    let mut last = Final {
        dead: false,
        kills: 5,
        releases: 0,
        words: WORDS,
    };
    assert!(rt; percpu_gate_new_numbered(&mut control, &NUMBER, 2, 2, 0, &WORDS) == 33);
    assert!(rt; percpu_gate_next_pass(&mut control, &mut pass) == 33);
    percpu_gate_free_pass(&mut pass);
    assert!(rt; percpu_gate_next_pass(&mut control, &mut pass) == 0);
    percpu_gate_free_pass(&mut pass);
    assert!(rt; percpu_gate_next_pass(&mut control, &mut pass) == 39);
    assert!(rt; percpu_gate_exit(&mut control, &mut last) == 22);
    assert!(rt; last.kills == 5);
    percpu_gate_free_control(&mut control);
    assert!(rt; percpu_gate_exit(&mut control, &mut last) == 32);
    assert!(rt; percpu_gate_new_numbered(&mut control, &NUMBER, 513, 2, 0, &WORDS) == 35);
    assert!(rt; percpu_gate_new_numbered(&mut control, &NUMBER, 2, 2, 3, &WORDS) == 35);
}

#[test]
fn switches_and_revivals(rt: HostRuntime) {
    let (mut control, mut pass) = opened(rt);
    let mut told = 9;
    assert!(rt; percpu_gate_front(&mut pass, &mut told) == 0);
    assert!(rt; told == 0);
    assert!(rt; percpu_gate_switch_to_atomic(&mut control) == 0);
    assert!(rt; percpu_gate_phase(&mut control) == 1);
    assert!(rt; percpu_gate_resurrect(&mut control) == 18);
    assert!(rt; percpu_gate_try_get_live(&mut pass, 0) == 0);
    assert!(rt; percpu_gate_kill(&mut control) == 0);
    assert!(rt; percpu_gate_switch_to_slots(&mut control) == 0);
    assert!(rt; percpu_gate_phase(&mut control) == 5);
    assert!(rt; percpu_gate_reinit(&mut control) == 19);
    assert!(rt; percpu_gate_resurrect(&mut control) == 0);
    assert!(rt; percpu_gate_phase(&mut control) == 0);
    assert!(rt; percpu_gate_put(&mut pass, 1, 1) == 0);
    assert!(rt; percpu_gate_front(&mut pass, &mut told) == 0);
    assert!(rt; told == 2);
    assert!(rt; percpu_gate_release_count(&mut control, &mut told) == 0);
    assert!(rt; told == 0);
    assert!(rt; percpu_gate_kill(&mut control) == 1);
    assert!(rt; percpu_gate_release_count(&mut control, &mut told) == 0);
    assert!(rt; told == 1);
    assert!(rt; percpu_gate_resurrect(&mut control) == 4);
    assert!(rt; percpu_gate_kill_count(&mut control, &mut told) == 0);
    assert!(rt; told == 2);
    percpu_gate_free_control(&mut control);
    assert!(rt; percpu_gate_kill_count(&mut control, &mut told) == 32);
    assert!(rt; told == 2);
    percpu_gate_free_pass(&mut pass);
}

/// What was counted on each slot, which C can't see.
#[test]
fn counts_on_the_slot_asked_for(rt: HostRuntime) {
    let (mut control, mut pass) = opened(rt);
    assert!(rt; percpu_gate_try_get(&mut pass, 1) == 0);
    assert!(rt; percpu_gate_try_get_live(&mut pass, 0) == 0);
    assert!(rt; percpu_gate_get(&mut pass, 1, 4) == 0);
    assert!(rt; percpu_gate_put(&mut pass, 0, 2) == 0);
    match control.take() {
        Some(mut open) => {
            assert!(rt; matches!(open.mark_dead(), Ok(Ok(2))));
            assert!(rt; matches!(open.close_next(), Ok(-1)));
            assert!(rt; matches!(open.close_next(), Ok(5)));
        }
        None => assert!(rt; false),
    }
    percpu_gate_free_pass(&mut pass);
}

#[test]
fn a_kill_step_by_step(rt: HostRuntime) {
    let (mut control, mut pass) = opened(rt);
    let mut slots = 7;
    let mut front = 8;
    assert!(rt; percpu_gate_phase(&mut control) == 0);
    assert!(rt; percpu_gate_close_next(&mut control) == 69);
    assert!(rt; percpu_gate_mark_dead(&mut control, &mut slots) == 0);
    assert!(rt; slots == 2);
    assert!(rt; percpu_gate_kill(&mut control) == 20);
    assert!(rt; percpu_gate_close_next(&mut control) == 0);
    assert!(rt; percpu_gate_collect(&mut control) == 69);
    assert!(rt; percpu_gate_close_next(&mut control) == 0);
    assert!(rt; percpu_gate_close_next(&mut control) == 69);
    assert!(rt; percpu_gate_confirm(&mut control, &mut front) == 69);
    assert!(rt; front == 8);
    assert!(rt; percpu_gate_collect(&mut control) == 0);
    assert!(rt; percpu_gate_drop_base(&mut control) == 69);
    assert!(rt; percpu_gate_confirm(&mut control, &mut front) == 0);
    assert!(rt; front == 1);
    assert!(rt; percpu_gate_phase(&mut control) == 4);
    assert!(rt; percpu_gate_drop_base(&mut control) == 1);
    assert!(rt; percpu_gate_mark_dead(&mut control, &mut slots) == 17);
    percpu_gate_free_pass(&mut pass);
    percpu_gate_free_control(&mut control);
    assert!(rt; percpu_gate_phase(&mut control) == 32);
}
