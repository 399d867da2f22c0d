//! The places of arguments, which no contract sees: each call that takes several numbers, with another number in each
//! place.
use super::{NUMBER, WORDS, opened};
use crate::control_calls::{percpu_gate_all_words, percpu_gate_kill, percpu_gate_store_word};
use crate::control_handle::ControlHandle;
use crate::kill_steps::percpu_gate_phase;
use crate::life::{
    percpu_gate_free_control, percpu_gate_free_pass, percpu_gate_new_numbered,
    percpu_gate_next_pass,
};
use crate::pass_calls::{percpu_gate_get, percpu_gate_put, percpu_gate_try_get, percpu_gate_word};
use crate::pass_handle::PassHandle;

/// Three slots, two passes, on the shared word alone (1).
#[test]
fn slots_passes_start(rt: HostRuntime) {
    let mut control = ControlHandle::new(rt.alloc());
    let mut first = PassHandle::new(rt.alloc());
    let mut second = PassHandle::new(rt.alloc());
    let mut third = PassHandle::new(rt.alloc());
    assert!(rt; percpu_gate_new_numbered(&mut control, &NUMBER, 3, 2, 1, &WORDS) == 0);
    assert!(rt; percpu_gate_phase(&mut control) == 1);
    assert!(rt; percpu_gate_next_pass(&mut control, &mut first) == 0);
    assert!(rt; percpu_gate_next_pass(&mut control, &mut second) == 0);
    assert!(rt; percpu_gate_next_pass(&mut control, &mut third) == 39);
    assert!(rt; percpu_gate_try_get(&mut first, 2) == 0);
    assert!(rt; percpu_gate_try_get(&mut second, 3) == 34);
    percpu_gate_free_pass(&mut first);
    percpu_gate_free_pass(&mut second);
    percpu_gate_free_control(&mut control);
}

/// Slot 1, and three or four references: there is no slot 3 or 4.
#[test]
fn slot_and_amount(rt: HostRuntime) {
    let (mut control, mut pass) = opened(rt);
    assert!(rt; percpu_gate_try_get(&mut pass, 1) == 0);
    assert!(rt; percpu_gate_get(&mut pass, 1, 3) == 0);
    assert!(rt; percpu_gate_kill(&mut control) == 0);
    assert!(rt; percpu_gate_put(&mut pass, 1, 4) == 1);
    percpu_gate_free_pass(&mut pass);
    percpu_gate_free_control(&mut control);
}

/// Each word has its own number, and word 3 is set to 5.
#[test]
fn word_and_value(rt: HostRuntime) {
    let (mut control, mut pass) = opened(rt);
    let mut words = [0; 8];
    assert!(rt; percpu_gate_try_get(&mut pass, 0) == 0);
    for k in 0..8u32 {
        assert!(rt; percpu_gate_word(&mut pass, k, &mut words[k as usize]) == 0);
    }
    assert!(rt; words == WORDS);
    assert!(rt; percpu_gate_kill(&mut control) == 0);
    assert!(rt; percpu_gate_put(&mut pass, 0, 1) == 1);
    assert!(rt; percpu_gate_store_word(&mut control, 3, 5) == 0);
    assert!(rt; percpu_gate_all_words(&mut control, &mut words) == 0);
    assert!(rt; words == [7, 1, 2, 5, 4, 5, 6, 9]);
    percpu_gate_free_pass(&mut pass);
    percpu_gate_free_control(&mut control);
}
