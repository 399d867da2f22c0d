//! The calls of `percpu_gate` that make a gate and count on it.
ghost use Rattle.std.specs.Prelude.{◌≡◌, ◌+◌, ◌<◌, ◌≤◌};

use percpu_gate::{Control, Gate, Memory, Pass, Put, Start, Tried};
use std::alloc::Global;

pub fn new<const W: usize>(
    alloc: Global,
    slots: u32,
    passes: u32,
    start: Start,
    words: [u64; W],
) -> Result<(Gate<W>, Control<W>, Vec<Pass<W>>), Memory>
    requires slots { (1 ≤ slots) × (slots ≤ 512) }
    requires passes { (1 ≤ passes) × (passes ≤ 1024) }
    requires words { W ≤ 8 }
{
    Gate::<W>::new(alloc, slots, passes, start, words)
}

pub fn slots<const W: usize>(gate: &Gate<W>) -> u32 {
    gate.slots()
}

pub fn held<const W: usize>(pass: &Pass<W>) -> u32 {
    pass.held()
}

pub fn seen_front<const W: usize>(pass: &Pass<W>) -> u64 {
    pass.seen_front()
}

pub fn try_get<const W: usize>(pass: &mut Pass<W>, gate: &Gate<W>, slot: u32) -> Tried
    requires own { pass.old.gate ≡ gate.now }
    requires slot { slot < gate.now.slots }
    requires room { pass.old.view.standing.held < 65535 }
{
    pass.try_get(gate, slot)
}

pub fn try_get_live<const W: usize>(pass: &mut Pass<W>, gate: &Gate<W>, slot: u32) -> Tried
    requires own { pass.old.gate ≡ gate.now }
    requires slot { slot < gate.now.slots }
    requires room { pass.old.view.standing.held < 65535 }
{
    pass.try_get_live(gate, slot)
}

pub fn get<const W: usize>(pass: &mut Pass<W>, gate: &Gate<W>, slot: u32, n: u32)
    requires own { pass.old.gate ≡ gate.now }
    requires slot { slot < gate.now.slots }
    requires held { 1 ≤ pass.old.view.standing.held }
    requires amount { 1 ≤ n }
    requires room { pass.old.view.standing.held + n ≤ 65535 }
{
    pass.get(gate, slot, n);
}

pub fn put<const W: usize>(pass: &mut Pass<W>, gate: &Gate<W>, slot: u32, n: u32) -> Put
    requires own { pass.old.gate ≡ gate.now }
    requires slot { slot < gate.now.slots }
    requires amount { 1 ≤ n }
    requires held { n ≤ pass.old.view.standing.held }
{
    pass.put(gate, slot, n)
}

pub fn word<const W: usize>(pass: &mut Pass<W>, gate: &Gate<W>, k: u32) -> u64
    requires own { pass.old.gate ≡ gate.now }
    requires held { 1 ≤ pass.old.view.standing.held }
    requires word { k < W }
{
    pass.word(gate, k)
}

pub fn front<const W: usize>(pass: &mut Pass<W>, gate: &Gate<W>) -> u64
    requires { pass.old.gate ≡ gate.now }
{
    pass.front(gate)
}

pub fn is_dying<const W: usize>(pass: &mut Pass<W>, gate: &Gate<W>) -> bool
    requires { pass.old.gate ≡ gate.now }
{
    pass.is_dying(gate)
}

pub fn is_zero<const W: usize>(pass: &mut Pass<W>, gate: &Gate<W>) -> bool
    requires { pass.old.gate ≡ gate.now }
{
    pass.is_zero(gate)
}

/// Returns the put of a try that gave nothing.
pub fn tried(tried: Tried) -> Option<Put> {
    match tried {
        Tried::Given => None,
        Tried::Refused(put) => Some(put),
    }
}

/// Returns whether a put is the release.
pub fn is_last(put: Put) -> bool {
    match put {
        Put::NotLast => false,
        Put::Last => true,
    }
}
