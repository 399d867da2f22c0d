//! The calls of `percpu_core`.
ghost use Rattle.std.specs.Prelude.{◌≡◌, ◌<◌, ◌≤◌, ◌^◌, length};
ghost use Rattle.percpu_core.specs.Numbers.{refusal_number};

use percpu_core::{
    ControlEvent, Event, Memory, NotEnabled, PassEvent, Phase, ReplayFault, Reply, Start, World,
};
use std::alloc::Global;

pub fn new(
    alloc: Global,
    slots: u32,
    passes: u32,
    start: Start,
    words: &[u64],
) -> Result<World, Memory>
    requires slots { (1 ≤ slots) × (slots ≤ 512) }
    requires passes { (1 ≤ passes) × (passes ≤ 1024) }
    requires words { length words.now ≤ 8 }
{
    World::new(alloc, slots, passes, start, words)
}

pub fn with_kills(
    alloc: Global,
    slots: u32,
    passes: u32,
    start: Start,
    kills: u64,
    words: &[u64],
) -> Result<World, Memory>
    requires slots { (1 ≤ slots) × (slots ≤ 512) }
    requires passes { (1 ≤ passes) × (passes ≤ 1024) }
    requires kills { kills ≤ 2 ^ 40 }
    requires words { length words.now ≤ 8 }
{
    World::with_kills(alloc, slots, passes, start, kills, words)
}

pub fn step(world: &mut World, event: Event) -> Result<Reply, NotEnabled> {
    world.step(event)
}

pub fn replay(
    alloc: Global,
    world: &mut World,
    events: &[Event],
) -> Result<Vec<Reply>, ReplayFault> {
    percpu_core::replay(alloc, world, events)
}

/// Returns the shared word, the front, the kills, the releases and what all passes hold.
pub fn numbers(world: &World) -> [u64; 5] {
    [
        world.shared(),
        world.front(),
        world.kills(),
        world.releases(),
        world.held_by_all(),
    ]
}

pub fn slot(world: &World, i: u32) -> u64
    requires { i < length world.now.cells.slots }
{
    world.slot(i)
}

pub fn word(world: &World, k: u32) -> u64
    requires { k < length world.now.cells.words }
{
    world.word(k)
}

pub fn held(world: &World, pass: u32) -> u32
    requires { pass < length world.now.passes }
{
    world.held(pass)
}

/// Returns the number of slots that are closed or opened already, in each phase.
pub fn phase(world: &World) -> u32 {
    match world.phase() {
        Phase::LiveSlots
        | Phase::LiveAtomic
        | Phase::Collected
        | Phase::Confirmed
        | Phase::Dead
        | Phase::Reviving
        | Phase::Fronted => 0,
        Phase::Closing(slot) | Phase::Opening(slot) => slot,
    }
}

/// Returns whether a gate starts live.
pub fn start(start: Start) -> bool {
    match start {
        Start::Slots | Start::Atomic => true,
        Start::Dead => false,
    }
}

/// Returns the slot or word of a pass's event, its delta and its amount.
pub fn pass_event(event: PassEvent) -> (u32, i64, u32) {
    match event {
        PassEvent::AddTry
        | PassEvent::AddLive
        | PassEvent::Undo
        | PassEvent::Mark
        | PassEvent::LookShared
        | PassEvent::LoadFront => (0, 0, 0),
        PassEvent::AddGet(n) | PassEvent::Sub(n) => (0, 0, n),
        PassEvent::Look(slot) => (slot, 0, 0),
        PassEvent::Take { slot, seen, n } | PassEvent::Give { slot, seen, n } => (slot, seen, n),
        PassEvent::LoadWord(k) => (k, 0, 0),
    }
}

/// Returns the word or pass of an event of the control, and its value.
pub fn control_event(event: ControlEvent) -> (u32, u64) {
    match event {
        ControlEvent::MarkDead
        | ControlEvent::Close
        | ControlEvent::Collect
        | ControlEvent::Confirm
        | ControlEvent::DropBase
        | ControlEvent::Mark
        | ControlEvent::TakeBase
        | ControlEvent::NextFront
        | ControlEvent::ClearDead
        | ControlEvent::AddBias
        | ControlEvent::OpenNext
        | ControlEvent::LookShared => (0, 0),
        ControlEvent::StoreWord { k, v } => (k, v),
        ControlEvent::Join(pass) => (pass, 0),
    }
}

pub fn event(event: Event) -> Option<(u32, PassEvent)> {
    match event {
        Event::Pass(pass, step) => Some((pass, step)),
        Event::Control(step) => {
            let _: ControlEvent = step;
            None
        }
    }
}

/// Returns the delta in a reply, and its word or number.
pub fn reply(reply: Reply) -> (i64, u64) {
    match reply {
        Reply::Given
        | Reply::Refused
        | Reply::NotLast
        | Reply::ToMark
        | Reply::Last
        | Reply::Lost
        | Reply::Won
        | Reply::Closed
        | Reply::Done => (0, 0),
        Reply::Opened(delta) | Reply::Collected(delta) => (delta, 0),
        Reply::Shared(word) | Reply::Number(word) => (0, word),
    }
}

/// Returns the number of a refusal.
pub fn not_enabled(why: NotEnabled) -> u8
    ensures { result ≡ refusal_number why }
{
    match why {
        NotEnabled::NoSuchActor => 1,
        NotEnabled::NoSuchSlot => 2,
        NotEnabled::WrongPhase => 3,
        NotEnabled::NothingHeld => 4,
        NotEnabled::MidCall => 5,
        NotEnabled::HeldFull => 6,
        NotEnabled::WornOut => 7,
        NotEnabled::NoSuchWord => 8,
        NotEnabled::BadAmount => 9,
        NotEnabled::StillHeld => 10,
    }
}

/// Returns the index of the event before which a replay stopped, and why.
pub fn replay_fault(fault: ReplayFault) -> Option<(usize, NotEnabled)> {
    match fault {
        ReplayFault::Memory => None,
        ReplayFault::Stuck { at, why } => Some((at, why)),
    }
}

/// Makes a `Memory`, which has no fields.
pub fn memory() -> Memory {
    Memory
}
