//! A pass, with which a thread counts.
ghost use Rattle.std.specs.Prelude.{◌≡◌, ◌*◌, ℕ, ◌∷◌, ◌+◌, ◌-◌, ◌%◌, ◌<◌, ◌≤◌, ◌^◌, true, false, if◌then◌else◌};
ghost use Rattle.percpu_core.specs.declared.limits.TheConstants.{KILL_LIMIT};
ghost use Rattle.percpu_core.specs.declared.pass_event.PassEvent.TheVariants as events;
ghost use Rattle.percpu_core.specs.declared.reply.Reply.TheVariants.{Number};
ghost use Rattle.percpu_core.specs.PassLearns.{next_even};
ghost use Rattle.percpu_core.specs.Views.{count};
ghost use Rattle.percpu_core.specs.Snapshots.{first_pass};
ghost use Rattle.percpu_gate.specs.declared.tried.Tried.TheVariants.{Given};
ghost use Rattle.percpu_gate.specs.Seats.{PassStep, dead_at, zero_at};
ghost use Rattle.percpu_gate.specs.Steps.{TrySteps, GetSteps, PutSteps, LookSteps};
ghost use Rattle.percpu_gate.specs.Calls.{holding, is_refused, taken, after_put, has_dead, has_zero, TryLeaves, TryFinds, LiveTryFinds, TryMeets, GetLeaves, PassLook, LookLeaves, HasRead};

use crate::gate::Gate;
use crate::pass_seat::PassSeat;
use crate::tried::{Put, Tried};
use percpu_core::HELD_LIMIT;
use percpu_words::{is_dead, is_zero};
use std::marker::Model;

/// A thread's right to count on one gate, with the number of references that it holds.
///
/// A pass moves between threads by ownership. Dropping a pass doesn't drop the references that it holds. 64 unused
/// bytes on each side keep neighbouring passes, as in a `Vec`, off each other's cache lines.
#[derive(Drop)]
#[repr(C)]
pub struct Pass<const W: usize> {
    before: [u64; 8],
    seat: PassSeat,
    held: u32,
    seen_front: u64,
    releases: u64,
    after: [u64; 8],
}

impl<const W: usize> Model for Pass<W> {
    ghost use Rattle.std.specs.Prelude.{◌≡◌, ◌*◌, ◌≤◌};
    ghost use Rattle.percpu_core.specs.declared.limits.TheConstants.{HELD_LIMIT, KILL_LIMIT};
    ghost use Rattle.percpu_gate.specs.Seats.{PassFacts};
    ghost use Rattle.percpu_gate.specs.Calls.{holding};

    ghost Value = { PassFacts };

    ghost view = { λ p. p.seat };

    ghost invariant = { λ p. (p.seat.view.standing ≡ holding p.held) × (p.held ≤ HELD_LIMIT)
        × (p.seat.view.seen_front ≡ p.seen_front) × (p.seen_front ≤ p.seat.view.floor) × (p.seat.view.releases ≡ p.releases) × (p.releases ≤ 2 * KILL_LIMIT) };
}

/// Adds to the number of releases. It stores nothing if there is none, because a store delays the exchange that comes
/// next.
#[inline]
fn count_releases(releases: &mut u64, more: u64)
    requires few { releases.old + more < 2 ^ 64 }
    ensures { releases.new ≡ releases.old + more }
{
    if more != 0 {
        *releases += more;
    }
}

impl<const W: usize> Pass<W> {
    /// A new pass, which holds nothing.
    pub(crate) fn new(seat: PassSeat) -> Pass<W>
        requires { seat.view ≡ first_pass }
        ensures { result ≡ seat }
    {
        Pass {
            before: [0; 8],
            seat,
            held: 0,
            seen_front: 0,
            releases: 0,
            after: [0; 8],
        }
    }

    /// The number of references that this pass holds: 0 to 65,535.
    #[inline]
    pub fn held(&self) -> u32
        ensures value { self.now.view.standing ≡ holding result }
        ensures most { result ≤ HELD_LIMIT }
    {
        self.held
    }

    /// The greatest front that this pass has seen; 0 if it has seen none.
    #[inline]
    pub fn seen_front(&self) -> u64
        ensures value { result ≡ self.now.view.seen_front }
        ensures floor { result ≤ self.now.view.floor }
    {
        self.seen_front
    }

    /// Takes a reference unless the gate has reached zero. A pass that holds one already always gets another. Linux:
    /// `percpu_ref_tryget` (include/linux/percpu-refcount.h).
    #[inline]
    pub fn try_get(&mut self, gate: &Gate<W>, slot: u32) -> Tried
        requires own { self.old.gate ≡ gate.now }
        requires slot { slot < gate.now.slots }
        requires room { self.old.view.standing.held < HELD_LIMIT }
        ensures own { self.new.gate ≡ self.old.gate }
        ensures leaves { TryLeaves self.old.view self.new.view result }
        ensures steps { TrySteps events.AddTry slot result self.old.steps self.new.steps }
        ensures finds { TryFinds gate.now self.old.view result }
        ensures again { 0 < self.old.view.standing.held → result ≡ Given }
        ensures meets { TryMeets gate.now has_zero self.old.view self.new.view (is_refused result) }
        ensures times { self.new.view.found_zero_times ≡ self.old.view.found_zero_times + count (is_refused result) }
        ensures both { is_refused result ≡ true → self.new.view.found_dead_times ≡ self.old.view.found_dead_times + 1 }
        ensures ground { is_refused result ≡ true → (self.new.view.found_dead ≡ true) × (self.new.view.found_zero ≡ true) }
    {
        let is_given = self.seat.count_try(&gate.table, slot);
        let answer = self.seat.end_try(&gate.table, is_given);
        self.held += answer.taken();
        count_releases(&mut self.releases, answer.released());
        answer
    }

    /// Takes a reference unless the gate was killed. While a kill closes the slots, a slot that is still open may give
    /// one. Once the pass has seen the odd front `f` of a kill, a reference that it gets belongs to a later life: its
    /// floor is `f + 1` or more. Linux: `percpu_ref_tryget_live` (include/linux/percpu-refcount.h).
    #[inline]
    pub fn try_get_live(&mut self, gate: &Gate<W>, slot: u32) -> Tried
        requires own { self.old.gate ≡ gate.now }
        requires slot { slot < gate.now.slots }
        requires room { self.old.view.standing.held < HELD_LIMIT }
        ensures own { self.new.gate ≡ self.old.gate }
        ensures leaves { TryLeaves self.old.view self.new.view result }
        ensures steps { TrySteps events.AddLive slot result self.old.steps self.new.steps }
        ensures finds { LiveTryFinds gate.now slot self.old.view result }
        ensures floor { self.new.view.floor ≡ (if is_refused result then self.old.view.floor else next_even self.old.view.floor) }
        ensures live { self.new.view.live_given ≡ self.old.view.live_given + taken result }
        ensures later { is_refused result ≡ false → self.old.view.seen_front % 2 ≡ 1 → self.old.view.seen_front + 1 ≤ self.new.view.floor }
        ensures meets { TryMeets gate.now has_dead self.old.view self.new.view (is_refused result) }
        ensures times { self.new.view.found_dead_times ≡ self.old.view.found_dead_times + count (is_refused result) }
        ensures ground { is_refused result ≡ true → self.new.view.found_dead ≡ true }
    {
        let is_given = self.seat.count_live(&gate.table, slot);
        let answer = self.seat.end_try(&gate.table, is_given);
        self.held += answer.taken();
        count_releases(&mut self.releases, answer.released());
        answer
    }

    /// Takes `n` more references, for a pass that holds one. Linux: `percpu_ref_get_many`
    /// (include/linux/percpu-refcount.h).
    #[inline]
    pub fn get(&mut self, gate: &Gate<W>, slot: u32, n: u32)
        requires own { self.old.gate ≡ gate.now }
        requires slot { slot < gate.now.slots }
        requires held { 1 ≤ self.old.view.standing.held }
        requires amount { 1 ≤ n }
        requires room { self.old.view.standing.held + n ≤ HELD_LIMIT }
        ensures own { self.new.gate ≡ self.old.gate }
        ensures leaves { GetLeaves self.old.view self.new.view n }
        ensures steps { GetSteps slot n self.old.steps self.new.steps }
    {
        self.seat.count_get(&gate.table, slot, n);
        self.held += n;
    }

    /// Drops `n` references that the pass holds. `Last` is the release. Linux: `percpu_ref_put_many`
    /// (include/linux/percpu-refcount.h).
    #[inline]
    pub fn put(&mut self, gate: &Gate<W>, slot: u32, n: u32) -> Put
        requires own { self.old.gate ≡ gate.now }
        requires slot { slot < gate.now.slots }
        requires amount { 1 ≤ n }
        requires held { n ≤ self.old.view.standing.held }
        ensures own { self.new.gate ≡ self.old.gate }
        ensures view { self.new.view ≡ after_put result (self.old.view.standing.held - n) self.old.view }
        ensures steps { PutSteps slot n result self.old.steps self.new.steps }
    {
        let answer = self.seat.count_put(&gate.table, slot, n);
        self.held -= n;
        count_releases(&mut self.releases, answer.released());
        answer
    }

    /// The front, which only grows: it is odd from the confirmation of a kill, or from a dead start, until the revival
    /// stores the next one, just before it clears DEAD.
    #[inline]
    pub fn front(&mut self, gate: &Gate<W>) -> u64
        requires own { self.old.gate ≡ gate.now }
        ensures own { self.new.gate ≡ self.old.gate }
        ensures step { PassStep gate.now events.LoadFront self.old.view self.new.view (Number result) }
        ensures steps { self.new.steps ≡ (events.LoadFront, Number result) ∷ self.old.steps }
        ensures view { self.new.view ≡ record self.old.view { seen_front = result; floor = result; front_loads = self.old.view.front_loads + 1 } }
        ensures floor { self.old.view.floor ≤ result }
        ensures greatest { self.old.view.seen_front ≤ result }
    {
        self.seen_front = self.seat.load_front(&gate.table);
        self.seen_front
    }

    /// Whether one load finds the gate killed and not revived yet. Linux: `percpu_ref_is_dying`
    /// (include/linux/percpu-refcount.h).
    #[inline]
    pub fn is_dying(&mut self, gate: &Gate<W>) -> bool
        requires own { self.old.gate ≡ gate.now }
        ensures own { self.new.gate ≡ self.old.gate }
        ensures step { (look : PassLook gate.now self.old.view self.new.view) × (result ≡ dead_at look.moment) }
        ensures steps { LookSteps (λ s. s.dead) result self.old.steps self.new.steps }
        ensures leaves { LookLeaves self.old.view self.new.view }
        ensures times { self.new.view.found_dead_times ≡ self.old.view.found_dead_times + count result }
        ensures ground { result ≡ true → self.new.view.found_dead ≡ true }
    {
        is_dead(self.seat.look(&gate.table))
    }

    /// Whether one load finds that the count has reached zero since the kill. Linux: `percpu_ref_is_zero`
    /// (lib/percpu-refcount.c).
    #[inline]
    pub fn is_zero(&mut self, gate: &Gate<W>) -> bool
        requires own { self.old.gate ≡ gate.now }
        ensures own { self.new.gate ≡ self.old.gate }
        ensures step { (look : PassLook gate.now self.old.view self.new.view) × (result ≡ zero_at look.moment) }
        ensures steps { LookSteps (λ s. s.zero) result self.old.steps self.new.steps }
        ensures leaves { LookLeaves self.old.view self.new.view }
        ensures times { self.new.view.found_zero_times ≡ self.old.view.found_zero_times + count result }
        ensures ground { result ≡ true → (self.new.view.found_zero ≡ true) × (self.new.view.standing.held ≡ 0) }
    {
        is_zero(self.seat.look(&gate.table))
    }

    /// The guarded word `k`, for a pass that holds a reference. Its value stays the same as long as the pass holds one.
    #[inline]
    pub fn word(&mut self, gate: &Gate<W>, k: u32) -> u64
        requires own { self.old.gate ≡ gate.now }
        requires held { 1 ≤ self.old.view.standing.held }
        requires word { k < W }
        ensures own { self.new.gate ≡ self.old.gate }
        ensures step { PassStep gate.now (events.LoadWord k) self.old.view self.new.view (Number result) }
        ensures steps { self.new.steps ≡ (events.LoadWord k, Number result) ∷ self.old.steps }
        ensures view { self.new.view ≡ record self.old.view { read = record { word = k; value = result } ∷ self.old.view.read } }
        ensures same { (v : ℕ) → HasRead k v self.old.view.read → result ≡ v }
    {
        self.seat.load_word(&gate.table, k)
    }

    /// The seat of a pass that ends, and the number of releases that it won.
    pub(crate) fn into_parts(self) -> (PassSeat, u64)
        ensures seat { (result.0 ≡ self.entry) × (self.entry.view.standing.held ≡ 0 → result.0.view.standing ≡ holding 0) }
        ensures releases { (result.1 ≡ self.entry.view.releases) × (result.1 ≤ 2 * KILL_LIMIT) }
    {
        (self.seat, self.releases)
    }
}
