//! The freezer of lanes.
ghost use Rattle.std.specs.Prelude.{◌≡◌, ◌+◌, ◌*◌, ◌%◌, ◌^◌, ◌<◌, [], ◌∷◌, true, None, if◌then◌else◌, is_some, IfSome};
ghost use Rattle.bias_lanes.specs.declared.views.Mark.TheVariants.{Watched, Out};
ghost use Rattle.bias_lanes.specs.Rule.{at_epoch, mark_at, new_freezer, first_view};
ghost use Rattle.bias_lanes.specs.Seats.{freezer_view, LooksAt, TakesIfParked, FindsBusy};

use crate::fence::{Fenced, heavy_fence};
use crate::lanes::{EPOCH, FIRST_EPOCH, Lanes, PARKED, TAKEN};
use crate::reference::Reference;
use crate::rule::{Looks, Reclaims, Restores, StoresEpoch};
use crate::views::View;
use atomic_table::Seat;
use std::marker::Model;

/// The one freezer of these lanes. Threads share it under a lock, or it moves between them by ownership.
#[derive(Drop)]
pub struct Freezer<T, K> {
    seat: Seat<Option<T>, View<T, K>>,
    epoch: u64,
}

impl<T, K> Model for Freezer<T, K> {
    ghost use Rattle.bias_lanes.specs.Seats.{FreezerFacts, freezer_of, IsFreezer};

    ghost Value = { FreezerFacts T K };

    ghost view = { λ f. record { lanes = record { id = f.seat.table_id; key = f.seat.me.0.key }; view = freezer_of f.seat.me.0.part; out = f.seat.me.1 } };

    ghost invariant = { λ f. IsFreezer f.seat.table_id f.seat.me f.epoch };
}

impl<T: Reference<K>, K> Freezer<T, K> {
    /// The freezer of new lanes.
    pub(crate) fn new(seat: Seat<Option<T>, View<T, K>>) -> Freezer<T, K>
        requires seat { seat.me ≡ (first_view seat.me.0.key, []) }
        requires size { seat.table_id.words ≡ seat.table_id.slots * 2 + 1 }
        requires few { seat.table_id.slots < 2 ^ 32 }
        ensures { result ≡ record { lanes = record { id = seat.table_id; key = seat.me.0.key }; view = new_freezer; out = [] } }
    {
        Freezer {
            seat,
            epoch: FIRST_EPOCH,
        }
    }

    /// Returns the epoch: even if requests may enter, odd if they are frozen.
    #[inline]
    pub fn epoch(&self) -> u64
        ensures { result ≡ self.now.view.epoch }
    {
        let _ = &self.seat;
        self.epoch
    }

    /// Stores the next epoch.
    fn next_epoch(&mut self, lanes: &Lanes<T, K>)
        requires own { self.old.lanes ≡ lanes.now }
        requires few { self.old.view.epoch < 2 ^ 63 }
        ensures { self.new ≡ record self.old { view = at_epoch lanes.now.id.slots (self.old.view.epoch + 1) self.old.view } }
    {
        let next = self.epoch + 1;
        let shared = &lanes.table.shared;
        shared.store::<StoresEpoch>(&mut self.seat, EPOCH, next);
        self.epoch = next;
    }

    /// Freezes: after this call no request enters by a lane. The caller then has to look at each lane.
    pub fn freeze(&mut self, lanes: &Lanes<T, K>)
        requires own { self.old.lanes ≡ lanes.now }
        requires live { self.old.view.epoch % 2 ≡ 0 }
        requires few { self.old.view.epoch < 2 ^ 63 }
        ensures { self.new ≡ record self.old { view = at_epoch lanes.now.id.slots (self.old.view.epoch + 1) self.old.view } }
    {
        self.next_epoch(lanes);
    }

    /// Thaws: owners can be biased again.
    pub fn thaw(&mut self, lanes: &Lanes<T, K>)
        requires own { self.old.lanes ≡ lanes.now }
        requires frozen { self.old.view.epoch % 2 ≡ 1 }
        requires few { self.old.view.epoch < 2 ^ 63 }
        requires back { self.old.out ≡ [] }
        ensures { self.new ≡ record self.old { view = at_epoch lanes.now.id.slots (self.old.view.epoch + 1) self.old.view } }
    {
        self.next_epoch(lanes);
    }

    /// Issues the heavy fence, which the looks of this epoch need.
    pub fn fence(&self) -> Fenced
        ensures { result ≡ self.now.view.epoch }
    {
        let _ = &self.seat;
        heavy_fence();
        Fenced { epoch: self.epoch }
    }

    /// Looks at a lane during a freeze, behind a fence of this epoch, and returns whether it is busy. The owner of a busy lane is watched
    /// from then on. Any other owner is out, and its reference can be reclaimed.
    pub fn look(&mut self, lanes: &Lanes<T, K>, lane: usize, fenced: &Fenced) -> bool
        requires own { self.old.lanes ≡ lanes.now }
        requires fenced { fenced.now ≡ self.old.view.epoch }
        requires there { lane < lanes.now.id.slots }
        requires frozen { self.old.view.epoch % 2 ≡ 1 }
        ensures looks { LooksAt T.fits lane self.old self.new }
        ensures mark { mark_at self.new.view lane ≡ (if result then Watched else Out) }
        ensures busy { result ≡ true → FindsBusy T.fits self.new }
    {
        let _ = fenced;
        let shared = &lanes.table.shared;
        let word = lane * 2 + 1;
        shared.load::<Looks>(&mut self.seat, word) % 2 == 1
    }

    /// Takes the reference that is parked in the cell of an owner that is out, if there is one. Put it back by [`Freezer::restore`].
    pub fn reclaim(&mut self, lanes: &Lanes<T, K>, lane: usize) -> Option<T>
        requires own { self.old.lanes ≡ lanes.now }
        requires there { lane < lanes.now.id.slots }
        requires out { mark_at self.old.view lane ≡ Out }
        requires empty { self.old.out ≡ [] }
        ensures fits { IfSome result (λ x. T.fits lanes.now.key x) }
        ensures view { self.new ≡ record self.old { out = if is_some result then (lane, None) ∷ [] else [] } }
        ensures found { TakesIfParked T.fits (freezer_view self.old) lane result }
    {
        let shared = &lanes.table.shared;
        let cell = lane * 2 + 2;
        if shared.compare_exchange::<Reclaims>(&mut self.seat, cell, PARKED, TAKEN) != PARKED {
            return None;
        }
        shared.exchange(&mut self.seat, lane, None)
    }

    /// Puts a reference back into the cell that it was reclaimed from.
    pub fn restore(&mut self, lanes: &Lanes<T, K>, lane: usize, reference: T)
        requires own { self.old.lanes ≡ lanes.now }
        requires there { lane < lanes.now.id.slots }
        requires out { mark_at self.old.view lane ≡ Out }
        requires reclaimed { self.old.out ≡ (lane, None) ∷ [] }
        requires fits { T.fits lanes.now.key reference }
        ensures { self.new ≡ record self.old { out = [] } }
    {
        let shared = &lanes.table.shared;
        let cell = lane * 2 + 2;
        let _empty = shared.exchange(&mut self.seat, lane, Some(reference));
        shared.store::<Restores>(&mut self.seat, cell, PARKED);
    }
}
