//! The owner of a lane.
ghost use Rattle.std.specs.Prelude.{◌≡◌, ◌+◌, ◌*◌, ◌%◌, ◌^◌, ◌<◌, true, Some, None, if◌then◌else◌, is_some, IfOk, IfErr, OnErr, IfSome};
ghost use Rattle.bias_lanes.specs.declared.views.Stage.TheVariants.{Unbiased, Parked, Idle, Trying, Entered, Leaving, Over};
ghost use Rattle.bias_lanes.specs.Rule.{begun, has_parked, new_owner};
ghost use Rattle.bias_lanes.specs.Seats.{at, parking, lane_me, owner_view, CanRest, CanEnd, LooksAtEpoch, FindsParked, LoadsEpoch, TakesIfParked};

use crate::lanes::{EPOCH, Lanes, PARKED, TAKEN};
use crate::reference::Reference;
use crate::rule::{Begins, Confirms, GivesUp, Parks, SaysBusy, SaysIdle, Stays, TakesBack};
use crate::views::{Stage, View};
use atomic_table::Seat;
use std::marker::Model;

/// The owner of a lane. It moves between threads by ownership.
///
/// Dropping the owner while its reference is parked leaves the reference parked, until the freezer reclaims it.
#[derive(Drop)]
pub struct Lane<T, K> {
    seat: Seat<Option<T>, View<T, K>>,
    lane: usize,
    bias: u64,
    stage: Stage,
}

impl<T, K> Model for Lane<T, K> {
    ghost use Rattle.std.specs.Prelude.{◌≡◌, ◌+◌, ◌*◌, ◌^◌, ◌<◌};
    ghost use Rattle.bias_lanes.specs.Seats.{LaneFacts, lane_of, lane_me};

    ghost Value = { LaneFacts T K };

    ghost view = { λ l. record { lanes = record { id = l.seat.table_id; key = l.seat.me.0.key }; view = lane_of l.seat.me.0.part } };

    ghost use Rattle.bias_lanes.specs.Seats.{IsOwner};

    ghost invariant = { λ l. IsOwner l.seat.table_id l.seat.me l.lane l.bias l.stage };
}

impl<T: Reference<K>, K> Lane<T, K> {
    /// Makes the owner of a lane that had none.
    pub(crate) fn new(seat: Seat<Option<T>, View<T, K>>, lane: usize) -> Lane<T, K>
        requires seat { seat.me ≡ lane_me seat.me.0.key (new_owner lane) }
        requires there { lane < seat.table_id.slots }
        requires size { seat.table_id.words ≡ seat.table_id.slots * 2 + 1 }
        requires few { seat.table_id.slots < 2 ^ 32 }
        ensures { result ≡ record { lanes = record { id = seat.table_id; key = seat.me.0.key }; view = new_owner lane } }
    {
        Lane {
            seat,
            lane,
            bias: 0,
            stage: Stage::Unbiased,
        }
    }

    /// Returns the lane's number.
    #[inline]
    pub fn number(&self) -> usize
        ensures { result ≡ self.now.view.lane }
    {
        let _ = &self.seat;
        self.lane
    }

    /// Returns the owner's stage without a load. If a freeze has ended the bias, the stage stays `Idle` until the owner enters.
    #[inline]
    pub fn stage(&self) -> Stage
        ensures { result ≡ self.now.view.stage }
    {
        let _ = &self.seat;
        self.stage
    }

    /// Loads the epoch before the owner parks.
    fn load_epoch(&mut self, lanes: &Lanes<T, K>) -> u64
        requires own { self.old.lanes ≡ lanes.now }
        requires unbiased { self.old.view.stage ≡ Unbiased }
        ensures view { self.new ≡ record self.old { view = begun result self.old.view } }
        ensures found { LoadsEpoch T.fits self.old result }
    {
        let shared = &lanes.table.shared;
        let epoch = shared.load::<Begins>(&mut self.seat, EPOCH);
        self.bias = epoch - epoch % 2;
        epoch
    }

    /// Puts a reference into the cell.
    fn fill_cell(&mut self, lanes: &Lanes<T, K>, reference: T)
        requires own { self.old.lanes ≡ lanes.now }
        requires unbiased { self.old.view.stage ≡ Unbiased }
        requires fits { T.fits lanes.now.key reference }
        ensures { self.new ≡ record self.old { view = has_parked (Some reference) self.old.view } }
    {
        let shared = &lanes.table.shared;
        let cell = self.lane * 2 + 2;
        let _empty = shared.exchange(&mut self.seat, self.lane, Some(reference));
        shared.store::<Parks>(&mut self.seat, cell, PARKED);
        self.stage = Stage::Parked;
    }

    /// Stores that the lane is idle, and returns whether the epoch is still that of the bias.
    ///
    /// The stage is stored before the two steps, so that entering and leaving store it once each while the bias lasts.
    #[inline]
    fn rest(&mut self, lanes: &Lanes<T, K>) -> bool
        requires own { self.old.lanes ≡ lanes.now }
        requires stage { CanRest self.old.view.stage }
        ensures view { self.new ≡ at (if result then Idle else Over) self.old }
        ensures found { LooksAtEpoch T.fits (at Leaving self.old) result }
    {
        let word = self.lane * 2 + 1;
        let shared = &lanes.table.shared;
        self.stage = Stage::Idle;
        shared.store::<SaysIdle>(&mut self.seat, word, self.bias);
        if shared.load::<Stays>(&mut self.seat, EPOCH) == self.bias {
            return true;
        }
        self.stage = Stage::Over;
        false
    }

    /// Stores that the lane has no bias.
    fn give_up(&mut self, lanes: &Lanes<T, K>)
        requires own { self.old.lanes ≡ lanes.now }
        requires stage { CanEnd self.old.view.stage }
        ensures { self.new ≡ at Parked self.old }
    {
        let word = self.lane * 2 + 1;
        let shared = &lanes.table.shared;
        shared.store::<GivesUp>(&mut self.seat, word, 0);
        self.stage = Stage::Parked;
    }

    /// Takes the reference from the cell, unless the freezer has it in hand.
    fn empty_cell(&mut self, lanes: &Lanes<T, K>) -> Option<T>
        requires own { self.old.lanes ≡ lanes.now }
        requires parked { self.old.view.stage ≡ Parked }
        ensures fits { IfSome result (λ x. T.fits lanes.now.key x) }
        ensures view { self.new ≡ at (if is_some result then Unbiased else Parked) self.old }
        ensures found { TakesIfParked T.fits (owner_view self.old) self.old.view.lane result }
    {
        let shared = &lanes.table.shared;
        let cell = self.lane * 2 + 2;
        if shared.compare_exchange::<TakesBack>(&mut self.seat, cell, PARKED, TAKEN) != PARKED {
            return None;
        }
        self.stage = Stage::Unbiased;
        shared.exchange(&mut self.seat, self.lane, None)
    }

    /// Parks a reference, or returns it as an error if the epoch is odd. Returns whether the lane is biased. If it isn't, the epoch
    /// has changed meanwhile, and the caller has to call [`Lane::take_back`].
    pub fn park(&mut self, lanes: &Lanes<T, K>, reference: T) -> Result<bool, T>
        requires own { self.old.lanes ≡ lanes.now }
        requires unbiased { self.old.view.stage ≡ Unbiased }
        requires fits { T.fits lanes.now.key reference }
        ensures loaded { IfOk result (λ _. LoadsEpoch T.fits self.old self.new.view.bias) }
        ensures parked { IfOk result (λ biased. self.new ≡ at (if biased then Idle else Over) (parking reference self.new.view.bias self.old)) }
        ensures found { IfOk result (λ biased. LooksAtEpoch T.fits (at Leaving (parking reference self.new.view.bias self.old)) biased) }
        ensures frozen { IfErr result (λ _. LoadsEpoch T.fits self.old (self.new.view.bias + 1)) }
        ensures even { self.new.view.bias % 2 ≡ 0 }
        ensures back { IfErr result (λ r. r ≡ reference) }
        ensures unbiased { OnErr result (self.new ≡ record self.old { view = begun (self.new.view.bias + 1) self.old.view }) }
    {
        if self.load_epoch(lanes) % 2 == 1 {
            return Err(reference);
        }
        self.fill_cell(lanes, reference);
        Ok(self.rest(lanes))
    }

    /// Enters, and returns whether the request is in. If it isn't, the bias is over.
    #[inline]
    pub fn enter(&mut self, lanes: &Lanes<T, K>) -> bool
        requires own { self.old.lanes ≡ lanes.now }
        requires idle { self.old.view.stage ≡ Idle }
        ensures view { self.new ≡ at (if result then Entered else Over) self.old }
        ensures found { LooksAtEpoch T.fits (at Trying self.old) result }
        ensures held { result ≡ true → FindsParked T.fits (at Trying self.old) }
    {
        let word = self.lane * 2 + 1;
        let shared = &lanes.table.shared;
        self.stage = Stage::Entered;
        shared.store::<SaysBusy>(&mut self.seat, word, self.bias + 1);
        if shared.load::<Confirms>(&mut self.seat, EPOCH) == self.bias {
            return true;
        }
        self.stage = Stage::Over;
        false
    }

    /// Leaves, and returns whether the lane is still biased. If it isn't, the bias is over.
    #[inline]
    pub fn leave(&mut self, lanes: &Lanes<T, K>) -> bool
        requires own { self.old.lanes ≡ lanes.now }
        requires entered { self.old.view.stage ≡ Entered }
        ensures view { self.new ≡ at (if result then Idle else Over) self.old }
        ensures found { LooksAtEpoch T.fits (at Leaving self.old) result }
    {
        self.rest(lanes)
    }

    /// Ends the bias of an owner that has no request in, and returns its reference. Returns `None` if the freezer has the reference in
    /// hand: call again once the freezer has put it back.
    pub fn take_back(&mut self, lanes: &Lanes<T, K>) -> Option<T>
        requires own { self.old.lanes ≡ lanes.now }
        requires stage { CanEnd self.old.view.stage }
        ensures fits { IfSome result (λ x. T.fits lanes.now.key x) }
        ensures view { self.new ≡ at (if is_some result then Unbiased else Parked) self.old }
        ensures found { TakesIfParked T.fits (owner_view (at Parked self.old)) self.old.view.lane result }
    {
        self.give_up(lanes);
        self.empty_cell(lanes)
    }
}
