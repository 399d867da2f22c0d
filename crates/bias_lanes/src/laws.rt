//! The laws of lanes, which hold at each moment. The functions do nothing; their contracts are the laws.
ghost use Rattle.bias_lanes.specs.Laws.{EnteredIsParked, OutStaysOut, WatchedIsNotAtRest, BiasIsEven};

use crate::reference::Reference;

/// While a request is in, the reference that its owner parked is in its cell, at every moment that any seat can see.
pub fn entered_is_parked<T: Reference<K>, K>()
    ensures { EnteredIsParked T.fits }
{}

/// Until the next epoch, an owner that a look found to be out has no request in, and can't enter by its bias.
pub fn out_stays_out<T: Reference<K>, K>()
    ensures { OutStaysOut T.fits }
{}

/// Until the next epoch, an owner that a look found busy is never idle, and its bias, if it has one, isn't of the current epoch.
pub fn watched_is_not_at_rest<T: Reference<K>, K>()
    ensures { WatchedIsNotAtRest T.fits }
{}

/// A bias has an even epoch, no later than the current one.
pub fn bias_is_even<T: Reference<K>, K>()
    ensures { BiasIsEven T.fits }
{}
