//! The heavy fence.
use std::marker::Model;

/// The fact that the heavy fence was issued in an epoch.
#[derive(Drop)]
pub struct Fenced {
    pub(crate) epoch: u64,
}

impl Model for Fenced {
    ghost use Rattle.std.specs.Prelude.{ℕ};

    ghost Value = { ℕ };

    ghost view = { λ f. f.epoch };
}

/// Orders the freezer's store of the epoch and its looks with the owners' stores and loads.
///
/// Each step is sequentially consistent here, so there is nothing to do. If the owners' steps are weaker, this is a
/// barrier for all processors: each owner's store is visible to the looks, or the owner finds the new epoch.
pub(crate) fn heavy_fence() {}
