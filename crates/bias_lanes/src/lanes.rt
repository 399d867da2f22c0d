//! The words and cells that owners and the freezer share.
ghost use Rattle.std.specs.Prelude.{◌≡◌, ◌+◌, ◌*◌, ◌^◌, ◌<◌, [], IfOk, IfSome, is_some};
ghost use Rattle.bias_lanes.specs.Rule.{new_freezer, new_owner};
ghost use Rattle.bias_lanes.specs.Lanes.{AreFirst};
ghost use Rattle.bias_lanes.specs.Seats.{ClaimsIfVacant};

use crate::freezer::Freezer;
use crate::lane::Lane;
use crate::reference::Reference;
use crate::rule::{Claims, Comes, LanesRule};
use crate::views::View;
use atomic_table::Table;
use std::alloc::{AllocError, Global};
use std::marker::Model;

/// The epoch of new lanes.
pub const FIRST_EPOCH: u64 = 2;

/// Index of the epoch's word.
pub(crate) const EPOCH: usize = 0;

/// The word of a cell whose value is in hand: the owner or the freezer has taken it.
pub(crate) const TAKEN: u64 = 0;

/// The word of a cell in which a reference is parked.
pub(crate) const PARKED: u64 = 1;

/// The word of a cell whose lane has no owner yet.
pub(crate) const VACANT: u64 = 2;

/// The words of an epoch and its lanes, and the cells in which references are parked.
#[derive(Drop)]
pub struct Lanes<T: Reference<K>, K> {
    pub(crate) table: Table<Option<T>, View<T, K>, K, LanesRule, Global>,
    count: usize,
}

impl<T: Reference<K>, K> Model for Lanes<T, K> {
    ghost use Rattle.std.specs.Prelude.{◌≡◌, ◌+◌, ◌*◌, ◌^◌, ◌<◌};
    ghost use Rattle.bias_lanes.specs.Seats.{LanesFacts};

    ghost Value = { LanesFacts K };

    ghost view = { λ t. record { id = t.table.shared.table_id; key = t.table.shared.key } };

    ghost invariant = { λ t. (t.table.shared.table_id.slots ≡ t.count) × (t.table.shared.table_id.words ≡ t.count * 2 + 1) × (t.count < 2 ^ 32) };
}

/// Makes the words of new lanes: the epoch, and for each lane 0 and a vacant cell.
fn first_words(alloc: Global, lanes: usize) -> Result<Vec<u64>, AllocError>
    requires { lanes < 2 ^ 32 }
    ensures { IfOk result (λ words. AreFirst lanes words.items) }
{
    let mut words = Vec::with_capacity(alloc, lanes * 2 + 1)?;
    words.push(FIRST_EPOCH)?;
    for _ in 0..lanes {
        words.push(0)?;
        words.push(VACANT)?;
    }
    Ok(words)
}

impl<T: Reference<K>, K> Lanes<T, K> {
    /// Makes this many lanes, none of which has an owner yet, and their freezer. The first epoch is 2. No later call allocates.
    /// Returns `AllocError` if there is no memory.
    pub fn new(
        alloc: Global,
        lanes: usize,
        key: &K,
    ) -> Result<(Lanes<T, K>, Freezer<T, K>), AllocError>
        requires few { lanes < 2 ^ 32 }
        ensures lanes { IfOk result (λ r. (r.0.id.slots ≡ lanes) × (r.0.key ≡ key.now)) }
        ensures freezer { IfOk result (λ r. r.1 ≡ record { lanes = r.0; view = new_freezer; out = [] }) }
    {
        let words = first_words(alloc, lanes)?;
        let (table, seat) = Table::vacant(alloc, words.as_slice(), lanes, key)?;
        let made = Lanes {
            table,
            count: lanes,
        };
        Ok((made, Freezer::new(seat)))
    }

    /// Returns the number of lanes.
    #[inline]
    pub fn count(&self) -> usize
        ensures { result ≡ self.now.id.slots }
    {
        let _ = &self.table;
        self.count
    }

    /// Returns the owner of a lane at the first call for this lane, and `None` from then on.
    pub fn owner(&self, lane: usize) -> Option<Lane<T, K>>
        requires there { lane < self.now.id.slots }
        ensures owner { IfSome result (λ l. l ≡ record { lanes = self.now; view = new_owner lane }) }
        ensures found { ClaimsIfVacant T.fits self.now.key lane (is_some result) }
    {
        let shared = &self.table.shared;
        let (_, mut seat) = shared.load_new_seat::<Comes>(EPOCH);
        let cell = lane * 2 + 2;
        if shared.compare_exchange::<Claims>(&mut seat, cell, VACANT, TAKEN) != VACANT {
            return None;
        }
        Some(Lane::new(seat, lane))
    }
}
