//! The rule of the table, and the facts that each step gives its caller.
ghost use Rattle.std.specs.Prelude.{◌≡◌};
ghost use Rattle.bias_lanes.specs.declared.views.Stage.TheVariants.{Parked, Trying, Leaving, Unbiased};
ghost use Rattle.bias_lanes.specs.Rule.{on_lane, on_freezer, at_stage, begun, has_parked, confirmed, stayed, at_epoch, looked, nobody};
ghost use Rattle.bias_lanes.specs.Steps.{Found, Stored, Gave, Took, Claimed, lane_of_word};

use crate::reference::Reference;
use crate::views::View;
use atomic_table::{Play, TableRule};

pub(crate) struct LanesRule;

impl<T: Reference<K>, K> TableRule<Option<T>, View<T, K>, K> for LanesRule {
    ghost use Rattle.bias_lanes.specs.Rule.{Ruled, first_view};

    ghost holds = { Ruled T.fits };

    ghost first = { first_view };
}

pub(crate) struct Comes;

impl<T: Reference<K>, K> Play<Option<T>, View<T, K>> for Comes {
    ghost then = { λ s me n new. new ≡ (nobody me.0.key, me.1) };
}

pub(crate) struct Claims;

impl<T: Reference<K>, K> Play<Option<T>, View<T, K>> for Claims {
    ghost then = { λ s. Claimed T.fits (lane_of_word s.word) };
}

pub(crate) struct Begins;

impl<T: Reference<K>, K> Play<Option<T>, View<T, K>> for Begins {
    ghost then = { λ s. Found T.fits (λ n. on_lane (begun n)) s.word };
}

pub(crate) struct Parks;

impl<T: Reference<K>, K> Play<Option<T>, View<T, K>> for Parks {
    ghost then = { λ s. Gave T.fits (λ x. on_lane (has_parked x)) };
}

pub(crate) struct SaysIdle;

impl<T: Reference<K>, K> Play<Option<T>, View<T, K>> for SaysIdle {
    ghost then = { λ s. Stored T.fits (on_lane (at_stage Leaving)) };
}

pub(crate) struct Stays;

impl<T: Reference<K>, K> Play<Option<T>, View<T, K>> for Stays {
    ghost then = { λ s. Found T.fits (λ n. on_lane (stayed n)) s.word };
}

pub(crate) struct SaysBusy;

impl<T: Reference<K>, K> Play<Option<T>, View<T, K>> for SaysBusy {
    ghost then = { λ s. Stored T.fits (on_lane (at_stage Trying)) };
}

pub(crate) struct Confirms;

impl<T: Reference<K>, K> Play<Option<T>, View<T, K>> for Confirms {
    ghost then = { λ s. Found T.fits (λ n. on_lane (confirmed n)) s.word };
}

pub(crate) struct GivesUp;

impl<T: Reference<K>, K> Play<Option<T>, View<T, K>> for GivesUp {
    ghost then = { λ s. Stored T.fits (on_lane (at_stage Parked)) };
}

pub(crate) struct TakesBack;

impl<T: Reference<K>, K> Play<Option<T>, View<T, K>> for TakesBack {
    ghost then = { λ s. Took T.fits (on_lane (at_stage Unbiased)) (lane_of_word s.word) };
}

pub(crate) struct StoresEpoch;

impl<T: Reference<K>, K> Play<Option<T>, View<T, K>> for StoresEpoch {
    ghost then = { λ s. Stored T.fits (on_freezer (at_epoch s.slots s.first)) };
}

pub(crate) struct Looks;

impl<T: Reference<K>, K> Play<Option<T>, View<T, K>> for Looks {
    ghost then = { λ s. Found T.fits (λ n. on_freezer (looked (lane_of_word s.word) n)) s.word };
}

pub(crate) struct Reclaims;

impl<T: Reference<K>, K> Play<Option<T>, View<T, K>> for Reclaims {
    ghost then = { λ s. Took T.fits (λ v. v) (lane_of_word s.word) };
}

pub(crate) struct Restores;

impl<T: Reference<K>, K> Play<Option<T>, View<T, K>> for Restores {
    ghost then = { λ s. Gave T.fits (λ x v. v) };
}
