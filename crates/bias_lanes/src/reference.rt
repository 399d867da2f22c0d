//! The values that can be parked.

/// A reference that can be parked in a lane. The lanes were made with a key `K`.
pub trait Reference<K>: Drop {
    // The fact that holds of each value in a cell.
    ghost fits: { K → Self → Type 0 };
}
