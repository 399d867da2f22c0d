//! The views of the seats at the table.

use std::collections::LinkedList;

/// The stage of an owner.
#[derive(Clone, Copy, Debug, PartialEq, Eq)]
pub enum Stage {
    /// The owner has its reference in hand, and its lane's word is 0.
    Unbiased,
    /// The owner's reference was parked, and its lane's word is 0.
    Parked,
    /// The lane is idle, and the owner has no request.
    Idle,
    /// The lane is busy, and the owner hasn't loaded the epoch yet.
    Trying,
    /// The owner's request is in. The lane is busy.
    Entered,
    /// The lane is idle, and the owner hasn't loaded the epoch yet.
    Leaving,
    /// The owner has found another epoch, and its lane is still idle or busy.
    Over,
}

/// What the freezer knows of a lane's owner, in the epoch that it stored last. Ghost: it has no values at run time.
#[derive(Clone, Copy, Debug, PartialEq, Eq)]
pub enum Mark {
    /// The freezer hasn't looked at the lane.
    Unseen,
    /// The lane was busy. The owner will find that its bias is over.
    Watched,
    /// The owner has no request in, and can't enter.
    Out,
}

/// What an owner knows. Ghost: it has no values at run time.
pub struct LaneView<T> {
    pub lane: usize,
    /// The epoch that it loaded last before it parked its reference.
    pub bias: u64,
    pub stage: Stage,
    /// The reference that it parked last.
    pub parked: Option<T>,
}

/// What the freezer knows. Ghost: it has no values at run time.
pub struct FreezerView {
    pub epoch: u64,
    pub marks: LinkedList<Mark>,
}

/// The part of a seat: that of the freezer or of an owner. Ghost: it has no values at run time.
pub enum Part<T> {
    OfFreezer(FreezerView),
    OfLane(LaneView<T>),
    OfNobody,
}

/// What a seat knows: the key with which its lanes were made, and its part. Ghost: it has no values at run time.
pub struct View<T, K> {
    pub key: K,
    pub part: Part<T>,
}
