//! The mode in which a gate counts.

/// How a live gate counts references, and how a dead one will once it is revived. Linux: `__PERCPU_REF_ATOMIC` set or
/// clear (include/linux/percpu-refcount.h).
#[derive(Clone, Copy, Debug, PartialEq, Eq, Hash)]
pub enum Mode {
    /// On the shared word alone, with every slot closed.
    Atomic,
    /// On slots, all of which are open.
    Slots,
}
