//! The unique number of a gate or a queue.

/// The address of the counter that drew the number, and the number drawn. No counter draws a number twice, and no two
/// counters have the same address. So two gates, or two queues, of one number are the same.
#[derive(Clone, Copy)]
#[repr(C)]
pub struct DrawnNumber {
    pub counter: u64,
    pub drawn: u64,
}
