//! What carries commands out.

use std::alloc::Global;

/// What carries commands out: the runtime that starts threads and waits for them, the allocator,
/// the gate that makes transitions, and the number of workers, from 1 to 64.
#[derive(Drop)]
pub struct Executor<'a, R, G> {
    pub rt: &'a R,
    pub alloc: Global,
    pub gate: &'a G,
    pub workers: u8,
}
