// What a call of the program has to work with.

use std::alloc::Global;

/// Threads to work in, a gate that stages call round their work, and memory.
#[derive(Clone, Copy)]
pub struct Host<'h, R, G> {
    pub rt: &'h R,
    pub gate: &'h G,
    pub alloc: Global,
}
