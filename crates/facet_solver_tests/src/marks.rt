//! Marks, by which the guard of the sweep (`sweep/guard.c`) knows where the tests stand.
//!
//! A mark is a request for memory of a size that nothing else asks for, given back at once. The
//! guard has the same sizes. Where there is no guard a mark does nothing, and whether it is refused
//! does not matter.

use std::alloc::{AllocError, Global};

const BEGIN: usize = 1_000_003;

const NO_REQUEST: usize = 1_000_005;

const HELD: usize = 1_000_007;

const OUT_OF_MEMORY: usize = 1_000_009;

/// From here on requests and held bytes are counted.
pub fn begin(alloc: Global) {
    mark(alloc, BEGIN);
}

/// Nothing was requested since `begin`.
pub fn no_request(alloc: Global) {
    mark(alloc, NO_REQUEST);
}

/// How many bytes more than at `begin` were held at once is asked for.
pub fn held(alloc: Global) {
    mark(alloc, HELD);
}

/// A call said that it was out of memory, so some request was refused.
pub fn out_of_memory(alloc: Global) {
    mark(alloc, OUT_OF_MEMORY);
}

fn mark(alloc: Global, size: usize) {
    let _mark: Result<Vec<u8>, AllocError> = Vec::with_capacity(alloc, size);
}
