//! Half-Fit (1995): its free lists (`HalfFitBuckets`), and the manager with them (`HalfFitHeap`).
#![tactic(auto)]

mod buckets;
mod heap;

pub use buckets::HalfFitBuckets;
pub use heap::HalfFitHeap;
