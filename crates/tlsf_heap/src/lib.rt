//! TLSF (2004): its free lists (`TlsfBuckets`), and the manager with them (`TlsfHeap`).
#![tactic(auto)]

mod buckets;
mod heap;

pub use buckets::TlsfBuckets;
pub use heap::TlsfHeap;
