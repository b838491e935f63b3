//! The sliced heap: a moving heap with bound 1 whose free leaves its long work, clearing a slot or moving an
//! object, as a job. A slice does at most a quantum of words. Objects in motion can be used: such an
//! object has two halves, one at its new address, one in its old slot.
#![tactic(auto)]

mod access;
mod end;
mod figures;
mod fill;
mod free;
mod half;
mod halves;
mod heap;
mod malloc;
mod next_words;
mod open_heap;
mod slice;

pub use heap::SlicedHeap;
pub use open_heap::{OpenHeap, Pending};
