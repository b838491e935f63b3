//! An open heap of any manager in a block of memory whose address a caller in C holds: its calls,
//! their codes, results and most steps, and the pages that a program needs. The libraries
//! `norphuen`, `norphuen_nonmoving`, `norphuen_tlsf` and `norphuen_half` export them, each for one
//! manager.
#![tactic(auto)]

mod class_bound;
mod counts;
pub mod half;
mod held;
pub mod laws;
mod loose;
mod loose_tag;
pub mod most;
pub mod moving;
pub mod nonmoving;
mod of_kind;
mod pages;
mod slots;
pub mod tlsf;
mod walk;

pub use c_base::{
    CLOSED, NphClass, NphCounted, NphFreed, NphHeapTotals, NphNeeded, NphResized, VERSION,
};
pub use pages::pages_needed;
pub use sizing::Need as NphNeed;
