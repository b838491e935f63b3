//! The body of the two managers with blocks: each object has a block of its own. A `FitPolicy`
//! chooses the free lists of TLSF (2004) or those of Half-Fit (1995).
#![tactic(auto)]

mod access;
mod figures;
mod fit_policy;
mod free;
mod malloc;
mod manager;
mod open_heap;

pub use fit_policy::FitPolicy;
pub use manager::TagHeap;
