//! Memory managers: the trait `Manager` with the contract of each call, bounds on the steps of calls
//! (`StepBounds` and constants), the state of a manager that contracts see (`HeapState`), laws that follow
//! from the contracts, the bytes that a heap uses (`Usage`), and opening every manager of a list; and
//! `Boxed`, a manager of any kind behind a box.
#![tactic(auto)]

mod boxed;
pub mod laws;
mod manager;
mod opening;
mod usage;

pub use boxed::Boxed;
pub use manager::{FREE_BOUND, MALLOC_BOUND, Manager, RESIZE_BOUND, StepBounds};
pub use opening::open_all;
pub use usage::Usage;
