//! A pool of free pages (`PagePool`), last in, first out. Taking a page costs one step, and
//! returning one costs one.
#![tactic(auto)]

mod pool;

pub use pool::PagePool;
