//! The heap of mode `quota`: a moving heap with bound 1 that sixteen tasks share, each with its own objects,
//! handles, page lists and quota, the most pages that it may use. No page has objects of two tasks.
#![tactic(auto)]

mod free;
mod heap;
mod malloc;
mod open_tasks;
mod shared_pages;
mod task;

pub use cf_base::{AccessFault, Figures, Freed, Handle, NotLive, OutOfMemory, Refusal, Settings};
pub use heap::QuotaHeap;
pub use quota_model::QuotaFault;
