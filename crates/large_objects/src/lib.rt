//! Objects longer than a page, over any manager with pages. Such an object has a spine, which holds the
//! handles of its parts. A whole part is the largest object that fits a page. Also laws of the
//! heap of such objects (`LargeHeap`).
#![tactic(auto)]

mod access;
mod cut;
mod free;
mod heap;
mod inner_calls;
mod laws;
mod malloc;
mod refusal;
mod spine;

pub use heap::LargeHeap;
pub use laws::{
    a_cause_is_always_refused, long_calls_take_steps_for_parts_and_words,
    pages_in_use_are_those_of_the_inner_objects, parts_are_as_many_as_needed,
    what_is_written_is_read,
};
