//! The model of the sliced heap: its state, its calls and the order that they may follow, the words
//! of its region while a job is pending, and lists of calls of several tasks. The public functions
//! do nothing: their contracts are laws of these definitions.
#![tactic(auto)]

mod job_slot;
mod jobs;
mod kept;
mod order;
mod places;
mod refusals;
mod room;
mod runs;
mod words;

pub use job_slot::JobSlot;
pub use jobs::{
    a_busy_malloc_succeeds_after_the_slices, a_job_advances_by_its_slices,
    a_job_ends_after_its_words_over_the_quantum, each_malloc_between_prolongs_a_job_once,
    slices_alone_end_every_job,
};
pub use kept::{
    a_free_keeps_the_rules, a_malloc_keeps_the_rules, a_slice_keeps_the_rules,
    a_write_keeps_the_rules, an_empty_sliced_heap_keeps_the_rules, what_the_rules_say_of_pages,
};
pub use order::{
    a_call_keeps_an_order, a_malloc_can_follow_an_order_beside_a_job, a_slice_can_follow_an_order,
    a_sliced_free_can_follow_an_order, an_order_leaves_no_choice_beside_a_job,
    rising_numbers_are_an_order,
};
pub use places::places_are_those_beside_the_job;
pub use refusals::{SliceFault, SliceRefusal};
pub use room::{
    a_free_has_one_answer, a_malloc_has_one_answer, a_malloc_is_busy_only_with_a_job,
    a_malloc_with_a_slot_left_is_not_refused_space, a_slice_can_always_be_done,
    no_malloc_is_busy_with_a_spare_page, when_no_slot_is_left,
};
pub use runs::{an_empty_heap_is_consistent, calls_of_all_tasks_are_those_of_one_map};
pub use words::{
    bytes_are_read_where_they_lie, words_after_each_call, words_are_the_image_but_for_the_job,
};
