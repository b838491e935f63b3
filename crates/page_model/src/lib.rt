//! Arrangements of objects on pages, as in Compact-fit (2008). An arrangement maps the number of
//! each object to its address and its bytes. The model defines when one is sound, how a malloc, a
//! free and a resize change it, its words and its block table, the order that they may follow,
//! their steps, and figures. The public functions do nothing; each contract is a law of these
//! definitions.
#![tactic(auto)]

mod blocks;
mod classes;
mod counts;
mod figures;
mod order;
mod room;
mod soundness;
mod words;

pub use blocks::{
    blocks_of_others_stay, frames_stay_permuted, live_objects_share_no_block,
    slots_are_in_their_blocks,
};
pub use classes::{
    a_class_holds_its_requests, slot_sizes_rise, slots_are_few_and_in_blocks, slots_have_addresses,
};
pub use counts::{
    can_hold_is_a_test, most_pages_is_the_greatest, one_page_count_at_bound_one,
    pages_are_within_the_bound,
};
pub use figures::{figures_after_adding, figures_after_removing, pages_and_objects_add_up};
pub use order::{
    a_free_can_follow_an_order, a_malloc_can_follow_an_order, a_resize_can_follow_an_order,
    an_order_leaves_no_choice,
};
pub use room::{
    lack_of_room_is_arithmetic_at_bound_one, lack_of_room_is_no_page_left,
    objects_need_no_more_pages, pages_are_those_needed_at_bound_one, pages_where_room_is_lacking,
};
pub use soundness::{
    a_free_keeps_soundness, a_malloc_keeps_soundness, a_resize_in_two_steps,
    a_resize_keeps_soundness, counts_after_a_free, counts_after_a_malloc,
    nothing_is_a_sound_arrangement, objects_after_a_step, page_counts_follow_one_page,
    page_counts_of_a_sound_arrangement,
};
pub use words::{
    a_part_is_written, a_word_is_its_bytes, bytes_are_read_back, headers_show_number_and_length,
    held_at_has_places, objects_determine_words, objects_stay_storable, words_after_a_free,
    words_after_a_malloc, words_after_a_resize, words_after_a_write, words_show_what_is_held,
};
