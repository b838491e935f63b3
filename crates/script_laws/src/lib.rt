//! What is claimed of the replies to every script in modes `run` and `compare`, by its lines and
//! replies alone (`MeetsHeadline`), and the transcript: with pages, the replies if every bound is 1
//! and no command asks for an address or a cost, as a function of the kind and the script.
//! `ObjectRun` defines the runs of a session over any heap of objects, by the calls of the heap.
//! The public functions do nothing: the contract of each is a theorem on runs or on the headline.
#![tactic(auto)]

mod headline;
mod runs;

pub use headline::{
    at_bound_one_the_headline_is_the_transcript, equal_objects_get_equal_replies, one_output,
    one_transcript, the_headline, the_output_shows_the_replies, wrong_replies_fall_short,
};
pub use runs::{a_run_can_always_go_on, reads_give_what_was_written};
