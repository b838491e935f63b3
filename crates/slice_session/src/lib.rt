//! Mode `slice`: a session does a script's commands on a sliced heap, and maps the script's ids to
//! handles. The command `f` begins a job and does its first slice; each `s` does one more slice.
//! Also the mode's handler (`SliceHandler`), and laws of the replies.
#![tactic(auto)]

mod commands;
mod laws;
mod mode_handler;
mod session;

pub use laws::{
    a_sliced_run_can_always_go_on, each_command_has_its_turn, one_sliced_output,
    one_sliced_transcript, plays_are_runs, reads_give_what_was_written, replies_show_their_causes,
    the_sliced_headline, what_was_cut_is_a_prefix, who_is_busy_and_how_long,
    wrong_sliced_replies_fall_short,
};
pub use mode_handler::SliceHandler;
pub use session::SliceSession;
