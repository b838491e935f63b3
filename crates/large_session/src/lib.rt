//! Mode `large`: a session does a script's commands on a heap whose objects may be longer than a
//! page, and maps the script's ids to handles. The laws say what is claimed of every script, by its
//! lines and their replies alone.
#![tactic(auto)]

mod commands;
mod laws;
mod mode_handler;
mod session;

pub use laws::{
    a_run_on_long_objects_can_go_on, each_command_has_its_turn, reads_give_what_was_written,
    the_large_headline, what_was_cut_is_a_prefix, wrong_large_replies_fall_short,
};
pub use mode_handler::LargeHandler;
pub use session::LargeSession;
