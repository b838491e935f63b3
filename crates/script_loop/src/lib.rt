//! The loop of every mode that reads a script. It takes chunks from a source, and passes the `heap`
//! line and each command to the mode handler (trait `ModeHandler`), which writes the reply to a
//! sink. It stops at the end, at a bad line, to which it replies itself, at the first fault, if
//! memory runs out at the `heap` line, and if the script is too long. The mode handlers of modes
//! `run` and `save` (`WithSettings`), and laws on scripts over one manager, are here too.
#![tactic(auto)]

mod answering;
mod laws;
mod mode_handler;
mod one_manager;
mod running;
mod with_settings;

pub use laws::{
    chunks_never_matter, every_read_gives_what_was_written, plain_scripts_print_their_transcript,
    settings_are_kept, what_was_cut_is_a_prefix,
};
pub use mode_handler::{ModeHandler, OpenFault};
pub use running::{LIMIT, Script, play_script};
pub use with_settings::WithSettings;
