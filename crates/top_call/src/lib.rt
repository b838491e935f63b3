//! The top call `cf_main`: parses the arguments and runs the mode that they choose, over any source, any sink
//! and any managers. `cf_tool` calls it with standard input and output. Each of the eight modes has a function.
//! In mode `compare` many managers run a script side by side: each has a session; each command is done on one
//! after the other, and each line of a reply begins with the name of the manager's kind. Laws of arguments,
//! images and calls are here too.
#![tactic(auto)]

mod answer;
mod argument_laws;
mod bench;
mod choice;
mod command;
mod compare;
mod figures;
mod first_of_kind;
mod image_laws;
mod image_script;
mod images;
mod large;
pub mod laws;
mod load;
mod open_reply;
mod quota;
mod reading;
mod run;
mod save;
mod sessions;
mod slice;
mod tally;
mod top;

pub use argument_laws::{
    a_count_too_far_is_refused, a_quantum_out_of_range_is_refused, all_such_commands_read_alike,
    arguments_choose_once, arguments_choose_what_they_say, arguments_with_a_choice_are_read,
    help_is_refused, known_arguments_are_refused, no_arguments_choose_the_defaults,
    other_names_are_refused, refused_arguments_are_not_chosen,
};
pub use choice::{ArgumentsFault, Choice, Mode};
pub use command::cf_command;
pub use image_laws::{
    a_broken_rule_stays_broken, only_images_are_read, printed_scripts_are_read_back,
    the_size_of_an_image_is_known_beforehand, what_was_loaded_is_saved_again,
    what_was_saved_is_loaded_again, wrong_images_fall_short,
};
pub use image_script::print_script;
pub use load::load_script;
pub use reading::read_arguments;
pub use save::save_script;
pub use top::{cf_main, run_arguments};
