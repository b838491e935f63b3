//! Mode `quota`: a session over a heap that sixteen tasks share. It holds each task's ids and
//! declared needs, and the number of the present task, for which `m`, `f`, `w`, `r` and `walk` act.
//! Also the mode's handler (`QuotaHandler`), and laws of the replies.
#![tactic(auto)]

mod changes;
mod laws;
mod mode_handler;
mod needs;
mod records;
mod reports;
mod session;
mod tasks;

pub use laws::{
    a_reply_follows_from_the_task_alone, a_run_of_tasks_can_always_go_on,
    a_task_has_a_heap_of_its_own, a_task_is_answered_from_its_own, an_admitted_task_is_served,
    each_command_has_its_turn, one_transcript_of_tasks, reads_give_what_was_written,
    tasks_are_isolated, tasks_are_isolated_in_a_script, what_was_cut_is_a_prefix,
    wrong_task_replies_fall_short,
};
pub use mode_handler::QuotaHandler;
pub use session::QuotaSession;
