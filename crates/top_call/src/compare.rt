//! Mode `compare`: runs one script on several managers and prints the replies of all.
ghost use Rattle.top_call.specs.Outcomes.{Compares, EndsWithCause, call_seen};

use crate::sessions::Sessions;
use cf_base::Status;
use cf_io::{Sink, Source};
use cf_model::Manager;
use script_loop::play_script;
use std::alloc::Global;
use std::rt::Memory;

/// In mode `compare`, runs a script on all managers. Each has its own session. A command is done on the first manager,
/// then on the second, and so on, before the next command. Returns the status, `OutOfMemory` also if the sessions can't
/// be allocated.
pub fn compare_all<H: Manager, S: Source, K: Sink>(
    memory: Memory,
    alloc: Global,
    managers: &mut Vec<H>,
    source: &mut S,
    sink: &mut K,
) -> Status
    ensures { EndsWithCause Compares
        (call_seen S.Source K.Sink (λ m. H.state m) source.old sink.old managers.old.items) result
        (call_seen S.Source K.Sink (λ m. H.state m) source.new sink.new managers.new.items) }
{
    let Ok(mut sessions) = Sessions::start(memory, alloc, managers.len()) else {
        return Status::OutOfMemory;
    };
    play_script(&mut sessions, managers, source, sink)
}
