//! Mode `quota`: runs a script of sixteen tasks that share the pages of one heap.
ghost use Rattle.top_call.specs.Outcomes.{EndsBeside};
ghost use Rattle.top_call.specs.TopOutcome.{PlaysQuotas};

use cf_base::Status;
use cf_io::{Sink, Source};
use quota_heap::QuotaHeap;
use quota_session::QuotaHandler;
use script_loop::play_script;
use std::alloc::Global;
use std::rt::Memory;

/// In mode `quota`, runs a script of tasks, each with a quota of pages, on a heap of tasks that is made for it. Returns
/// the status, `OutOfMemory` also if the session can't be allocated.
pub fn play_quotas<S: Source, K: Sink>(
    memory: Memory,
    alloc: Global,
    source: &mut S,
    sink: &mut K,
) -> Status
    ensures { EndsBeside PlaysQuotas (S.state source.old) (K.state sink.old) result
        (S.state source.new) (K.state sink.new) }
{
    let Ok(mut mode_handler) = QuotaHandler::start(memory, alloc) else {
        return Status::OutOfMemory;
    };
    let mut heap = QuotaHeap::closed(alloc);
    play_script(&mut mode_handler, &mut heap, source, sink)
}
