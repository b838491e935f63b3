//! Mode `slice`: runs a script on a sliced heap, whose frees leave work to later calls.
ghost use Rattle.std.specs.Prelude.{◌≤◌};
ghost use Rattle.top_call.specs.Outcomes.{EndsBeside};
ghost use Rattle.top_call.specs.TopOutcome.{PlaysSlices};

use cf_base::Status;
use cf_io::{Sink, Source};
use script_loop::play_script;
use slice_session::SliceHandler;
use sliced_heap::SlicedHeap;
use std::alloc::Global;
use std::rt::Memory;

/// In mode `slice`, runs a script on a sliced heap that is made for it. Each free and each command `s` does at most
/// `quantum` words, from 1 to 16,384, of the pending job. Returns the status, `OutOfMemory` also if the session can't
/// be allocated.
pub fn play_slices<S: Source, K: Sink>(
    memory: Memory,
    alloc: Global,
    quantum: u32,
    source: &mut S,
    sink: &mut K,
) -> Status
    requires least { 1 ≤ quantum }
    requires most { quantum ≤ 16384 }
    ensures { EndsBeside (PlaysSlices quantum) (S.state source.old) (K.state sink.old) result
        (S.state source.new) (K.state sink.new) }
{
    let Ok(mut mode_handler) = SliceHandler::start(memory, alloc, quantum) else {
        return Status::OutOfMemory;
    };
    let mut heap = SlicedHeap::closed(alloc);
    play_script(&mut mode_handler, &mut heap, source, sink)
}
