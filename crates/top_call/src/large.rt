//! Mode `large`: runs a script whose objects may be larger than a page.
ghost use Rattle.top_call.specs.Outcomes.{EndsBeside, PlaysLarge};

use cf_base::Status;
use cf_io::{Sink, Source};
use large_objects::LargeHeap;
use large_session::LargeHandler;
use moving_heap::MovingHeap;
use script_loop::play_script;
use std::alloc::Global;
use std::rt::Memory;

/// In mode `large`, runs a script whose objects may be larger than a page, on a moving manager that is made for it.
/// Returns the status, `OutOfMemory` also if the session can't be allocated.
pub fn play_large<S: Source, K: Sink>(
    memory: Memory,
    alloc: Global,
    source: &mut S,
    sink: &mut K,
) -> Status
    ensures { EndsBeside PlaysLarge (S.state source.old) (K.state sink.old) result
        (S.state source.new) (K.state sink.new) }
{
    let Ok(mut mode_handler) = LargeHandler::start(memory, alloc) else {
        return Status::OutOfMemory;
    };
    let mut heap = LargeHeap::new(alloc, MovingHeap::closed(alloc));
    play_script(&mut mode_handler, &mut heap, source, sink)
}
