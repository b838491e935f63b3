//! Mode `save` runs a script and writes an image of the live objects; mode `load` reads an image and prints
//! a script that makes its objects. Each mode makes a moving manager in a box (`Boxed`), the type that modes
//! `run` and `compare` use too. So the compiler makes the session's code for an unboxed manager only in mode
//! `bench`, and inlines it there.
ghost use Rattle.std.specs.Prelude.{◌≡◌};
ghost use Rattle.run_model.specs.Terms.{closed_state, Moving};
ghost use Rattle.top_call.specs.Outcomes.{EndsBeside, Loads, Saves};

use crate::{load_script, save_script};
use cf_base::Status;
use cf_io::{Sink, Source};
use cf_model::{Boxed, Manager};
use cf_session::Session;
use moving_heap::MovingHeap;
use script_loop::WithSettings;
use std::alloc::Global;
use std::rt::Memory;

/// In mode `save`, runs a script on a moving manager that is made for it, and writes the image of the objects that are
/// live at its end in place of the replies. Returns the status, `OutOfMemory` also if manager or session can't be
/// allocated.
pub fn save_image<S: Source, K: Sink>(
    memory: Memory,
    alloc: Global,
    source: &mut S,
    sink: &mut K,
) -> Status
    ensures { EndsBeside Saves (S.state source.old) (K.state sink.old) result
        (S.state source.new) (K.state sink.new) }
{
    let Ok(inner) = Box::new(alloc, MovingHeap::closed(alloc)) else {
        return Status::OutOfMemory;
    };
    let mut heap = Boxed { inner };
    save_on(memory, alloc, &mut heap, source, sink)
}

/// In mode `save`, runs a script on `heap`, a moving manager that was never open, and writes the
/// image of the objects that are live at its end. Returns the status, `OutOfMemory` also if the
/// session can't be allocated.
fn save_on<H: Manager, S: Source, K: Sink>(
    memory: Memory,
    alloc: Global,
    heap: &mut H,
    source: &mut S,
    sink: &mut K,
) -> Status
    requires { H.state heap.old ≡ closed_state Moving }
    ensures { EndsBeside Saves (S.state source.old) (K.state sink.old) result
        (S.state source.new) (K.state sink.new) }
{
    let Ok(session) = Session::for_library(memory, alloc) else {
        return Status::OutOfMemory;
    };
    let mut mode_handler = WithSettings {
        mode_handler: session,
        settings: None,
    };
    save_script(memory, &mut mode_handler, heap, source, sink)
}

/// In mode `load`, loads an image into a moving manager that is made for it, and writes the script that makes its
/// objects. Returns the status, `OutOfMemory` also if manager or session can't be allocated.
pub fn load_image<S: Source, K: Sink>(
    memory: Memory,
    alloc: Global,
    source: &mut S,
    sink: &mut K,
) -> Status
    ensures { EndsBeside Loads (S.state source.old) (K.state sink.old) result
        (S.state source.new) (K.state sink.new) }
{
    let Ok(inner) = Box::new(alloc, MovingHeap::closed(alloc)) else {
        return Status::OutOfMemory;
    };
    let mut heap = Boxed { inner };
    load_on(memory, alloc, &mut heap, source, sink)
}

/// In mode `load`, loads an image into `heap`, a moving manager that was never open, and writes the
/// script that makes its objects. Returns the status, `OutOfMemory` also if the session can't be
/// allocated.
fn load_on<H: Manager, S: Source, K: Sink>(
    memory: Memory,
    alloc: Global,
    heap: &mut H,
    source: &mut S,
    sink: &mut K,
) -> Status
    requires { H.state heap.old ≡ closed_state Moving }
    ensures { EndsBeside Loads (S.state source.old) (K.state sink.old) result
        (S.state source.new) (K.state sink.new) }
{
    let Ok(mut session) = Session::for_library(memory, alloc) else {
        return Status::OutOfMemory;
    };
    load_script(memory, &mut session, heap, source, sink)
}
