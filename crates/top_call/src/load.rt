//! Mode `load`: loads an image and writes the script that makes its objects, or a line `bad image`
//! with the offset at which the bytes first break a rule of images.
ghost use Rattle.std.specs.Prelude.{◌≡◌};
ghost use Rattle.std.specs.FinMap as map;
ghost use Rattle.run_model.specs.Terms.{Moving, SinkFailsIf, SourceFailsIf, Writes};
ghost use Rattle.cf_session.specs.Apply.{run_at};
ghost use Rattle.top_call.specs.Loads.{EndsLoad, bad_image};
ghost use Rattle.script_loop.specs.ScriptOutcome.{effects, is_read_fault, is_write_fault};

use crate::image_script::print_script;
use cf_base::{Failed, Status};
use cf_io::{Line, Sink, Source, push_field, put_line};
use cf_model::Manager;
use cf_session::Session;
use heap_image::{LoadFault, load};
use std::rt::Memory;
use step_ledger::Meter;

/// Loads an image into a manager of kind Moving, writes the script that makes its objects, and
/// returns `Done`. If the bytes are no image, writes a line with the offset at which they first
/// break a rule (`bad_image`) and returns `BadImage`. If the source failed or memory for the heap
/// ran out, writes nothing and returns `ReadFault` or `OutOfMemory`. If the sink failed, returns
/// `WriteFault` after a prefix of what it should write. The session must have no live id before.
pub fn load_script<H: Manager, S: Source, K: Sink>(
    memory: Memory,
    session: &mut Session,
    heap: &mut H,
    source: &mut S,
    sink: &mut K,
) -> Status
    requires moving { (H.state heap.old).kind ≡ Moving }
    requires idle { session.old.ids ≡ map.empty }
    ensures ends { EndsLoad (run_at session.old (H.state heap.old)) (effects
        (S.state source.old) (K.state sink.old) result (S.state source.new) (K.state sink.new)) (run_at session.new (H.state heap.new)) }
    // The causes of each status, also if the source isn't observable.
    ensures source { SourceFailsIf (is_read_fault result) (S.state source.old) (S.state source.new) }
    ensures sink { SinkFailsIf (is_write_fault result) (K.state sink.old) (K.state sink.new) }
{
    match load(source, heap, session) {
        Ok(settings) => {
            let mut meter = Meter::for_library(memory);
            match print_script(&settings, heap, session, sink, &mut meter) {
                Ok(()) => Status::Done,
                Err(_) => Status::WriteFault,
            }
        }
        Err(LoadFault::Read) => Status::ReadFault,
        Err(LoadFault::OutOfMemory) => Status::OutOfMemory,
        Err(LoadFault::Bad { at }) => match put_bad_image(at, sink) {
            Ok(()) => Status::BadImage,
            Err(_) => Status::WriteFault,
        },
    }
}

/// Writes the line `bad image` with `at`, the offset in bytes at which the input breaks a rule of
/// images. Returns `Failed` if the sink failed; then a prefix of the line was written.
fn put_bad_image<K: Sink>(at: u64, sink: &mut K) -> Result<(), Failed>
    ensures { Writes (K.state sink.old) (bad_image at) result (K.state sink.new) }
{
    let mut line = Line::new();
    push_field(&mut line, b"bad image ", at);
    put_line(&mut line, sink)
}
