//! Mode `save`: runs a script, drops its replies, and writes an image of the objects that it leaves.
ghost use Rattle.std.specs.Prelude.{◌≡◌, None, false};
ghost use Rattle.run_model.specs.Terms.{fresh_session, Moving};
ghost use Rattle.cf_model.specs.Ordered.{KeepsPromise};
ghost use Rattle.cf_session.specs.Apply.{run_at};
ghost use Rattle.top_call.specs.Saves.{EndsSave};
ghost use Rattle.script_loop.specs.ScriptOutcome.{HasCauses, effects};

use cf_base::Status;
use cf_io::{NullSink, Sink, Source};
use cf_model::Manager;
use cf_session::Session;
use heap_image::{live_objects_have_an_image, save};
use script_loop::{WithSettings, play_script};
use std::rt::Memory;
use step_ledger::Meter;

/// Runs a script on a closed manager of kind Moving, drops its replies, and writes the image of the
/// objects that are live at the end; nothing if the script has no `heap` line. Returns `Done`, or
/// `WriteFault` if the sink failed, after a prefix of the image. If the script doesn't end with
/// `Done`, writes nothing and returns its status. The session must be new, and `mode_handler` have
/// no settings.
pub fn save_script<H: Manager, S: Source, K: Sink>(
    memory: Memory,
    mode_handler: &mut WithSettings<Session>,
    heap: &mut H,
    source: &mut S,
    sink: &mut K,
) -> Status
    requires fresh { mode_handler.old.mode_handler ≡ fresh_session }
    requires unset { mode_handler.old.settings ≡ None }
    requires moving { (H.state heap.old).kind ≡ Moving }
    requires closed { (H.state heap.old).is_open ≡ false }
    ensures ends { EndsSave (run_at mode_handler.old.mode_handler (H.state heap.old)) (effects
        (S.state source.old) (K.state sink.old) result (S.state source.new) (K.state sink.new)) (run_at mode_handler.new.mode_handler (H.state heap.new)) }
    ensures promise { KeepsPromise (H.state heap.old) (H.state heap.new) }
    // The causes of each status, also if the source isn't observable.
    ensures causes { HasCauses
        (S.state source.old) (K.state sink.old) result (S.state source.new) (K.state sink.new) }
{
    match play_script(mode_handler, heap, source, &mut NullSink) {
        Status::Done => {}
        status => return status,
    }
    let Some(settings) = mode_handler.settings else {
        return Status::Done;
    };
    // For its contract: each live id has 16 bits. So the objects have an image.
    let _handle = mode_handler.mode_handler.handle(0);
    live_objects_have_an_image();
    let mut meter = Meter::for_library(memory);
    match save(
        &settings,
        heap,
        &mode_handler.mode_handler,
        sink,
        &mut meter,
    ) {
        Ok(()) => Status::Done,
        Err(_) => Status::WriteFault,
    }
}
