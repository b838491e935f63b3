//! What the tests of images do with a heap: open it, do commands on it, save its image, and load an image.
ghost use Rattle.std.specs.Prelude.{◌≡◌, OnOk};
ghost use Rattle.std.specs.Bool.{OnTrue};
ghost use Rattle.cf_base.specs.Settings.{Profile, profile_of};
ghost use Rattle.cf_base.specs.declared.kind.Kind.TheVariants.{Moving};
ghost use Rattle.cf_session.specs.Apply.{run_at};
ghost use Rattle.run_model.specs.Sessions.{IsGoing, fresh_session};
ghost use Rattle.script_reader.specs.Commands.{IsWellFormed};
ghost use Rattle.script_reader.specs.Owned.{owned_command};
ghost use Rattle.heap_tests.specs.Ready.{IsReady};

use cf_base::Settings;
use cf_io::{MemSink, MemSource, NullSink};
use cf_model::Manager;
use cf_session::Session;
use heap_image::{LoadFault, load, save};
use script_reader::CommandRef;
use std::alloc::Global;
use std::test::Fail;
use step_ledger::Meter;

/// The most bytes of an image in these tests.
const ROOM: usize = 16_384;

/// Opens the heap, which must be of kind Moving and stays so, with these settings; fails if memory runs out. The
/// session must be just begun, so that the session belongs to the empty heap, which `save` can then write (`IsReady`).
pub fn open<H: Manager>(heap: &mut H, session: &Session, settings: &Settings) -> Result<(), Fail>
    requires moving { (H.state heap.old).kind ≡ Moving }
    requires fresh { session.now ≡ fresh_session }
    ensures opened { OnOk result (IsReady (profile_of settings.now) (run_at session.now (H.state heap.new))) }
    ensures kind { (H.state heap.new).kind ≡ Moving }
{
    heap.open_heap(settings)?;
    Ok(())
}

/// Whether the command is a malloc, a free, a resize, or a write of 1 to 4,096 bytes.
fn is_change(command: CommandRef) -> bool
    ensures { OnTrue result (IsWellFormed (owned_command command.entry)) }
{
    match command {
        CommandRef::Malloc { .. } | CommandRef::Free { .. } | CommandRef::Resize { .. } => true,
        CommandRef::Write { bytes, .. } => 1 <= bytes.len() && bytes.len() <= 4_096,
        _ => false,
    }
}

/// Does the command if the command is one of those of `is_change`, and drops its reply. Else nothing is done. The run
/// of the session and its heap must be in progress, and stays so. A heap that is ready for `save` (`IsReady`) stays so
/// too.
pub fn do_command<H: Manager>(heap: &mut H, session: &mut Session, command: CommandRef)
    requires { IsGoing (run_at session.old (H.state heap.old)) }
    ensures going { IsGoing (run_at session.new (H.state heap.new)) }
    ensures ready { (p : Profile) → IsReady p (run_at session.old (H.state heap.old)) → IsReady p (run_at session.new (H.state heap.new)) }
{
    if !is_change(command) {
        return;
    }
    match session.apply_ref(heap, command, b"", &mut NullSink) {
        Ok(_) => {}
        Err(_) => unreachable!(),
    }
}

/// Saves the heap, and returns the image. The heap must be open and of kind Moving, `settings` must be its settings,
/// and `session` must have the ids of its live objects (`IsReady`). Fails if the image has more than 16,384 bytes or
/// memory runs out.
pub fn image<H: Manager>(
    rt: &HostRuntime,
    alloc: Global,
    heap: &H,
    session: &Session,
    settings: &Settings,
) -> Result<Vec<u8>, Fail>
    requires { IsReady (profile_of settings.now) (run_at session.now (H.state heap.now)) }
{
    let mut sink = MemSink::new(alloc, ROOM, Vec::new(alloc), Vec::new(alloc))?;
    match save(settings, heap, session, &mut sink, &mut Meter::new(rt)) {
        Ok(()) => Ok(Vec::from_slice(alloc, sink.written())?),
        Err(_) => Err(Fail::from("an image has more bytes than the sink has room for")),
    }
}

/// Loads the bytes into the heap, which must be of kind Moving and stays so, at most `most` in a call of the source,
/// and returns the image of the loaded heap; or the fault of `load`. Fails as `image` does.
pub fn load_and_save<H: Manager>(
    rt: &HostRuntime,
    alloc: Global,
    heap: &mut H,
    bytes: &[u8],
    most: usize,
) -> Result<Result<Vec<u8>, LoadFault>, Fail>
    requires { (H.state heap.old).kind ≡ Moving }
    ensures { (H.state heap.new).kind ≡ Moving }
{
    let mut session = Session::start(rt, alloc)?;
    let cuts = Vec::from_elem(alloc, most, ROOM)?;
    let mut source = MemSource::new(Vec::from_slice(alloc, bytes)?, cuts, Vec::new(alloc));
    match load(&mut source, heap, &mut session) {
        Ok(settings) => Ok(Ok(image(rt, alloc, heap, &session, &settings)?)),
        Err(fault) => Ok(Err(fault)),
    }
}
