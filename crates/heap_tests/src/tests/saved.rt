//! Images worked out by hand, each with the commands that make its heap.
ghost use Rattle.std.specs.Prelude.{◌≡◌};
ghost use Rattle.cf_base.specs.Settings.{Profile};
ghost use Rattle.cf_base.specs.declared.kind.Kind.TheVariants.{Moving};
ghost use Rattle.cf_session.specs.Apply.{run_at};
ghost use Rattle.run_model.specs.Sessions.{IsGoing};
ghost use Rattle.heap_tests.specs.Ready.{IsReady};

use super::images::{do_command, image, load_and_save, open};
use cf_base::Settings;
use cf_model::Manager;
use cf_session::Session;
use moving_heap::MovingHeap;
use script_reader::CommandRef;
use std::alloc::Global;
use std::test::Fail;

/// An image, and the settings and commands that make the heap from which it must be saved.
struct Row {
    /// What is special in the image.
    shows: &'static str,
    /// The pages, the bytes of a page, the bound k, and the proxies.
    settings: [u32; 4],
    /// The commands on the empty heap.
    commands: &'static [CommandRef<'static>],
    /// The image after them: `CFI1`, pages, page bytes, proxies and objects; then id, length and bytes of
    /// each.
    image: &'static [u8],
}

/// The images that `save` must write, and `load` must read.
static ROWS: [Row; 4] = [
    Row {
        shows: "an object of three bytes",
        settings: [1, 512, 1, 4],
        commands: &[
            CommandRef::Malloc { id: 7, bytes: 3 },
            CommandRef::Write {
                id: 7,
                at: 0,
                bytes: b"abc",
            },
        ],
        image: b"CFI1\x01\0\0\0\0\x02\0\0\x04\0\0\0\x01\0\0\0\x07\0\x03\0\0\0abc",
    },
    Row {
        shows: "no object",
        settings: [4096, 512, 64, 65536],
        commands: &[],
        image: b"CFI1\0\x10\0\0\0\x02\0\0\0\0\x01\0\0\0\0\0",
    },
    Row {
        shows: "ids rise, whatever came first, and an object may have no bytes",
        settings: [2, 512, 2, 3],
        commands: &[
            CommandRef::Malloc {
                id: 65_535,
                bytes: 1,
            },
            CommandRef::Malloc { id: 5, bytes: 8 },
            CommandRef::Malloc { id: 9, bytes: 100 },
            CommandRef::Free { id: 9 },
            CommandRef::Malloc { id: 6, bytes: 2 },
            CommandRef::Resize { id: 5, bytes: 0 },
            CommandRef::Write {
                id: 6,
                at: 0,
                bytes: b"\xa1\xb2",
            },
        ],
        image: b"CFI1\x02\0\0\0\0\x02\0\0\x03\0\0\0\x03\0\0\0\
            \x05\0\0\0\0\0\x06\0\x02\0\0\0\xa1\xb2\xff\xff\x01\0\0\0\0",
    },
    Row {
        shows: "two objects on the one page",
        settings: [1, 512, 1, 2],
        commands: &[
            CommandRef::Malloc { id: 3, bytes: 1 },
            CommandRef::Malloc { id: 4, bytes: 1 },
            CommandRef::Write {
                id: 4,
                at: 0,
                bytes: b"\x80",
            },
        ],
        image: b"CFI1\x01\0\0\0\0\x02\0\0\x02\0\0\0\x02\0\0\0\
            \x03\0\x01\0\0\0\0\x04\0\x01\0\0\0\x80",
    },
];

/// Does these commands on the heap in order, through the session (`do_command`), whose run must be in progress
/// (`IsGoing`). A heap that is ready for `save` (`IsReady`) stays so.
fn do_commands<H: Manager>(heap: &mut H, session: &mut Session, commands: &[CommandRef])
    requires { IsGoing (run_at session.old (H.state heap.old)) }
    ensures { (p : Profile) → IsReady p (run_at session.old (H.state heap.old)) → IsReady p (run_at session.new (H.state heap.new)) }
{
    'commands: for command in commands {
        do_command(heap, session, *command);
    }
}

/// Opens the heap, which must be of kind Moving and stays so, with the settings of a row, does the row's commands, and
/// returns the image of the live objects. Fails if a setting is out of range, memory runs out, or the image has more
/// than 16,384 bytes.
fn image_of_row<H: Manager>(
    rt: &HostRuntime,
    alloc: Global,
    heap: &mut H,
    row: &Row,
) -> Result<Vec<u8>, Fail>
    requires { (H.state heap.old).kind ≡ Moving }
    ensures { (H.state heap.new).kind ≡ Moving }
{
    let [pages, page_bytes, k, proxies] = row.settings;
    let settings = Settings::check(pages, page_bytes, k, proxies)?;
    let mut session = Session::start(rt, alloc)?;
    open(heap, &session, &settings)?;
    do_commands(heap, &mut session, row.commands);
    image(rt, alloc, heap, &session, &settings)
}

/// Returns whether `save` writes the image of the row, and writes the image again once `load` has read it, by seven
/// bytes in a call. The heap must be of kind Moving and stays so. Fails as `image_of_row` does.
fn agrees<H: Manager>(
    rt: &HostRuntime,
    alloc: Global,
    heap: &mut H,
    row: &Row,
) -> Result<bool, Fail>
    requires { (H.state heap.old).kind ≡ Moving }
    ensures { (H.state heap.new).kind ≡ Moving }
{
    let saved = image_of_row(rt, alloc, heap, row)?;
    match load_and_save(rt, alloc, heap, row.image, 7)? {
        Ok(again) => Ok(saved.as_slice() == row.image && again.as_slice() == row.image),
        Err(_) => Ok(false),
    }
}

// Each image is saved, loaded and saved again.
#[test]
fn images_are_as_worked_out_by_hand(rt: HostRuntime) -> Result<(), Fail> {
    let mut heap = MovingHeap::closed(rt.alloc());
    'rows: for row in ROWS.iter() {
        assert!(rt; agrees(&rt, rt.alloc(), &mut heap, row)?, "{}", row.shows);
    }
    Ok(())
}
