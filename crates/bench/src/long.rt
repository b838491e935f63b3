//! Makes the calls of a script on a heap of long objects over the moving manager, the heap `l` of a script:
//! it has the calls `m` (malloc), `w` (write) and `r` (read). `long_write` and `long_read` require
//! that the heap is open.
ghost use Rattle.std.specs.Prelude.{◌≡◌, IsTrue};

use crate::script::{LINE, Line, Table};
use cf_base::{Handle, Settings};
use cf_model::Manager;
use large_objects::LargeHeap;
use moving_heap::MovingHeap;
use std::alloc::Global;
use step_ledger::Meter;

/// For a profiler, writes these bytes into the object h from byte `at` on, and returns whether that succeeded. Not
/// inlined, so that a profile shows it.
#[inline(never)]
fn long_write<H: Manager>(
    heap: &mut LargeHeap<H>,
    h: Handle,
    at: u32,
    bytes: &[u8],
    meter: &mut Meter,
) -> bool
    requires { IsTrue heap.old.is_open }
{
    heap.write(h, at, bytes, meter).is_ok()
}

/// For a profiler, fills `out` from the object h from byte `at` on, and returns whether that succeeded. Not inlined, so
/// that a profile shows it.
#[inline(never)]
fn long_read<H: Manager>(
    heap: &LargeHeap<H>,
    h: Handle,
    at: u32,
    out: &mut [u8],
    meter: &mut Meter,
) -> bool
    requires { IsTrue heap.now.is_open }
{
    heap.read(h, at, out, meter).is_ok()
}

/// For a profiler, makes the call of a line on long objects, and returns whether it succeeded: false for a letter that
/// is no call of this heap, or if the heap is closed. `table` has the handle of each ID, which a malloc sets, and the
/// bytes that are written or read.
fn apply<H: Manager>(
    heap: &mut LargeHeap<H>,
    line: Line,
    table: &mut Table,
    meter: &mut Meter,
) -> bool {
    if !heap.is_open() {
        return false;
    }
    let h = table.handle(line.id);
    match line.op {
        b'm' => match heap.malloc(line.first, meter) {
            Ok(made) => {
                table.name(line.id, made);
                true
            }
            Err(_) => false,
        },
        b'w' => long_write(heap, h, line.first, table.bytes(line.second), meter),
        b'r' => long_read(heap, h, line.first, table.bytes(line.second), meter),
        _ => false,
    }
}

/// For a profiler, opens a heap of long objects with the settings, but the bound 1, and makes the calls, the script's
/// lines after the first. Returns the number of calls that succeeded, or `None` if a line is bad or memory runs out.
pub(crate) fn run(
    alloc: Global,
    settings: &Settings,
    calls: &[u8],
    table: &mut Table,
    meter: &mut Meter,
) -> Option<u64> {
    let one = Settings::check(settings.pages, 8 * settings.page_words, 1, settings.proxies).ok()?;
    let mut heap = LargeHeap::new(alloc, MovingHeap::closed(alloc));
    heap.open_heap(&one).ok()?;
    let mut served = 0u64;
    for text in calls.chunks(LINE) {
        let line = Line::read(text)?;
        if apply(&mut heap, line, table, meter) {
            served = served.saturating_add(1);
        }
    }
    Some(served)
}
