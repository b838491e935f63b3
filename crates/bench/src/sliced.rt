//! Makes the calls of a script on the sliced heap, the heap `s` of a script: `m` (malloc), `f` (free), `s`
//! (one slice of the pending job), and `d` (a number of these, drawn at random). Each
//! call of the heap resets the meter first. `sliced_malloc`, `sliced_free` and
//! `sliced_step` require that the heap is open.
ghost use Rattle.std.specs.Prelude.{IsTrue};

use crate::script::{LINE, Line, NONE, Table};
use cf_base::{Handle, Settings};
use rand_core::{Rng, SeedableRng};
use rand_xoshiro::SplitMix64;
use sliced_heap::SlicedHeap;
use std::alloc::Global;
use step_ledger::Meter;

/// The number of ids that drawn calls use.
const ENTRIES: u32 = 256;

/// Returns the length in bytes of a drawn malloc, by the random number `word`: half are drawn below 256, and the
/// longest have 131,070.
fn length_of(word: u64) -> u32 {
    let size = ((word >> 8) % 65_536) as u32;
    match word % 8 {
        0 => 2 * size,
        1 => size,
        2 | 3 => size % 4_096,
        _ => size % 256,
    }
}

/// For a profiler, makes an object of `bytes` bytes in the sliced heap, and returns its handle;
/// `None` if the heap refuses.
#[inline(never)]
fn sliced_malloc(heap: &mut SlicedHeap, bytes: u32, meter: &mut Meter) -> Option<Handle>
    requires { IsTrue heap.old.is_open }
{
    meter.lap();
    heap.malloc(bytes, meter.steps()).ok()
}

/// For a profiler, frees the object h of the sliced heap, and returns whether that succeeded.
#[inline(never)]
fn sliced_free(heap: &mut SlicedHeap, h: Handle, meter: &mut Meter) -> bool
    requires { IsTrue heap.old.is_open }
{
    meter.lap();
    heap.free(h, meter.steps()).is_ok()
}

/// For a profiler, does a slice of the sliced heap's pending job, if there is one.
#[inline(never)]
fn sliced_step(heap: &mut SlicedHeap, meter: &mut Meter)
    requires { IsTrue heap.old.is_open }
{
    meter.lap();
    heap.step(meter.steps());
}

/// For a profiler, makes the call that the random number `word` determines. For one of three numbers the call is
/// `step`, which does a slice of the pending job. Else the number selects an id below 256: if the id has no handle in
/// `table`, the call is a malloc, which sets the handle; else it is a free of the object, which removes the handle. If
/// the heap refuses, the handle stays. Does nothing if the heap is closed.
fn drawn(heap: &mut SlicedHeap, word: u64, table: &mut Table, meter: &mut Meter) {
    if !heap.is_open() {
        return;
    }
    let entry = (word >> 32) as u32 % ENTRIES;
    let h = table.handle(entry);
    if (word >> 40) % 3 == 0 {
        sliced_step(heap, meter);
    } else if h.0 == NONE {
        if let Some(made) = sliced_malloc(heap, length_of(word), meter) {
            table.name(entry, made);
        }
    } else if sliced_free(heap, h, meter) {
        table.name(entry, Handle(NONE));
    }
}

/// For a profiler, makes the call of a line on the sliced heap, or for the letter `d` a number of drawn calls. Returns
/// whether the call succeeded: for `s` and `d` true; for a letter that is no call of this heap, or if the heap is
/// closed, false.
fn apply(heap: &mut SlicedHeap, line: Line, table: &mut Table, meter: &mut Meter) -> bool {
    if !heap.is_open() {
        return false;
    }
    match line.op {
        b'm' => match sliced_malloc(heap, line.first, meter) {
            Some(made) => {
                table.name(line.id, made);
                true
            }
            None => false,
        },
        b'f' => sliced_free(heap, table.handle(line.id), meter),
        b's' => {
            sliced_step(heap, meter);
            true
        }
        b'd' => {
            let mut draw = SplitMix64::seed_from_u64(1);
            'draws: for _i in 0..line.first {
                drawn(heap, draw.next_u64(), table, meter);
            }
            true
        }
        _ => false,
    }
}

/// For a profiler, opens the sliced heap with the numbers of the line `first`: its pages, the bytes of a page, and the
/// quantum in words, clamped to 1 to 16,384. Makes the calls of the lines `calls`. Returns the number of lines whose
/// calls succeeded, or `None` if a line is bad or memory runs out.
pub(crate) fn run(
    alloc: Global,
    first: Line,
    calls: &[u8],
    table: &mut Table,
    meter: &mut Meter,
) -> Option<u64> {
    let settings = Settings::check(first.id, first.first, 1, 256).ok()?;
    let mut heap = SlicedHeap::closed(alloc);
    heap.open_heap(&settings, first.second.clamp(1, 16_384))
        .ok()?;
    let mut served = 0u64;
    for text in calls.chunks(LINE) {
        let line = Line::read(text)?;
        if apply(&mut heap, line, table, meter) {
            served = served.saturating_add(1);
        }
    }
    Some(served)
}
