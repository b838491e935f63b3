//! Tests of `LargeHeap`: its limits over both managers with pages (the longest object of a page size, and the fewest
//! proxies and pages for an object), and the steps of its calls over a moving manager.
ghost use Rattle.std.specs.Prelude.{IsTrue};
ghost use Rattle.cf_model.specs.Families.{IsPaged};

use cf_base::{Handle, OutOfMemory, Refusal, Settings};
use cf_model::Manager;
use large_objects::LargeHeap;
use moving_heap::MovingHeap;
use nonmoving_heap::NonMovingHeap;
use std::alloc::Global;
use std::test::Fail;
use step_ledger::Meter;

/// Mallocs on an empty heap. `settings` has its pages, the bytes of a page, and its proxies.
/// `mallocs` has the bytes of each object, and why its malloc is refused; none if it succeeds.
/// `totals` has the objects, the pages in use and the free pages of the inner manager after the
/// mallocs.
struct Row {
    settings: [u32; 3],
    mallocs: &'static [(u32, Option<Refusal>)],
    totals: [u32; 3],
}

/// Mallocs at the limits of object lengths, proxies and pages. An object that exceeds a page has a spine with four
/// bytes for each part.
static ROWS: [Row; 7] = [
    // The two parts of 1,000 bytes have a page each, the two spines and the part of one byte a third one, and the other
    // whole part the fourth.
    Row {
        settings: [4, 512, 16],
        mallocs: &[(1_000, None), (505, None), (505, Some(Refusal::Space))],
        totals: [6, 4, 0],
    },
    // The longest object on pages of 512 bytes: 126 parts of 504 bytes, and a spine of 504 too. They use 127 pages.
    // With one byte more the spine would be longer than a page.
    Row {
        settings: [200, 512, 512],
        mallocs: &[(63_504, None), (63_505, Some(Refusal::Size))],
        totals: [127, 127, 73],
    },
    // The longest object on pages of 4 KiB: its 1,022 parts of 4,088 bytes and its spine use all 1,023 proxies,
    // and a page each.
    Row {
        settings: [1_024, 4_096, 1_023],
        mallocs: &[
            (4_177_936, None),
            (4_177_937, Some(Refusal::Size)),
            (0, Some(Refusal::Proxy)),
        ],
        totals: [1_023, 1_023, 1],
    },
    // The longest object on pages of 128 KiB has 32,766 parts of 131,064 bytes and a spine: there are enough
    // proxies for them, but only eight pages.
    Row {
        settings: [8, 131_072, 32_767],
        mallocs: &[
            (4_294_443_024, Some(Refusal::Space)),
            (4_294_443_025, Some(Refusal::Size)),
        ],
        totals: [0, 0, 8],
    },
    // The same with one proxy fewer: proxies and pages are too few, and the proxies are the cause.
    Row {
        settings: [8, 131_072, 32_766],
        mallocs: &[(4_294_443_024, Some(Refusal::Proxy))],
        totals: [0, 0, 8],
    },
    // An object of 505 bytes needs three proxies, for two parts and a spine. There are two, and the refused
    // malloc uses none.
    Row {
        settings: [4, 512, 2],
        mallocs: &[(505, Some(Refusal::Proxy)), (504, None)],
        totals: [1, 1, 3],
    },
    // With three proxies that object is made, and none is left for an object of 0 bytes.
    Row {
        settings: [4, 512, 3],
        mallocs: &[(505, None), (0, Some(Refusal::Proxy))],
        totals: [3, 2, 2],
    },
];

/// Makes the mallocs in order, up to the first whose result isn't the one that its entry has. Returns whether all have
/// their results; false too if a malloc would find the heap closed.
fn makes<H: Manager>(
    heap: &mut LargeHeap<H>,
    mallocs: &[(u32, Option<Refusal>)],
    meter: &mut Meter,
) -> bool {
    for (bytes, refusal) in mallocs {
        if !heap.is_open() || heap.malloc(*bytes, meter).err() != *refusal {
            return false;
        }
    }
    true
}

/// Returns how many objects, pages in use and free pages the inner manager of the heap has; none if that manager is
/// closed.
fn totals<H: Manager>(heap: &LargeHeap<H>, meter: &mut Meter) -> Option<[u32; 3]> {
    let inner = heap.inner();
    if !inner.is_open() {
        return None;
    }
    let totals = inner.totals(meter.steps());
    Some([totals.live, totals.used, totals.free])
}

/// Opens a heap over the manager `inner`, which must be one with pages, and makes the mallocs of the row. Returns
/// whether each has its result and the totals are those of the row; false too if a setting is out of range. Fails with
/// `OutOfMemory` if the opening does.
fn agrees<H: Manager>(
    alloc: Global,
    inner: H,
    row: &Row,
    meter: &mut Meter,
) -> Result<bool, OutOfMemory>
    requires { IsPaged (H.state inner).kind }
{
    let [pages, page_bytes, proxies] = row.settings;
    let Ok(checked) = Settings::check(pages, page_bytes, 1, proxies) else {
        return Ok(false);
    };
    let settings = Settings {
        pages: checked.pages,
        page_words: checked.page_words,
        k: 1,
        proxies: checked.proxies,
    };
    let mut heap = LargeHeap::new(alloc, inner);
    heap.open_heap(&settings)?;
    Ok(makes(&mut heap, row.mallocs, meter) && totals(&heap, meter) == Some(row.totals))
}

// Each row has its results, over the moving manager and over the non-moving one.
#[test]
fn objects_are_as_long_as_spines_and_heaps_allow(rt: HostRuntime) -> Result<(), Fail> {
    let mut meter = Meter::new(&rt);
    let alloc = rt.alloc();
    for (i, row) in ROWS.iter().enumerate() {
        let moving = agrees(alloc, MovingHeap::closed(alloc), row, &mut meter)?;
        let other = agrees(alloc, NonMovingHeap::closed(alloc), row, &mut meter)?;
        assert!(rt; moving && other, "row {i}");
    }
    Ok(())
}

/// A call on a heap of long objects. An object is named by the number of its handle.
#[derive(Clone, Copy)]
enum Call {
    /// A malloc of this many bytes.
    Malloc(u32),
    Free(u32),
    /// A write to the object: the first byte that is written, and how many bytes, at most 1,512.
    Write(u32, u32, usize),
    /// A read from the object: the first byte that is read, and how many bytes, at most 1,512.
    Read(u32, u32, usize),
}

/// The parts of object 2 of `CALLS`: 43 whole ones and a shorter one.
const PARTS: u64 = 44;

/// How many of these parts and of the spine share a page: the shorter part and the spine.
const SHARING: u64 = 2;

/// The words of the slots of object 2: of 43 whole parts, of the shorter part, and of the spine.
const SLOTS: u64 = 43 * 64 + 30 + 23;

/// The most steps of a malloc and of a free of object 2, by the law
/// `long_calls_take_steps_for_parts_and_words` of `large_objects`.
const MALLOC_BOUND: u64 = 15 + 18 * PARTS + 2 * SHARING;

const FREE_BOUND: u64 = 16 + 19 * PARTS + 4 * SHARING + SLOTS;

/// Calls on pages of 64 words over a moving manager, each with its steps. A whole part has 504 bytes and a page of
/// its own. A page has two slots of 30 words, for objects of 232 bytes, or two of 23, for objects of 176 bytes.
///
/// A malloc on the moving manager takes 15 steps on a free page, and 17 if it fills a page. A free takes 16 and the
/// words of the slot if that empties the page, and 20 and these words if another object moves into the slot and that
/// empties another page.
static CALLS: [(Call, u64); 18] = [
    (Call::Malloc(232), 15),
    (Call::Malloc(176), 15),
    // Object 2: the spine, of 176 bytes, and the shorter part, of 232, fill the pages of their classes. The spine gets
    // the handle of each part, in three steps.
    (Call::Malloc(21_904), MALLOC_BOUND),
    (Call::Malloc(232), 15),
    (Call::Malloc(176), 15),
    // Refused: the spine would exceed a page.
    (Call::Malloc(63_505), 0),
    (Call::Read(2, 0, 1), 5 + 1),
    // The last four bytes of a part and the first four of the next one: two handles of three steps, and two accesses
    // of two steps and one word.
    (Call::Write(2, 500, 8), 5 * 2 + 2),
    // From byte 4 of the first part up to byte 4 of the fourth: 190 words.
    (Call::Write(2, 4, 1_512), 5 * 4 + 190),
    (Call::Read(2, 4, 1_512), 5 * 4 + 190),
    (Call::Read(2, 21_903, 1), 5 + 1),
    (Call::Read(2, 7, 0), 0),
    // Refused: past the end; and number 3 is a part.
    (Call::Read(2, 21_903, 2), 0),
    (Call::Free(3), 0),
    // Each whole part empties its page. Into the slots of the last part and of the spine another object moves.
    (Call::Free(2), FREE_BOUND),
    // Short objects take the steps of the moving manager: object 0 has its last 8 bytes in one word, and these two
    // bytes of object 1 are in two.
    (Call::Read(0, 224, 8), 2 + 1),
    (Call::Write(1, 7, 2), 2 + 2),
    (Call::Free(1), 6 + 13 + 23),
];

/// Makes the call on a heap, which must be open, and returns the steps that the call adds to the meter's count, whether
/// it succeeds or is refused.
fn steps_of<H: Manager>(heap: &mut LargeHeap<H>, call: Call, meter: &mut Meter) -> u64
    requires { IsTrue heap.old.is_open }
{
    let mut bytes = [1; 1_512];
    let before = meter.steps().count();
    match call {
        Call::Malloc(bytes) => {
            let _ = heap.malloc(bytes, meter);
        }
        Call::Free(h) => {
            let _ = heap.free(Handle(h), meter);
        }
        Call::Write(h, at, count) => {
            let _ = heap.write(Handle(h), at, &bytes[..count.min(1_512)], meter);
        }
        Call::Read(h, at, count) => {
            let _ = heap.read(Handle(h), at, &mut bytes[..count.min(1_512)], meter);
        }
    }
    meter.steps().count().saturating_sub(before)
}

/// Makes the calls of `CALLS` in order, up to the first that takes another number of steps than `CALLS` says, or would
/// find the heap closed. Returns the index of that call; none if there is no such call.
fn first_other<H: Manager>(heap: &mut LargeHeap<H>, meter: &mut Meter) -> Option<usize> {
    for (i, (call, steps)) in CALLS.iter().enumerate() {
        if !heap.is_open() || steps_of(heap, *call, meter) != *steps {
            return Some(i);
        }
    }
    None
}

// Each call of `CALLS` adds exactly its steps to the meter. So a malloc and a free of a long object reach their bounds.
#[test]
fn each_part_adds_its_steps(rt: HostRuntime) -> Result<(), Fail> {
    let alloc = rt.alloc();
    let mut heap = LargeHeap::new(alloc, MovingHeap::closed(alloc));
    heap.open_heap(&Settings::check(48, 512, 1, 64)?)?;
    assert_eq!(rt; first_other(&mut heap, &mut Meter::new(&rt)), None);
    Ok(())
}
