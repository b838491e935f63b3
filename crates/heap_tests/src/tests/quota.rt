//! The steps of single calls of `QuotaHeap`, each worked out by hand, and the pages that a task uses after these calls.
//! Among the calls are a malloc, a free, a write and a read that reach their bounds: 17, 20 plus the words of the slot,
//! and 2 plus the words touched.
ghost use Rattle.std.specs.Prelude.{IsTrue};

use quota_heap::{Handle, QuotaHeap, Settings};
use std::test::Fail;
use step_ledger::Meter;

/// A call of task 0. An object is named by the number of its handle.
#[derive(Clone, Copy)]
enum Call {
    /// A new quota for the task, in pages.
    Quota(u32),
    /// A malloc of this many bytes.
    Malloc(u32),
    Free(u32),
    /// A write from the first byte of the object on, of this many bytes.
    Write(u32, usize),
    /// A read from the first byte of the object on, of this many bytes.
    Read(u32, usize),
    /// A read of the word of the region with this number.
    Peek(u32),
}

/// Calls of task 0 on three pages of 64 words, each with its steps. Two objects of 176 bytes, in slots of 23 words,
/// fill a page.
///
/// A malloc reads the entry of its class (1) and takes a slot: the last one of its page (13), or one of a
/// free page (11). Then it takes a proxy (2) and writes the header (1).
///
/// A free reads the proxy, the header, the class and the count of the page (4), and returns the proxy
/// (2). If another object moves into the freed slot, it finds that object and frees its slot (7), and
/// returns the page that is empty then (5). It reads the object's header (1), moves the slot's words (23)
/// and changes the object's proxy (1). Else it frees the slot (5), puts the page into another list (8) or
/// returns it (5), and clears the slot (23).
static CALLS: [(Call, u64); 20] = [
    (Call::Quota(2), 0),
    (Call::Malloc(176), 15),
    // The longest malloc: it fills its page.
    (Call::Malloc(176), 17),
    (Call::Malloc(176), 15),
    (Call::Malloc(176), 17),
    // Refused for size, and for space.
    (Call::Malloc(505), 1),
    (Call::Malloc(8), 1),
    // The proxy, the header, and the word of the byte.
    (Call::Write(3, 1), 3),
    (Call::Read(3, 1), 3),
    // Refused: number 4 has no object, and object 3 has no byte 176.
    (Call::Write(4, 1), 1),
    (Call::Write(3, 177), 2),
    // All 176 bytes of an object: the proxy, the header, and 22 words.
    (Call::Write(3, 176), 2 + 22),
    (Call::Peek(1), 1),
    (Call::Peek(192), 0),
    // A full page becomes partly full.
    (Call::Free(0), 42),
    // The longest free of a slot of 23 words: an object moves, and its page is returned.
    (Call::Free(2), 20 + 23),
    (Call::Free(2), 1),
    (Call::Free(1), 42),
    // The last object of its page, which is returned.
    (Call::Free(3), 39),
    (Call::Malloc(8), 15),
];

/// Makes the call on a heap, which must be open, and returns the steps of the call, whether it succeeds or is refused.
/// Writes and reads at most 512 bytes.
fn steps_of(heap: &mut QuotaHeap, call: Call, meter: &mut Meter) -> u64
    requires { IsTrue heap.old.is_open }
{
    let mut bytes = [1; 512];
    meter.lap();
    let steps = meter.steps();
    match call {
        Call::Quota(pages) => {
            let _ = heap.set_quota(0, pages);
        }
        Call::Malloc(bytes) => {
            let _ = heap.malloc(0, bytes, steps);
        }
        Call::Free(h) => {
            let _ = heap.free(0, Handle(h), steps);
        }
        Call::Write(h, count) => {
            let _ = heap.write(0, Handle(h), 0, &bytes[..count.min(512)], steps);
        }
        Call::Read(h, count) => {
            let _ = heap.read(0, Handle(h), 0, &mut bytes[..count.min(512)], steps);
        }
        Call::Peek(word) => {
            let _ = heap.peek(word, steps);
        }
    }
    meter.lap()
}

/// Makes the calls of `CALLS` in order, up to the first that takes another number of steps than `CALLS` says, or would
/// find the heap closed. Returns the index of that call; none if there is no such call.
fn first_other(heap: &mut QuotaHeap, meter: &mut Meter) -> Option<usize> {
    for (i, (call, steps)) in CALLS.iter().enumerate() {
        if !heap.is_open() || steps_of(heap, *call, meter) != *steps {
            return Some(i);
        }
    }
    None
}

/// Returns the number of pages that task 0 uses, and the number of pages in no quota; none if the heap is closed.
fn used_and_unassigned(heap: &QuotaHeap) -> Option<[u32; 2]> {
    if !heap.is_open() {
        return None;
    }
    Some([heap.pages(0), heap.unassigned()])
}

// Each call of `CALLS` takes exactly its steps. At the end task 0 uses one page, and one page is in no quota.
#[test]
fn each_call_takes_its_steps(rt: HostRuntime) -> Result<(), Fail> {
    let mut heap = QuotaHeap::closed(rt.alloc());
    heap.open_heap(&Settings::check(3, 512, 1, 8)?)?;
    assert_eq!(rt; first_other(&mut heap, &mut Meter::new(&rt)), None);
    assert_eq!(rt; used_and_unassigned(&heap), Some([1, 1]));
    Ok(())
}
