//! The steps of single calls of `SlicedHeap`, each worked out by hand. Among them are a malloc, a free, a slice, a
//! read and a write that reach their bounds: 17, 23 and 15 plus the quantum, and 2 plus the words touched.
ghost use Rattle.std.specs.Prelude.{IsTrue};

use cf_base::{Handle, Settings};
use sliced_heap::SlicedHeap;
use std::test::Fail;
use step_ledger::Meter;

/// A call. An object is named by its handle's number.
#[derive(Clone, Copy, Debug)]
enum Call {
    /// A malloc of this many bytes.
    Malloc(u32),
    Free(u32),
    /// A slice of the pending job, if there is one.
    Step,
    /// A read from the object: the first byte that is read, and how many bytes.
    Read(u32, u32, usize),
    /// A write to the object: the first byte that is written, and how many bytes.
    Write(u32, u32, usize),
    /// A read of the word of the region with this number.
    Peek(u32),
}

/// Makes the call on a heap, which must be open, and returns the steps of the call, whether it succeeds or is refused.
/// Reads and writes at most 512 bytes.
fn steps_of(heap: &mut SlicedHeap, call: Call, meter: &mut Meter) -> u64
    requires { IsTrue heap.old.is_open }
{
    let mut bytes = [0; 512];
    meter.lap();
    let steps = meter.steps();
    match call {
        Call::Malloc(count) => {
            let _ = heap.malloc(count, steps);
        }
        Call::Free(h) => {
            let _ = heap.free(Handle(h), steps);
        }
        Call::Step => heap.step(steps),
        Call::Read(h, at, count) => {
            let _ = heap.read(Handle(h), at, &mut bytes[..count.min(512)], steps);
        }
        Call::Write(h, at, count) => {
            let _ = heap.write(Handle(h), at, &bytes[..count.min(512)], steps);
        }
        Call::Peek(word) => {
            let _ = heap.peek(word, steps);
        }
    }
    meter.lap()
}

/// Makes the calls in order, each with the steps that it must take, up to the first that takes another number, or would
/// find the heap closed. Returns the index of that call; none if there is no such call.
fn first_with_other_steps(
    heap: &mut SlicedHeap,
    calls: &[(Call, u64)],
    meter: &mut Meter,
) -> Option<usize> {
    for (i, (call, want)) in calls.iter().enumerate() {
        if !heap.is_open() || steps_of(heap, *call, meter) != *want {
            return Some(i);
        }
    }
    None
}

/// Calls on four pages of 64 words, with 8 proxies and slices of 10 words, each with its steps. An object of
/// 232 bytes has a slot of 30 words, two to a page; one of 504 bytes fills a page.
///
/// A malloc takes 1 step for the class, 2 for the proxy and 1 for the header. The slot takes 11 steps on a free
/// page; on a partly full page 13 if the page becomes full, else 5; and 2 if the malloc is refused until the pending
/// job ends. Other refusals take only the step for the class.
///
/// A free takes 5 steps, and 1 to test whether the slot must be filled, or 6 to fill it; then the slice. A slice
/// takes 1 step for each word, and 1 if it moves an object. At the end of a job it takes 14 more if the slot's
/// page was full until then; 11 if that page becomes free.
///
/// A read and a write take 1 step for the proxy, 1 for the header, and 1 for each word that holds one of the
/// bytes.
const CALLS: [(Call, u64); 30] = [
    // Refused: the object and its header are more than a page.
    (Call::Malloc(505), 1),
    // In a slot of a free page, and in the last free slot of that page: the longest malloc.
    (Call::Malloc(232), 15),
    (Call::Malloc(232), 17),
    // The job clears the slot in three slices. Its page was full, and is partly full when the job ends.
    (Call::Free(0), 16),
    (Call::Step, 10),
    (Call::Step, 24),
    (Call::Step, 0),
    (Call::Malloc(232), 17),
    (Call::Malloc(232), 15),
    (Call::Malloc(8), 15),
    (Call::Malloc(8), 9),
    (Call::Malloc(504), 15),
    // No page is left.
    (Call::Malloc(504), 1),
    // A job that moves object 2 into the freed slot begins.
    (Call::Free(0), 22),
    // Two refused frees: of an unknown handle, and of a live one while a job is pending.
    (Call::Free(7), 1),
    (Call::Free(1), 1),
    // Object 2 is in motion: all of its words; two words, one in its new slot and one in the old; a byte
    // past its end; and an object that isn't live.
    (Call::Read(2, 0, 232), 31),
    (Call::Write(2, 68, 8), 4),
    (Call::Read(2, 232, 1), 2),
    (Call::Write(6, 0, 1), 1),
    // While the job is pending: a malloc that is refused until the job ends, and one that gets the last free
    // slot of the job's page.
    (Call::Malloc(504), 3),
    (Call::Malloc(232), 17),
    (Call::Step, 11),
    (Call::Step, 25),
    (Call::Malloc(8), 9),
    (Call::Malloc(8), 9),
    // Every proxy is in use.
    (Call::Malloc(8), 1),
    (Call::Step, 0),
    // The last word, and past it.
    (Call::Peek(255), 1),
    (Call::Peek(256), 0),
];

/// With slices of 30 words the free moves the whole object, which has a slot of 30 words: the longest
/// free with this quantum.
const AT_ONCE: [(Call, u64); 4] = [
    (Call::Malloc(232), 15),
    (Call::Malloc(232), 17),
    (Call::Malloc(232), 15),
    (Call::Free(0), 53),
];

// Each call of `CALLS` and `AT_ONCE` takes exactly its steps.
#[test]
fn each_call_takes_its_steps(rt: HostRuntime) -> Result<(), Fail> {
    let settings = Settings::check(4, 512, 1, 8)?;
    let mut meter = Meter::new(&rt);
    let mut heap = SlicedHeap::closed(rt.alloc());
    heap.open_heap(&settings, 10)?;
    assert_eq!(rt;
        first_with_other_steps(&mut heap, CALLS.as_slice(), &mut meter),
        None
    );
    heap.open_heap(&settings, 30)?;
    assert_eq!(rt;
        first_with_other_steps(&mut heap, AT_ONCE.as_slice(), &mut meter),
        None
    );
    Ok(())
}
