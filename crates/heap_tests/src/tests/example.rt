//! Tests of the examples in `library_example`: of an object on the moving manager, and of a control loop on
//! the sliced heap.
use cf_base::{AccessFault, Handle, OutOfMemory, Settings};
use cf_model::Manager;
use library_example::{Missed, first_object, next_frame, read_and_free};
use moving_heap::MovingHeap;
use sliced_heap::SlicedHeap;
use std::test::Fail;
use step_ledger::Meter;

/// Reads the object and frees it by `read_and_free`, and returns the result of that call; none if the heap is closed.
fn taken_out(
    heap: &mut MovingHeap,
    object: Handle,
    meter: &mut Meter,
) -> Option<Result<[u8; 2], AccessFault>> {
    if !heap.is_open() {
        return None;
    }
    Some(read_and_free(heap, object, meter))
}

// `first_object` stores two bytes, and `read_and_free` returns them and frees the
// object.
#[test]
fn what_was_stored_is_taken_out(rt: HostRuntime) -> Result<(), Fail> {
    let (mut heap, object) = first_object(&rt, rt.alloc()).ok_or("out of memory")?;
    let out = taken_out(&mut heap, object, &mut Meter::new(&rt));
    assert_eq!(rt; out, Some(Ok([0xca, 0xfe])));
    Ok(())
}

/// Opens the heap with two pages of 64 words and slices of 16 words, and makes a frame of 504 bytes, which fills a
/// page. Returns what `next_frame` returns for the next one, with this many calls of `step`; none if the first malloc
/// is refused. Fails with `OutOfMemory` if the opening does.
fn second_frame(
    heap: &mut SlicedHeap,
    slices: u32,
    meter: &mut Meter,
) -> Result<Option<Result<Handle, Missed>>, OutOfMemory> {
    let Ok(settings) = Settings::check(2, 512, 1, 8) else {
        return Ok(None);
    };
    heap.open_heap(&settings, 16)?;
    meter.lap();
    let Ok(frame) = heap.malloc(504, meter.steps()) else {
        return Ok(None);
    };
    Ok(Some(next_frame(heap, frame, 504, slices, meter.steps())))
}

// `next_frame` frees a frame, does slices of the job that the free leaves, and makes the next frame, on the page that
// was free. The handle is again 0.
#[test]
fn a_cycle_replaces_a_frame(rt: HostRuntime) -> Result<(), Fail> {
    let mut heap = SlicedHeap::closed(rt.alloc());
    let next = second_frame(&mut heap, 3, &mut Meter::new(&rt))?;
    assert_eq!(rt; next, Some(Ok(Handle(0))));
    Ok(())
}
