//! Tests of opening: a heap whose opening failed for lack of memory can be opened again, and a closed heap
//! takes no memory. `checks/refused-memory` runs them while allocations are refused.
ghost use Rattle.std.specs.Prelude.{IsTrue};

use cf_base::{Handle, Settings};
use cf_model::Manager;
use half_fit_heap::HalfFitHeap;
use moving_heap::MovingHeap;
use nonmoving_heap::NonMovingHeap;
use quota_heap::QuotaHeap;
use sliced_heap::SlicedHeap;
use std::test::Fail;
use step_ledger::Meter;
use tlsf_heap::TlsfHeap;

/// Returns whether a closed manager opens, at the first try, or at the second one if an allocation failed and
/// left it closed; and whether it is then empty, with cost 0, and has space for one object of `page` bytes, the
/// most that a page or the region holds, and not for a second one.
fn opens_in_two<H: Manager>(
    rt: &HostRuntime,
    heap: &mut H,
    settings: &Settings,
    page: u32,
) -> bool {
    if heap.open_heap(settings).is_err() && (heap.is_open() || heap.open_heap(settings).is_err()) {
        return false;
    }
    if !heap.is_open() {
        return false;
    }
    let mut meter = Meter::new(rt);
    let totals = heap.totals(meter.steps());
    if totals.live != 0 || totals.asked != 0 || heap.place(Handle(0), meter.steps()).is_some() {
        return false;
    }
    heap.cost() == 0 && fills_once(rt, heap, page)
}

/// Makes an object of `page` bytes on an open manager, then tries to make a second one. Returns whether the
/// first malloc succeeds and the second is refused.
fn fills_once<H: Manager>(rt: &HostRuntime, heap: &mut H, page: u32) -> bool
    requires { IsTrue (H.state heap.old).is_open }
{
    let mut meter = Meter::new(rt);
    let first = heap.malloc(page, meter.steps()).is_ok();
    meter.lap();
    first && heap.malloc(page, meter.steps()).is_err()
}

/// Each manager opens at the first or the second try. Only `open_heap` allocates here:
/// `checks/refused-memory` refuses each of its allocations in turn.
#[test]
fn a_heap_opens_again_where_an_allocation_failed(rt: HostRuntime) -> Result<(), Fail> {
    let alloc = rt.alloc();
    let settings = Settings::check(1, 512, 1, 4)?;
    let opened = [
        opens_in_two(&rt, &mut MovingHeap::closed(alloc), &settings, 504),
        opens_in_two(&rt, &mut NonMovingHeap::closed(alloc), &settings, 504),
        opens_in_two(&rt, &mut TlsfHeap::closed(alloc), &settings, 496),
        opens_in_two(&rt, &mut HalfFitHeap::closed(alloc), &settings, 496),
    ];
    assert_eq!(rt; opened, [true; 4]);
    Ok(())
}

/// Closed managers of every kind, and closed heaps of modes `slice` and `quota`, take no memory:
/// `checks/refused-memory` would refuse their first allocation.
#[test]
fn closed_heaps_take_no_memory(rt: HostRuntime) -> Result<(), Fail> {
    let alloc = rt.alloc();
    let open = [
        MovingHeap::closed(alloc).is_open(),
        NonMovingHeap::closed(alloc).is_open(),
        TlsfHeap::closed(alloc).is_open(),
        HalfFitHeap::closed(alloc).is_open(),
        SlicedHeap::closed(alloc).is_open(),
        QuotaHeap::closed(alloc).is_open(),
    ];
    assert_eq!(rt; open, [false; 6]);
    Ok(())
}
