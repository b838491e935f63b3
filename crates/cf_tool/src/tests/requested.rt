//! A test of the memory that heaps request: it opens each of seven heaps with each page size, and
//! makes requests of certain sizes before and after each opening, to mark it in a record.
//! `checks/refused-memory` runs the test while each request is recorded, and compares the requests
//! of a heap with what its `bytes_needed` returned.

use cf_base::{BytesNeeded, Settings};
use cf_model::Manager;
use half_fit_heap::HalfFitHeap;
use large_objects::LargeHeap;
use moving_heap::MovingHeap;
use nonmoving_heap::NonMovingHeap;
use quota_heap::QuotaHeap;
use sliced_heap::SlicedHeap;
use std::alloc::AllocError;
use std::test::Fail;
use tlsf_heap::TlsfHeap;

/// The size in bytes of the request before the opening of a heap. Three more follow it, whose sizes
/// in bytes are the fields of a `BytesNeeded`: `blocks`, `total` and `largest`.
const BEFORE: u64 = 1_000_003;

/// The size in bytes of the request after the opening of a heap.
const AFTER: u64 = 1_000_033;

/// The sizes of a page in bytes.
const PAGE_BYTES: [u32; 9] = [
    512, 1_024, 2_048, 4_096, 8_192, 16_384, 32_768, 65_536, 131_072,
];

/// Requests `bytes` bytes from the allocator, and gives them back. Fails if the request is refused.
fn ask(rt: &HostRuntime, bytes: u64) -> Result<(), AllocError> {
    let _block: Vec<u8> = Vec::with_capacity(rt.alloc(), bytes as usize)?;
    Ok(())
}

/// Announces in the record what the next heap needs: requests `BEFORE` bytes, then as many bytes as
/// each field of `needed` says.
fn announce(rt: &HostRuntime, needed: BytesNeeded) -> Result<(), AllocError> {
    ask(rt, BEFORE)?;
    ask(rt, u64::from(needed.blocks))?;
    ask(rt, needed.total)?;
    ask(rt, needed.largest)
}

/// Opens a manager with the settings `s`, between the requests that announce `needed` and the one
/// of `AFTER` bytes. Returns 1 if the manager opened, else 0.
fn open_manager<H: Manager>(
    rt: &HostRuntime,
    mut heap: H,
    needed: BytesNeeded,
    s: &Settings,
) -> Result<u32, AllocError> {
    announce(rt, needed)?;
    let opened = heap.open_heap(s).is_ok();
    ask(rt, AFTER)?;
    Ok(u32::from(opened))
}

/// Opens a heap with frees in slices, one that tasks share, and one of long objects (with k = 1),
/// each between requests as in `open_manager`. Returns the number of those that opened.
fn open_others(rt: &HostRuntime, s: &Settings) -> Result<u32, AllocError> {
    let alloc = rt.alloc();
    announce(rt, SlicedHeap::bytes_needed(s))?;
    let sliced = SlicedHeap::closed(alloc).open_heap(s, 16).is_ok();
    ask(rt, AFTER)?;
    announce(rt, QuotaHeap::bytes_needed(s))?;
    let quota = QuotaHeap::closed(alloc).open_heap(s).is_ok();
    ask(rt, AFTER)?;
    let one = Settings {
        pages: s.pages,
        page_words: s.page_words,
        k: 1,
        proxies: s.proxies,
    };
    let inner = MovingHeap::bytes_needed(s);
    announce(rt, LargeHeap::<MovingHeap>::bytes_needed(inner, s))?;
    let large = LargeHeap::new(alloc, MovingHeap::closed(alloc))
        .open_heap(&one)
        .is_ok();
    ask(rt, AFTER)?;
    Ok(u32::from(sliced) + u32::from(quota) + u32::from(large))
}

/// Opens a manager of each kind and the three heaps of `open_others` with these settings. Returns
/// how many of the seven opened.
fn open_each(rt: &HostRuntime, s: &Settings) -> Result<u32, AllocError> {
    let alloc = rt.alloc();
    let moving = open_manager(
        rt,
        MovingHeap::closed(alloc),
        MovingHeap::bytes_needed(s),
        s,
    )?;
    let nonmoving = open_manager(
        rt,
        NonMovingHeap::closed(alloc),
        NonMovingHeap::bytes_needed(s),
        s,
    )?;
    let tlsf = open_manager(rt, TlsfHeap::closed(alloc), TlsfHeap::bytes_needed(s), s)?;
    let half = open_manager(
        rt,
        HalfFitHeap::closed(alloc),
        HalfFitHeap::bytes_needed(s),
        s,
    )?;
    Ok(
        moving
            .saturating_add(nonmoving)
            .saturating_add(tlsf)
            .saturating_add(half)
            .saturating_add(open_others(rt, s)?),
    )
}

/// Seven heaps open, each with nine page sizes and four choices of the other settings.
#[test]
fn each_heap_asks_for_the_memory_it_says(rt: HostRuntime) -> Result<(), Fail> {
    let mut opened = 0u32;
    for page_bytes in PAGE_BYTES {
        for (pages, k, proxies) in [(1, 1, 1), (3, 64, 5), (64, 2, 1_000), (512, 1, 65_536)] {
            let settings = Settings::check(pages, page_bytes, k, proxies)?;
            opened = opened.saturating_add(open_each(&rt, &settings)?);
        }
    }
    assert_eq!(rt; opened, 252);
    Ok(())
}
