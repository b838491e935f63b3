//! The heap of long objects as a library for C. `include/norphuen.h` describes each export for
//! C. An export calls the function in brackets in its comment, if any; that function's comment
//! says when it fails. Each export that takes a heap, but `nph_large_close`, returns a code: 0
//! (`DONE`) if the call is done, else the cause (`c_base`, file `codes`). Of these each but
//! `nph_large_open` returns `CLOSED` and changes nothing while the heap is closed
//! (`IsCallOnOpen`). What the contracts imply is in `laws`.
#![tactic(auto)]

ghost use Rattle.std.specs.Prelude.{◌≡◌};
ghost use Rattle.c_base.specs.AtPlace.{IsCallOnOpen};
ghost use Rattle.c_base.specs.Version.{version};
ghost use Rattle.norphuen_large.specs.CallerHeap.{IsLargeOpenCall, large_closed_by};
ghost use Rattle.norphuen_large.specs.Calls.{IsLargeFiguresCall, IsLargeFreeCall, IsLargeLengthCall, IsLargeMallocCall, IsLargeReadCall, IsLargeStepsCall, IsLargeTotalsCall, IsLargeWriteCall};
ghost use Rattle.norphuen_large.specs.Most.{IsMostLargeAccess, IsMostLargeFree, IsMostLargeMalloc};
ghost use Rattle.norphuen_large.specs.Needed.{IsLargeNeededCall};
ghost use Rattle.norphuen_large.specs.Place.{large_heap_in};

mod held;
mod large;
pub mod laws;
mod most;

use crate::held::Held;
use crate::large::NphHeap;
use c_base::{CLOSED, ClosableHeap, NphClass, NphHeapTotals, NphNeeded, VERSION};
use std::rt::Memory;

/// Opens the heap with these settings: `pages` pages of `page_bytes` bytes, and at most `proxies`
/// short objects, parts and spines together (`ClosableHeap::open`). `memory`, here and in
/// `nph_large_close`, is the kit's value for the memory of the process; a caller in C passes none.
#[unsafe(no_mangle)]
pub extern "C" fn nph_large_open(
    heap: &mut NphHeap,
    memory: Memory,
    pages: u32,
    page_bytes: u32,
    proxies: u32,
) -> i32
    ensures { IsLargeOpenCall (large_heap_in heap.old) pages page_bytes proxies result (large_heap_in heap.new) }
{
    heap.inner().open(memory, pages, page_bytes, 1, proxies)
}

/// Writes into `needed` the memory that `nph_large_open` with these settings asks for
/// (`ClosableHeap::bytes_needed`).
#[unsafe(no_mangle)]
pub extern "C" fn nph_large_bytes_needed(
    pages: u32,
    page_bytes: u32,
    proxies: u32,
    needed: &mut NphNeeded,
) -> i32
    ensures { IsLargeNeededCall pages page_bytes proxies result needed.old needed.new }
{
    ClosableHeap::<Held>::bytes_needed(pages, page_bytes, 1, proxies, needed)
}

/// Closes the heap and frees its memory; does nothing if it is closed (`ClosableHeap::close`).
#[unsafe(no_mangle)]
pub extern "C" fn nph_large_close(heap: &mut NphHeap, memory: Memory)
    ensures { large_heap_in heap.new ≡ large_closed_by (large_heap_in heap.old) }
{
    heap.inner().close(memory);
}

/// Makes an object of `bytes` zeros and writes its handle into `handle` (`Held::malloc`).
#[unsafe(no_mangle)]
pub extern "C" fn nph_large_malloc(heap: &mut NphHeap, bytes: u32, handle: &mut u32) -> i32
    ensures { IsCallOnOpen (large_heap_in heap.old) result (large_heap_in heap.new) (handle.new ≡ handle.old)
        (λ h h2. IsLargeMallocCall h bytes handle.old result handle.new h2) }
{
    let heap = heap.inner();
    if heap.is_open() {
        heap.held().malloc(bytes, handle)
    } else {
        CLOSED
    }
}

/// Frees an object (`Held::free`).
#[unsafe(no_mangle)]
pub extern "C" fn nph_large_free(heap: &mut NphHeap, handle: u32) -> i32
    ensures { IsCallOnOpen (large_heap_in heap.old) result (large_heap_in heap.new) (Unit {0}) (λ h h2. IsLargeFreeCall h handle result h2) }
{
    let heap = heap.inner();
    if heap.is_open() {
        heap.held().free(handle)
    } else {
        CLOSED
    }
}

/// Writes `bytes` into an object, from its byte `at` on (`Held::write`).
#[unsafe(no_mangle)]
pub extern "C" fn nph_large_write(heap: &mut NphHeap, handle: u32, at: u32, bytes: &[u8]) -> i32
    ensures { IsCallOnOpen (large_heap_in heap.old) result (large_heap_in heap.new) (Unit {0})
        (λ h h2. IsLargeWriteCall h handle at bytes.now result h2) }
{
    let heap = heap.inner();
    if heap.is_open() {
        heap.held().write(handle, at, bytes)
    } else {
        CLOSED
    }
}

/// Fills `out` with bytes of an object, from its byte `at` on (`Held::read`).
#[unsafe(no_mangle)]
pub extern "C" fn nph_large_read(heap: &mut NphHeap, handle: u32, at: u32, out: &mut [u8]) -> i32
    ensures { IsCallOnOpen (large_heap_in heap.old) result (large_heap_in heap.new) (out.new ≡ out.old)
        (λ h h2. IsLargeReadCall h handle at out.old result out.new h2) }
{
    let heap = heap.inner();
    if heap.is_open() {
        heap.held().read(handle, at, out)
    } else {
        CLOSED
    }
}

/// Writes the length in bytes of an object into `bytes` (`Held::length`).
#[unsafe(no_mangle)]
pub extern "C" fn nph_large_length(heap: &mut NphHeap, handle: u32, bytes: &mut u32) -> i32
    ensures { IsCallOnOpen (large_heap_in heap.old) result (large_heap_in heap.new) (bytes.new ≡ bytes.old)
        (λ h h2. IsLargeLengthCall h handle bytes.old result bytes.new h2) }
{
    let heap = heap.inner();
    if heap.is_open() {
        heap.held().length(handle, bytes)
    } else {
        CLOSED
    }
}

/// Writes the figures of a size class into `figures`; classes are numbered from 0, and each part
/// and each spine counts as an object (`Held::figures`).
#[unsafe(no_mangle)]
pub extern "C" fn nph_large_figures(heap: &mut NphHeap, class: u32, figures: &mut NphClass) -> i32
    ensures { IsCallOnOpen (large_heap_in heap.old) result (large_heap_in heap.new) (figures.new ≡ figures.old)
        (λ h h2. IsLargeFiguresCall h class figures.old result figures.new h2) }
{
    let heap = heap.inner();
    if heap.is_open() {
        heap.held().figures(class, figures)
    } else {
        CLOSED
    }
}

/// Writes the figures of the whole heap into `totals`; each part and each spine counts as an object
/// (`Held::totals`).
#[unsafe(no_mangle)]
pub extern "C" fn nph_large_totals(heap: &mut NphHeap, totals: &mut NphHeapTotals) -> i32
    ensures { IsCallOnOpen (large_heap_in heap.old) result (large_heap_in heap.new) (totals.new ≡ totals.old)
        (λ h h2. IsLargeTotalsCall h result totals.new h2) }
{
    let heap = heap.inner();
    if heap.is_open() {
        heap.held().totals(totals)
    } else {
        CLOSED
    }
}

/// Writes the steps of the last call that counts them into `steps` (`Held::last_steps`).
#[unsafe(no_mangle)]
pub extern "C" fn nph_large_last_steps(heap: &mut NphHeap, steps: &mut u64) -> i32
    ensures { IsCallOnOpen (large_heap_in heap.old) result (large_heap_in heap.new) (steps.new ≡ steps.old)
        (λ h h2. IsLargeStepsCall h result steps.new h2) }
{
    let heap = heap.inner();
    if heap.is_open() {
        heap.held().last_steps(steps)
    } else {
        CLOSED
    }
}

/// Returns a step bound of a malloc of `bytes` bytes in a heap with pages of `page_bytes` bytes.
/// This call and the two below take no heap; if no heap has such pages, the number that they
/// return means nothing.
#[unsafe(no_mangle)]
pub extern "C" fn nph_large_most_malloc(page_bytes: u32, bytes: u32) -> u64
    ensures { IsMostLargeMalloc page_bytes bytes result }
{
    let words = most::page_words(page_bytes);
    if bytes <= 8 * (words - 1) {
        return 17;
    }
    19 + 18 * u64::from(most::parts(words, bytes))
}

/// Returns a step bound of a free of an object of `bytes` bytes, with pages of `page_bytes` bytes.
#[unsafe(no_mangle)]
pub extern "C" fn nph_large_most_free(page_bytes: u32, bytes: u32) -> u64
    ensures { IsMostLargeFree page_bytes bytes result }
{
    let words = most::page_words(page_bytes);
    if bytes <= 8 * (words - 1) {
        return 20 + most::slot_words(words, u64::from(bytes));
    }
    let count = u64::from(most::parts(words, bytes));
    // The slot of the spine, which has four bytes for each part, and those of the parts.
    24 + (19 + u64::from(words)) * count + most::slot_words(words, 4 * count)
}

/// Returns a step bound of a read or a write of `count` bytes from byte `at` of an object on,
/// with pages of `page_bytes` bytes.
#[unsafe(no_mangle)]
pub extern "C" fn nph_large_most_access(page_bytes: u32, at: u32, count: u32) -> u64
    ensures { IsMostLargeAccess page_bytes at count result }
{
    if count == 0 {
        return 2;
    }
    let part_bytes = 8 * (u64::from(most::page_words(page_bytes)) - 1);
    let (first, many) = (u64::from(at), u64::from(count));
    let parts = (first + many - 1) / part_bytes + 1 - first / part_bytes;
    5 * parts + (first % 8 + many + 7) / 8
}

/// Returns the version of this library (`VERSION`).
#[unsafe(no_mangle)]
pub extern "C" fn nph_large_version() -> u32
    ensures { result ≡ version }
{
    VERSION
}
