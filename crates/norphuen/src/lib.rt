//! The moving manager as a library for C. `include/norphuen.h` describes each export for C. An
//! export calls a function of `held_heap` or of `c_base`, which its comment names in brackets
//! (`nph_version`: a constant); on an open heap its contract is that function's. Each export that
//! takes a heap, but `nph_close`, returns 0 (`DONE`), or the code of a refusal (`c_base`, file
//! `codes`), as the function's comment says. While the heap is closed, all of these but `nph_open`
//! return `CLOSED` and change nothing. While it is lent, all but `nph_return` return `LENT` and
//! change nothing.
#![tactic(auto)]

ghost use Rattle.std.specs.Prelude.{◌≡◌};
ghost use Rattle.cf_base.specs.declared.kind.Kind.TheVariants.{Moving};
ghost use Rattle.cf_base.specs.declared.kind.Layout.TheVariants.{Words};
ghost use Rattle.held_heap.specs.Bound.{IsBoundCall};
ghost use Rattle.held_heap.specs.Calls.{IsCountsCall, IsFiguresCall, IsFreeCall, IsLengthCall, IsMallocCall, IsPlaceCall, IsReadCall, IsResizeCall, IsRoomCall, IsStepsCall, IsTotalsCall, IsWriteCall};
ghost use Rattle.c_base.specs.AtPlace.{IsCallOnOpen, IsLendCall, IsReturnCall};
ghost use Rattle.held_heap.specs.MovingPlace.{heap_in};
ghost use Rattle.held_heap.specs.AtPlace.{IsOpenCall};
ghost use Rattle.held_heap.specs.CallerHeap.{closed_by};
ghost use Rattle.held_heap.specs.Most.{IsMostAccess, IsMostFree, IsMostLength, IsMostMalloc, IsMostResize, IsMostRoom, IsMostTotals, kind_code};
ghost use Rattle.held_heap.specs.Walk.{IsNextCall};
ghost use Rattle.held_heap.specs.Needed.{IsNeededCall};
ghost use Rattle.held_heap.specs.Slots.{IsClassCall, IsSlotWordsCall};
ghost use Rattle.held_heap.specs.PagesNeeded.{IsPagesCall};
ghost use Rattle.held_heap.specs.Moving.{bounds};
ghost use Rattle.c_base.specs.Version.{version};

use cf_base::{Kind, Layout};
use held_heap::moving::NphHeap;
use held_heap::{
    NphClass, NphCounted, NphFreed, NphHeapTotals, NphNeed, NphNeeded, NphResized, VERSION, most,
    pages_needed,
};
use std::rt::Memory;

/// Opens the heap with these settings: `pages` pages of `page_bytes` bytes, at most `k` partly full pages in
/// each class, and at most `proxies` live objects (`NphHeap::open`). `memory`, here and in `nph_close`, is the
/// kit's value for the memory of the process; a caller in C passes none.
#[unsafe(no_mangle)]
pub extern "C" fn nph_open(
    heap: &mut NphHeap,
    memory: Memory,
    pages: u32,
    page_bytes: u32,
    k: u32,
    proxies: u32,
) -> i32
    ensures { IsOpenCall Moving (heap_in heap.old) pages page_bytes k proxies result (heap_in heap.new) }
{
    heap.open(memory, pages, page_bytes, k, proxies)
}

/// Writes into `needed` the memory that `nph_open` with these settings asks for: how many blocks of
/// memory, the bytes of all, and those of the largest. The caller's struct isn't counted, nor what
/// an allocator adds to a block. Returns 0, or the code of the first setting out of range
/// (`NphHeap::bytes_needed`).
#[unsafe(no_mangle)]
pub extern "C" fn nph_bytes_needed(
    pages: u32,
    page_bytes: u32,
    k: u32,
    proxies: u32,
    needed: &mut NphNeeded,
) -> i32
    ensures { IsNeededCall Moving pages page_bytes k proxies result needed.old needed.new }
{
    NphHeap::bytes_needed(pages, page_bytes, k, proxies, needed)
}

/// Writes into `pages` the least number of pages of `page_bytes` bytes with which no call of a
/// program is refused for space, whatever the order of its calls, while the program keeps to its
/// `needs`. `k` must be in its range, 1 to 64, and has no other effect. Returns 0, or the code of
/// the refusal (`pages_needed`).
#[unsafe(no_mangle)]
pub extern "C" fn nph_pages_needed(
    page_bytes: u32,
    k: u32,
    needs: &[NphNeed],
    pages: &mut u32,
) -> i32
    ensures { IsPagesCall Words page_bytes k needs.now result pages.old pages.new }
{
    pages_needed(Layout::Words, page_bytes, k, needs, pages)
}

/// Closes the heap and frees its memory, also if it is lent; does nothing if it is closed (`LendableHeap::close`).
#[unsafe(no_mangle)]
pub extern "C" fn nph_close(heap: &mut NphHeap, memory: Memory)
    ensures { heap_in heap.new ≡ closed_by (heap_in heap.old) }
{
    heap.inner().close(memory);
}

/// Makes an object of `bytes` zeros and writes its handle into `handle` (`Held::malloc`).
#[unsafe(no_mangle)]
pub extern "C" fn nph_malloc(heap: &mut NphHeap, bytes: u32, handle: &mut u32) -> i32
    ensures { IsCallOnOpen (heap_in heap.old) result (heap_in heap.new) (handle.new ≡ handle.old)
        (λ h h2. IsMallocCall bounds h bytes handle.old result handle.new h2) }
{
    let heap = heap.inner();
    if heap.is_open() {
        heap.held().malloc(bytes, handle)
    } else {
        heap.refusal()
    }
}

/// Frees an object. Writes into `freed` how many words its slot has, and which object moved into it
/// (`Held::free`).
#[unsafe(no_mangle)]
pub extern "C" fn nph_free(heap: &mut NphHeap, handle: u32, freed: &mut NphFreed) -> i32
    ensures { IsCallOnOpen (heap_in heap.old) result (heap_in heap.new) (freed.new ≡ freed.old)
        (λ h h2. IsFreeCall bounds h handle freed.old result freed.new h2) }
{
    let heap = heap.inner();
    if heap.is_open() {
        heap.held().free(handle, freed)
    } else {
        heap.refusal()
    }
}

/// Changes an object's length to `bytes` bytes. Writes into `resized` how many words its old
/// and its new slot have, and which other object moved (`Held::resize`).
#[unsafe(no_mangle)]
pub extern "C" fn nph_resize(
    heap: &mut NphHeap,
    handle: u32,
    bytes: u32,
    resized: &mut NphResized,
) -> i32
    ensures { IsCallOnOpen (heap_in heap.old) result (heap_in heap.new) (resized.new ≡ resized.old)
        (λ h h2. IsResizeCall bounds h handle bytes resized.old result resized.new h2) }
{
    let heap = heap.inner();
    if heap.is_open() {
        heap.held().resize(handle, bytes, resized)
    } else {
        heap.refusal()
    }
}

/// Writes `bytes` into an object, from its byte `at` on (`Held::write`).
#[unsafe(no_mangle)]
pub extern "C" fn nph_write(heap: &mut NphHeap, handle: u32, at: u32, bytes: &[u8]) -> i32
    ensures { IsCallOnOpen (heap_in heap.old) result (heap_in heap.new) (Unit {0})
        (λ h h2. IsWriteCall bounds h handle at bytes.now result h2) }
{
    let heap = heap.inner();
    if heap.is_open() {
        heap.held().write(handle, at, bytes)
    } else {
        heap.refusal()
    }
}

/// Fills `out` with bytes of an object, from its byte `at` on (`Held::read`).
#[unsafe(no_mangle)]
pub extern "C" fn nph_read(heap: &mut NphHeap, handle: u32, at: u32, out: &mut [u8]) -> i32
    ensures { IsCallOnOpen (heap_in heap.old) result (heap_in heap.new) (out.new ≡ out.old)
        (λ h h2. IsReadCall bounds h handle at out.old result out.new h2) }
{
    let heap = heap.inner();
    if heap.is_open() {
        heap.held().read(handle, at, out)
    } else {
        heap.refusal()
    }
}

/// Writes the object's length in bytes into `bytes` (`Held::length`).
#[unsafe(no_mangle)]
pub extern "C" fn nph_length(heap: &mut NphHeap, handle: u32, bytes: &mut u32) -> i32
    ensures { IsCallOnOpen (heap_in heap.old) result (heap_in heap.new) (bytes.new ≡ bytes.old)
        (λ h h2. IsLengthCall Moving h handle bytes.old result bytes.new h2) }
{
    let heap = heap.inner();
    if heap.is_open() {
        heap.held().length(handle, bytes)
    } else {
        heap.refusal()
    }
}

/// Returns the code that a malloc of `bytes` bytes would return now (`Held::has_room`).
#[unsafe(no_mangle)]
pub extern "C" fn nph_has_room(heap: &mut NphHeap, bytes: u32) -> i32
    ensures { IsCallOnOpen (heap_in heap.old) result (heap_in heap.new) (Unit {0})
        (λ h h2. IsRoomCall bounds h bytes result h2) }
{
    let heap = heap.inner();
    if heap.is_open() {
        heap.held().has_room(bytes)
    } else {
        heap.refusal()
    }
}

/// Writes how many words an object's slot has into `words`, as a free of it would
/// (`Held::slot_words`).
#[unsafe(no_mangle)]
pub extern "C" fn nph_slot_words(heap: &mut NphHeap, handle: u32, words: &mut u32) -> i32
    ensures { IsCallOnOpen (heap_in heap.old) result (heap_in heap.new) (words.new ≡ words.old)
        (λ h h2. IsSlotWordsCall Moving h handle words.old result words.new h2) }
{
    let heap = heap.inner();
    if heap.is_open() {
        heap.held().slot_words(handle, words)
    } else {
        heap.refusal()
    }
}

/// Writes into `class` the number, from 0, of the size class of an object of `bytes` bytes
/// (`Held::class_of`).
#[unsafe(no_mangle)]
pub extern "C" fn nph_class_of(heap: &mut NphHeap, bytes: u32, class: &mut u32) -> i32
    ensures { IsCallOnOpen (heap_in heap.old) result (heap_in heap.new) (class.new ≡ class.old)
        (λ h h2. IsClassCall h bytes class.old result class.new h2) }
{
    let heap = heap.inner();
    if heap.is_open() {
        heap.held().class_of(bytes, class)
    } else {
        heap.refusal()
    }
}

/// Writes the figures of the size class with the number `class`, from 0, into `figures`
/// (`Held::figures`).
#[unsafe(no_mangle)]
pub extern "C" fn nph_figures(heap: &mut NphHeap, class: u32, figures: &mut NphClass) -> i32
    ensures { IsCallOnOpen (heap_in heap.old) result (heap_in heap.new) (figures.new ≡ figures.old)
        (λ h h2. IsFiguresCall h class figures.old result figures.new h2) }
{
    let heap = heap.inner();
    if heap.is_open() {
        heap.held().figures(class, figures)
    } else {
        heap.refusal()
    }
}

/// Writes the figures of the whole heap into `totals` (`Held::totals`).
#[unsafe(no_mangle)]
pub extern "C" fn nph_totals(heap: &mut NphHeap, totals: &mut NphHeapTotals) -> i32
    ensures { IsCallOnOpen (heap_in heap.old) result (heap_in heap.new) (totals.new ≡ totals.old)
        (λ h h2. IsTotalsCall bounds h result totals.new h2) }
{
    let heap = heap.inner();
    if heap.is_open() {
        heap.held().totals(totals)
    } else {
        heap.refusal()
    }
}

/// Writes the handle of the live object after that of `handle`, by rising number, into `next`, or
/// of the first one if `handle` is `NONE`; after the last one writes `NONE` (`Held::next`). Takes
/// one step for each object number that it looks at, that of `handle` included.
#[unsafe(no_mangle)]
pub extern "C" fn nph_next(heap: &mut NphHeap, handle: u32, next: &mut u32) -> i32
    ensures { IsCallOnOpen (heap_in heap.old) result (heap_in heap.new) (next.new ≡ next.old)
        (λ h h2. IsNextCall h handle next.old result next.new h2) }
{
    let heap = heap.inner();
    if heap.is_open() {
        heap.held().next(handle, next)
    } else {
        heap.refusal()
    }
}

/// Writes what the heap counted since it was opened into `counts` (`Held::counts`). Counts no
/// steps.
#[unsafe(no_mangle)]
pub extern "C" fn nph_counts(heap: &mut NphHeap, counts: &mut NphCounted) -> i32
    ensures { IsCallOnOpen (heap_in heap.old) result (heap_in heap.new) (counts.new ≡ counts.old)
        (λ h h2. IsCountsCall h result counts.new h2) }
{
    let heap = heap.inner();
    if heap.is_open() {
        heap.held().counts(counts)
    } else {
        heap.refusal()
    }
}

/// Sets to `k`, 1 to 64, how many pages of the class with slots of `slot_words` words may be partly
/// full, if no object is live (`Held::set_bound`). Counts no steps.
#[unsafe(no_mangle)]
pub extern "C" fn nph_set_bound(heap: &mut NphHeap, slot_words: u32, k: u32) -> i32
    ensures { IsCallOnOpen (heap_in heap.old) result (heap_in heap.new) (Unit {0})
        (λ h h2. IsBoundCall h slot_words k result h2) }
{
    let heap = heap.inner();
    if heap.is_open() {
        heap.held().set_bound(slot_words, k)
    } else {
        heap.refusal()
    }
}

/// Writes the steps of the last call that counts them, 0 if there was none, into `steps`
/// (`Held::last_steps`).
#[unsafe(no_mangle)]
pub extern "C" fn nph_last_steps(heap: &mut NphHeap, steps: &mut u64) -> i32
    ensures { IsCallOnOpen (heap_in heap.old) result (heap_in heap.new) (steps.new ≡ steps.old)
        (λ h h2. IsStepsCall h result steps.new h2) }
{
    let heap = heap.inner();
    if heap.is_open() {
        heap.held().last_steps(steps)
    } else {
        heap.refusal()
    }
}

/// Writes the address of an object into `place`, in words from the start of the region (`Held::place`). The word there
/// is the object's header, and its bytes begin at the next word.
#[unsafe(no_mangle)]
pub extern "C" fn nph_place(heap: &mut NphHeap, handle: u32, place: &mut u32) -> i32
    ensures { IsCallOnOpen (heap_in heap.old) result (heap_in heap.new) (place.new ≡ place.old)
        (λ h h2. IsPlaceCall h handle place.old result place.new h2) }
{
    let heap = heap.inner();
    if heap.is_open() {
        heap.held().place(handle, place)
    } else {
        heap.refusal()
    }
}

/// Lends the words of the region to the caller, and writes their address into `words` (`LendableHeap::lend`). Until
/// `nph_return` the caller may read them, and write the bytes of live objects.
#[unsafe(no_mangle)]
pub extern "C" fn nph_lend(heap: &mut NphHeap, words: &mut *mut u64) -> i32
    ensures { IsLendCall (heap_in heap.old) result (heap_in heap.new) words.old words.new }
{
    heap.inner().lend(words)
}

/// Ends the loan: the heap is open again, with the words as the caller left them
/// (`LendableHeap::end_loan`).
#[unsafe(no_mangle)]
pub extern "C" fn nph_return(heap: &mut NphHeap) -> i32
    ensures { IsReturnCall (heap_in heap.old) result (heap_in heap.new) }
{
    heap.inner().end_loan()
}

/// Returns the version of this library (`VERSION`).
#[unsafe(no_mangle)]
pub extern "C" fn nph_version() -> u32
    ensures { result ≡ version }
{
    VERSION
}

/// Returns the number for the kind of this library's heaps (`most::kind`). This call and those
/// below take no heap. Each call below returns the most steps of one call: the bound in the
/// contract of that call.
#[unsafe(no_mangle)]
pub extern "C" fn nph_kind() -> u32
    ensures { result ≡ kind_code Moving }
{
    most::kind(Kind::Moving)
}

/// Returns the most steps of a malloc (`most_malloc`).
#[unsafe(no_mangle)]
pub extern "C" fn nph_most_malloc() -> u64
    ensures { IsMostMalloc bounds result }
{
    most::most_malloc(Kind::Moving)
}

/// Returns the most steps of a free of an object whose slot has this many words (`most_free`).
#[unsafe(no_mangle)]
pub extern "C" fn nph_most_free(slot_words: u32) -> u64
    ensures { IsMostFree bounds slot_words result }
{
    most::most_free(Kind::Moving, slot_words)
}

/// Returns the most steps of a resize to `bytes` bytes, from a slot of `old_slot_words` words to
/// one of `slot_words` words (`most_resize`).
#[unsafe(no_mangle)]
pub extern "C" fn nph_most_resize(bytes: u32, old_slot_words: u32, slot_words: u32) -> u64
    ensures { IsMostResize bounds bytes old_slot_words slot_words result }
{
    most::most_resize(Kind::Moving, bytes, old_slot_words, slot_words)
}

/// Returns the most steps of a read or a write of `count` bytes from byte `at` on; one that
/// succeeds takes exactly these (`most_access`).
#[unsafe(no_mangle)]
pub extern "C" fn nph_most_access(at: u32, count: u32) -> u64
    ensures { IsMostAccess bounds at count result }
{
    most::most_access(Kind::Moving, at, count)
}

/// Returns the most steps of `nph_has_room` (`most_has_room`).
#[unsafe(no_mangle)]
pub extern "C" fn nph_most_has_room() -> u64
    ensures { IsMostRoom bounds result }
{
    most::most_has_room(Kind::Moving)
}

/// Returns 0, the most steps of `nph_totals` with pages, whatever `free_count` is (`most_totals`).
#[unsafe(no_mangle)]
pub extern "C" fn nph_most_totals(free_count: u32) -> u64
    ensures { IsMostTotals bounds free_count result }
{
    most::most_totals(Kind::Moving, free_count)
}

/// Returns the most steps of `nph_length` (`most_length`).
#[unsafe(no_mangle)]
pub extern "C" fn nph_most_length() -> u64
    ensures { IsMostLength Moving result }
{
    most::most_length(Kind::Moving)
}
