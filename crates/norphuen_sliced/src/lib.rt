//! The sliced heap as a library for C. `include/norphuen.h` describes each export for C. An
//! export calls the function in brackets in its comment, if any; that function's comment says
//! when it fails. Each export that takes a heap, but `nph_sliced_close`, returns a code: 0
//! (`DONE`) if the call is done, else the cause (`c_base`, file `codes`). Of these each but
//! `nph_sliced_open` returns `CLOSED` and changes nothing while the heap is closed, and each but
//! `nph_sliced_return` returns `LENT` and changes nothing while it is lent (`IsCallOnOpen`).
#![tactic(auto)]

ghost use Rattle.std.specs.Prelude.{◌≡◌};
ghost use Rattle.c_base.specs.AtPlace.{IsCallOnOpen, IsReturnCall};
ghost use Rattle.norphuen_sliced.specs.Place.{sliced_heap_in};
ghost use Rattle.c_base.specs.Version.{version};
ghost use Rattle.norphuen_sliced.specs.AtPlace.{IsSlicedLendCall, IsSlicedOpenCall};
ghost use Rattle.norphuen_sliced.specs.CallerHeap.{sliced_closed_by};
ghost use Rattle.norphuen_sliced.specs.Calls.{IsLeftCall, IsMovingCall, IsSlicedClassCall, IsSlicedFiguresCall, IsSlicedFreeCall, IsSlicedLengthCall, IsSlicedMallocCall, IsSlicedPlaceCall, IsSlicedReadCall, IsSlicedRoomCall, IsSlicedSlotWordsCall, IsSlicedStepsCall, IsSlicedTotalsCall, IsSlicedWriteCall, IsStepCall};
ghost use Rattle.norphuen_sliced.specs.Most.{most_access, most_free, most_has_room, most_length, most_malloc, most_step};
ghost use Rattle.norphuen_sliced.specs.Needed.{IsSlicedNeededCall};

mod held;
pub mod laws;
mod loose;
mod sliced;

use crate::held::Held;
use crate::sliced::NphHeap;
use c_base::{
    BUSY, DONE, MEMORY, NphClass, NphHeapTotals, NphNeeded, QUANTUM, VERSION, needed_with,
    of_setting,
};
use cf_base::Settings;
use sliced_heap::SlicedHeap;
use std::mem::size_of;
use std::rt::Memory;

/// The bytes of the memory block of an open heap.
const HELD_BYTES: u64 = 944;

const _: () = prove!(size_of::<Held>() == 944);

/// Opens a heap without objects, with these settings: `pages` pages of `page_bytes` bytes, at most `proxies` live objects, and
/// slices of at most `quantum` words. Returns `DONE`; else, with nothing changed, `LENT` or `OPEN` if the heap is lent or open
/// already, the code of the first setting out of range, `QUANTUM` if the quantum is not 1 to 16,384, or `MEMORY`. No other call of
/// the heap allocates. `memory`, here and in `nph_sliced_close`, is the kit's value for the memory of the process; a caller in C
/// passes none.
#[unsafe(no_mangle)]
pub extern "C" fn nph_sliced_open(
    heap: &mut NphHeap,
    memory: Memory,
    pages: u32,
    page_bytes: u32,
    proxies: u32,
    quantum: u32,
) -> i32
    ensures { IsSlicedOpenCall (sliced_heap_in heap.old) pages page_bytes proxies quantum result (sliced_heap_in heap.new) }
{
    let heap = heap.inner();
    let last = match heap.closed() {
        Ok(last) => last,
        Err(code) => return code,
    };
    match Settings::check(pages, page_bytes, 1, proxies) {
        Err(fault) => of_setting(fault),
        Ok(s) => {
            if 1 <= quantum && quantum <= 16384 {
                match Held::open(memory, &s, quantum, last) {
                    Some(held) => {
                        heap.put(held);
                        DONE
                    }
                    None => MEMORY,
                }
            } else {
                QUANTUM
            }
        }
    }
}

/// Writes into `needed` the memory that `nph_sliced_open` with these settings, and any quantum,
/// asks for: how many memory blocks, the bytes of all, and those of the largest. Returns 0, or the
/// code of the first setting out of range, and then `needed` is unchanged.
#[unsafe(no_mangle)]
pub extern "C" fn nph_sliced_bytes_needed(
    pages: u32,
    page_bytes: u32,
    proxies: u32,
    needed: &mut NphNeeded,
) -> i32
    ensures { IsSlicedNeededCall pages page_bytes proxies result needed.old needed.new }
{
    match Settings::check(pages, page_bytes, 1, proxies) {
        Err(fault) => of_setting(fault),
        Ok(s) => {
            *needed = needed_with(SlicedHeap::bytes_needed(&s), s.proxies, HELD_BYTES);
            DONE
        }
    }
}

/// Closes the heap and frees its memory, also if it is lent; does nothing if it is closed
/// (`LendableHeap::close`).
#[unsafe(no_mangle)]
pub extern "C" fn nph_sliced_close(heap: &mut NphHeap, memory: Memory)
    ensures { sliced_heap_in heap.new ≡ sliced_closed_by (sliced_heap_in heap.old) }
{
    heap.inner().close(memory);
}

/// Makes an object of `bytes` zeros and writes its handle into `handle` (`Held::malloc`).
#[unsafe(no_mangle)]
pub extern "C" fn nph_sliced_malloc(heap: &mut NphHeap, bytes: u32, handle: &mut u32) -> i32
    ensures { IsCallOnOpen (sliced_heap_in heap.old) result (sliced_heap_in heap.new) (handle.new ≡ handle.old)
        (λ h h2. IsSlicedMallocCall h bytes handle.old result handle.new h2) }
{
    let heap = heap.inner();
    if heap.is_open() {
        heap.held().malloc(bytes, handle)
    } else {
        heap.refusal()
    }
}

/// Frees an object, and does the first slice of the job that this leaves (`Held::free`).
#[unsafe(no_mangle)]
pub extern "C" fn nph_sliced_free(heap: &mut NphHeap, handle: u32) -> i32
    ensures { IsCallOnOpen (sliced_heap_in heap.old) result (sliced_heap_in heap.new) (Unit {0})
        (λ h h2. IsSlicedFreeCall h handle result h2) }
{
    let heap = heap.inner();
    if heap.is_open() {
        heap.held().free(handle)
    } else {
        heap.refusal()
    }
}

/// Does one slice of the pending job (`Held::step`).
#[unsafe(no_mangle)]
pub extern "C" fn nph_sliced_step(heap: &mut NphHeap) -> i32
    ensures { IsCallOnOpen (sliced_heap_in heap.old) result (sliced_heap_in heap.new) (Unit {0})
        (λ h h2. IsStepCall h result h2) }
{
    let heap = heap.inner();
    if heap.is_open() {
        heap.held().step()
    } else {
        heap.refusal()
    }
}

/// Writes into `words` how many words the pending job has yet to clear or move; 0 if none is
/// pending (`Held::left`).
#[unsafe(no_mangle)]
pub extern "C" fn nph_sliced_left(heap: &mut NphHeap, words: &mut u32) -> i32
    ensures { IsCallOnOpen (sliced_heap_in heap.old) result (sliced_heap_in heap.new) (words.new ≡ words.old)
        (λ h h2. IsLeftCall h result words.new h2) }
{
    let heap = heap.inner();
    if heap.is_open() {
        heap.held().left(words)
    } else {
        heap.refusal()
    }
}

/// Writes into `handle` the handle of the object that the pending job moves; `NONE` if there is
/// none (`Held::moving`).
#[unsafe(no_mangle)]
pub extern "C" fn nph_sliced_moving(heap: &mut NphHeap, handle: &mut u32) -> i32
    ensures { IsCallOnOpen (sliced_heap_in heap.old) result (sliced_heap_in heap.new) (handle.new ≡ handle.old)
        (λ h h2. IsMovingCall h result handle.new h2) }
{
    let heap = heap.inner();
    if heap.is_open() {
        heap.held().moving(handle)
    } else {
        heap.refusal()
    }
}

/// Writes `bytes` into an object, from its byte `at` on (`Held::write`).
#[unsafe(no_mangle)]
pub extern "C" fn nph_sliced_write(heap: &mut NphHeap, handle: u32, at: u32, bytes: &[u8]) -> i32
    ensures { IsCallOnOpen (sliced_heap_in heap.old) result (sliced_heap_in heap.new) (Unit {0})
        (λ h h2. IsSlicedWriteCall h handle at bytes.now result h2) }
{
    let heap = heap.inner();
    if heap.is_open() {
        heap.held().write(handle, at, bytes)
    } else {
        heap.refusal()
    }
}

/// Fills `out` with bytes of an object, from its byte `at` on (`Held::read`).
#[unsafe(no_mangle)]
pub extern "C" fn nph_sliced_read(heap: &mut NphHeap, handle: u32, at: u32, out: &mut [u8]) -> i32
    ensures { IsCallOnOpen (sliced_heap_in heap.old) result (sliced_heap_in heap.new) (out.new ≡ out.old)
        (λ h h2. IsSlicedReadCall h handle at out.old result out.new h2) }
{
    let heap = heap.inner();
    if heap.is_open() {
        heap.held().read(handle, at, out)
    } else {
        heap.refusal()
    }
}

/// Writes the length in bytes of an object into `bytes` (`Held::length`).
#[unsafe(no_mangle)]
pub extern "C" fn nph_sliced_length(heap: &mut NphHeap, handle: u32, bytes: &mut u32) -> i32
    ensures { IsCallOnOpen (sliced_heap_in heap.old) result (sliced_heap_in heap.new) (bytes.new ≡ bytes.old)
        (λ h h2. IsSlicedLengthCall h handle bytes.old result bytes.new h2) }
{
    let heap = heap.inner();
    if heap.is_open() {
        heap.held().length(handle, bytes)
    } else {
        heap.refusal()
    }
}

/// Returns the code that a malloc of `bytes` bytes would return now (`Held::has_room`).
#[unsafe(no_mangle)]
pub extern "C" fn nph_sliced_has_room(heap: &mut NphHeap, bytes: u32) -> i32
    ensures { IsCallOnOpen (sliced_heap_in heap.old) result (sliced_heap_in heap.new) (Unit {0})
        (λ h h2. IsSlicedRoomCall h bytes result h2) }
{
    let heap = heap.inner();
    if heap.is_open() {
        heap.held().has_room(bytes)
    } else {
        heap.refusal()
    }
}

/// Writes into `words` how many words the slot of an object has (`Held::slot_words`).
#[unsafe(no_mangle)]
pub extern "C" fn nph_sliced_slot_words(heap: &mut NphHeap, handle: u32, words: &mut u32) -> i32
    ensures { IsCallOnOpen (sliced_heap_in heap.old) result (sliced_heap_in heap.new) (words.new ≡ words.old)
        (λ h h2. IsSlicedSlotWordsCall h handle words.old result words.new h2) }
{
    let heap = heap.inner();
    if heap.is_open() {
        heap.held().slot_words(handle, words)
    } else {
        heap.refusal()
    }
}

/// Writes the number, from 0 on, of the size class of an object of `bytes` bytes into `class`
/// (`Held::class_of`).
#[unsafe(no_mangle)]
pub extern "C" fn nph_sliced_class_of(heap: &mut NphHeap, bytes: u32, class: &mut u32) -> i32
    ensures { IsCallOnOpen (sliced_heap_in heap.old) result (sliced_heap_in heap.new) (class.new ≡ class.old)
        (λ h h2. IsSlicedClassCall h bytes class.old result class.new h2) }
{
    let heap = heap.inner();
    if heap.is_open() {
        heap.held().class_of(bytes, class)
    } else {
        heap.refusal()
    }
}

/// Writes the figures of a size class into `figures`; classes are numbered from 0
/// (`Held::figures`).
#[unsafe(no_mangle)]
pub extern "C" fn nph_sliced_figures(heap: &mut NphHeap, class: u32, figures: &mut NphClass) -> i32
    ensures { IsCallOnOpen (sliced_heap_in heap.old) result (sliced_heap_in heap.new) (figures.new ≡ figures.old)
        (λ h h2. IsSlicedFiguresCall h class figures.old result figures.new h2) }
{
    let heap = heap.inner();
    if heap.is_open() {
        heap.held().figures(class, figures)
    } else {
        heap.refusal()
    }
}

/// Writes the figures of the whole heap into `totals` (`Held::totals`).
#[unsafe(no_mangle)]
pub extern "C" fn nph_sliced_totals(heap: &mut NphHeap, totals: &mut NphHeapTotals) -> i32
    ensures { IsCallOnOpen (sliced_heap_in heap.old) result (sliced_heap_in heap.new) (totals.new ≡ totals.old)
        (λ h h2. IsSlicedTotalsCall h result totals.new h2) }
{
    let heap = heap.inner();
    if heap.is_open() {
        heap.held().totals(totals)
    } else {
        heap.refusal()
    }
}

/// Writes the steps of the last call that counts them into `steps` (`Held::last_steps`).
#[unsafe(no_mangle)]
pub extern "C" fn nph_sliced_last_steps(heap: &mut NphHeap, steps: &mut u64) -> i32
    ensures { IsCallOnOpen (sliced_heap_in heap.old) result (sliced_heap_in heap.new) (steps.new ≡ steps.old)
        (λ h h2. IsSlicedStepsCall h result steps.new h2) }
{
    let heap = heap.inner();
    if heap.is_open() {
        heap.held().last_steps(steps)
    } else {
        heap.refusal()
    }
}

/// Writes the address of an object into `place`, in words from the start of the region (`Held::place`). The word there
/// is the object's header, and its bytes begin at the next word.
#[unsafe(no_mangle)]
pub extern "C" fn nph_sliced_place(heap: &mut NphHeap, handle: u32, place: &mut u32) -> i32
    ensures { IsCallOnOpen (sliced_heap_in heap.old) result (sliced_heap_in heap.new) (place.new ≡ place.old)
        (λ h h2. IsSlicedPlaceCall h handle place.old result place.new h2) }
{
    let heap = heap.inner();
    if heap.is_open() {
        heap.held().place(handle, place)
    } else {
        heap.refusal()
    }
}

/// Lends the words of the region to the caller, and writes their address into `words` (`LendableHeap::lend`); returns `BUSY` if a
/// job is pending. Until `nph_sliced_return` the caller may read the words, and write the bytes of live objects.
#[unsafe(no_mangle)]
pub extern "C" fn nph_sliced_lend(heap: &mut NphHeap, words: &mut *mut u64) -> i32
    ensures { IsSlicedLendCall (sliced_heap_in heap.old) result (sliced_heap_in heap.new) words.old words.new }
{
    let heap = heap.inner();
    if heap.is_open() {
        if heap.held().has_job() {
            return BUSY;
        }
    }
    heap.lend(words)
}

/// Ends the loan (`LendableHeap::end_loan`).
#[unsafe(no_mangle)]
pub extern "C" fn nph_sliced_return(heap: &mut NphHeap) -> i32
    ensures { IsReturnCall (sliced_heap_in heap.old) result (sliced_heap_in heap.new) }
{
    heap.inner().end_loan()
}

/// Returns the version of this library (`VERSION`).
#[unsafe(no_mangle)]
pub extern "C" fn nph_sliced_version() -> u32
    ensures { result ≡ version }
{
    VERSION
}

/// Returns the most steps of a malloc. This call and those below take no heap. Each returns the most
/// steps that the contract of its call allows.
#[unsafe(no_mangle)]
pub extern "C" fn nph_sliced_most_malloc() -> u64
    ensures { result ≡ most_malloc }
{
    17
}

/// Returns the most steps of a free in a heap with this quantum.
#[unsafe(no_mangle)]
pub extern "C" fn nph_sliced_most_free(quantum: u32) -> u64
    ensures { result ≡ most_free quantum }
{
    23 + u64::from(quantum)
}

/// Returns the most steps of a slice in a heap with this quantum.
#[unsafe(no_mangle)]
pub extern "C" fn nph_sliced_most_step(quantum: u32) -> u64
    ensures { result ≡ most_step quantum }
{
    15 + u64::from(quantum)
}

/// Returns the most steps of a read or a write of `count` bytes of an object, from byte `at` on.
/// One that succeeds takes exactly these.
#[unsafe(no_mangle)]
pub extern "C" fn nph_sliced_most_access(at: u32, count: u32) -> u64
    ensures { result ≡ most_access at count }
{
    if count == 0 {
        2
    } else {
        2 + (u64::from(at % 8) + u64::from(count) + 7) / 8
    }
}

/// Returns the most steps of `nph_sliced_has_room`.
#[unsafe(no_mangle)]
pub extern "C" fn nph_sliced_most_has_room() -> u64
    ensures { result ≡ most_has_room }
{
    1
}

/// Returns the most steps of `nph_sliced_length`.
#[unsafe(no_mangle)]
pub extern "C" fn nph_sliced_most_length() -> u64
    ensures { result ≡ most_length }
{
    2
}
