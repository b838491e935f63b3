//! The heap whose objects have ids, with its images, as a library for C. `include/norphuen.h`
//! describes each export for C. An export calls the function in brackets in its comment, if any;
//! that function's comment says when it fails. Each export that takes a heap, but
//! `nph_images_close`, returns a code: 0 (`DONE`) if the call is done, else the cause (`c_base`,
//! file `codes`). Of these each but `nph_images_open` and `nph_images_load` returns `CLOSED` and
//! changes nothing while the heap is closed (`IsCallOnOpen`).
#![tactic(auto)]

ghost use Rattle.std.specs.Prelude.{◌≡◌};
ghost use Rattle.c_base.specs.AtPlace.{IsCallOnOpen};
ghost use Rattle.c_base.specs.Version.{version};
ghost use Rattle.norphuen_images.specs.CallerImages.{IsImagesOpenCall, IsLoadCall, images_closed_by};
ghost use Rattle.norphuen_images.specs.Calls.{IsImageBytesCall, IsImagesFreeCall, IsImagesLengthCall, IsImagesReadCall, IsImagesWriteCall, IsMakeCall, IsSaveCall};
ghost use Rattle.norphuen_images.specs.Needed.{IsImagesNeededCall};
ghost use Rattle.norphuen_images.specs.Place.{images_heap_in};

mod held;
mod images;
pub mod laws;
mod slices;

use crate::held::HeldImages;
use crate::images::NphHeap;
use c_base::{CLOSED, ClosableHeap, NphNeeded, VERSION};
use std::rt::Memory;

/// Opens the heap with these settings: `pages` pages of `page_bytes` bytes, the bound `k`, and at most `proxies` live objects
/// (`ClosableHeap::open`). `memory`, here, in `nph_images_load` and in `nph_images_close`, is the kit's value for the memory of the process;
/// a caller in C passes none.
#[unsafe(no_mangle)]
pub extern "C" fn nph_images_open(
    heap: &mut NphHeap,
    memory: Memory,
    pages: u32,
    page_bytes: u32,
    k: u32,
    proxies: u32,
) -> i32
    ensures { IsImagesOpenCall (images_heap_in heap.old) pages page_bytes k proxies result (images_heap_in heap.new) }
{
    heap.inner().open(memory, pages, page_bytes, k, proxies)
}

/// Writes into `needed` the memory that `nph_images_open` with these settings asks for, and
/// `nph_images_load` with an image of these settings (`ClosableHeap::bytes_needed`).
#[unsafe(no_mangle)]
pub extern "C" fn nph_images_bytes_needed(
    pages: u32,
    page_bytes: u32,
    k: u32,
    proxies: u32,
    needed: &mut NphNeeded,
) -> i32
    ensures { IsImagesNeededCall pages page_bytes k proxies result needed.old needed.new }
{
    ClosableHeap::<HeldImages>::bytes_needed(pages, page_bytes, k, proxies, needed)
}

/// Opens the heap with the settings and the objects of an image, and with the bound `k` (`NphHeap::load`).
#[unsafe(no_mangle)]
pub extern "C" fn nph_images_load(
    heap: &mut NphHeap,
    memory: Memory,
    bytes: &[u8],
    k: u32,
    offset: &mut u64,
) -> i32
    ensures { IsLoadCall (images_heap_in heap.old) bytes.now k offset.old result offset.new (images_heap_in heap.new) }
{
    heap.load(memory, bytes, k, offset)
}

/// Closes the heap and frees its memory; does nothing if it is closed (`ClosableHeap::close`).
#[unsafe(no_mangle)]
pub extern "C" fn nph_images_close(heap: &mut NphHeap, memory: Memory)
    ensures { images_heap_in heap.new ≡ images_closed_by (images_heap_in heap.old) }
{
    heap.inner().close(memory);
}

/// Makes an object of `bytes` zeros under the id (`HeldImages::make`).
#[unsafe(no_mangle)]
pub extern "C" fn nph_images_make(heap: &mut NphHeap, id: u32, bytes: u32) -> i32
    ensures { IsCallOnOpen (images_heap_in heap.old) result (images_heap_in heap.new) (Unit {0}) (λ h h2. IsMakeCall h id bytes result h2) }
{
    let heap = heap.inner();
    if heap.is_open() {
        heap.held().make(id, bytes)
    } else {
        CLOSED
    }
}

/// Frees the object of the id (`HeldImages::free`).
#[unsafe(no_mangle)]
pub extern "C" fn nph_images_free(heap: &mut NphHeap, id: u32) -> i32
    ensures { IsCallOnOpen (images_heap_in heap.old) result (images_heap_in heap.new) (Unit {0}) (λ h h2. IsImagesFreeCall h id result h2) }
{
    let heap = heap.inner();
    if heap.is_open() {
        heap.held().free(id)
    } else {
        CLOSED
    }
}

/// Writes `bytes` into the object of the id, from its byte `at` on (`HeldImages::write`).
#[unsafe(no_mangle)]
pub extern "C" fn nph_images_write(heap: &mut NphHeap, id: u32, at: u32, bytes: &[u8]) -> i32
    ensures { IsCallOnOpen (images_heap_in heap.old) result (images_heap_in heap.new) (Unit {0}) (λ h h2. IsImagesWriteCall h id at bytes.now result h2) }
{
    let heap = heap.inner();
    if heap.is_open() {
        heap.held().write(id, at, bytes)
    } else {
        CLOSED
    }
}

/// Fills `out` with bytes of the object of the id, from its byte `at` on (`HeldImages::read`).
#[unsafe(no_mangle)]
pub extern "C" fn nph_images_read(heap: &mut NphHeap, id: u32, at: u32, out: &mut [u8]) -> i32
    ensures { IsCallOnOpen (images_heap_in heap.old) result (images_heap_in heap.new) (out.new ≡ out.old)
        (λ h h2. IsImagesReadCall h id at out.old result out.new h2) }
{
    let heap = heap.inner();
    if heap.is_open() {
        heap.held().read(id, at, out)
    } else {
        CLOSED
    }
}

/// Writes the length in bytes of the object of the id into `bytes` (`HeldImages::length`).
#[unsafe(no_mangle)]
pub extern "C" fn nph_images_length(heap: &mut NphHeap, id: u32, bytes: &mut u32) -> i32
    ensures { IsCallOnOpen (images_heap_in heap.old) result (images_heap_in heap.new) (bytes.new ≡ bytes.old)
        (λ h h2. IsImagesLengthCall h id bytes.old result bytes.new h2) }
{
    let heap = heap.inner();
    if heap.is_open() {
        heap.held().length(id, bytes)
    } else {
        CLOSED
    }
}

/// Writes the length of the heap's image, in bytes, into `bytes` (`HeldImages::image_bytes`).
#[unsafe(no_mangle)]
pub extern "C" fn nph_images_image_bytes(heap: &mut NphHeap, bytes: &mut u64) -> i32
    ensures { IsCallOnOpen (images_heap_in heap.old) result (images_heap_in heap.new) (bytes.new ≡ bytes.old)
        (λ h h2. IsImageBytesCall h result bytes.new h2) }
{
    let heap = heap.inner();
    if heap.is_open() {
        heap.held().image_bytes(bytes)
    } else {
        CLOSED
    }
}

/// Writes the heap's image to the start of `out`, and its length into `written` (`HeldImages::save`).
#[unsafe(no_mangle)]
pub extern "C" fn nph_images_save(heap: &mut NphHeap, out: &mut [u8], written: &mut u64) -> i32
    ensures { IsCallOnOpen (images_heap_in heap.old) result (images_heap_in heap.new) ((out.new ≡ out.old) × (written.new ≡ written.old))
        (λ h h2. IsSaveCall h (record { out = out.old; written = written.old }) result (record { out = out.new; written = written.new }) h2) }
{
    let heap = heap.inner();
    if heap.is_open() {
        heap.held().save(out, written)
    } else {
        CLOSED
    }
}

/// Returns the version of this library (`VERSION`).
#[unsafe(no_mangle)]
pub extern "C" fn nph_images_version() -> u32
    ensures { result ≡ version }
{
    VERSION
}
