//! `NphHeap` for the heap whose objects have ids: a `ClosableHeap` of `c_base`, and its fields, in types that C may see;
//! and its load from an image.
ghost use Rattle.std.specs.Prelude.{◌≡◌, Option, is_some};
ghost use Rattle.std.specs.Borrow.{sem};
ghost use Rattle.std.specs.Coded.{coded_option};
ghost use Rattle.c_base.specs.HeapBlock.{place_owns};
ghost use Rattle.id_table.specs.Sessions.{RunState};
ghost use Rattle.norphuen_images.specs.contracts.held.HeldImages.{the_row as open_heap};
ghost use Rattle.norphuen_images.specs.State.{run_code};

use crate::held::HeldImages;
use c_base::{BOUND, ClosableHeap, DONE, IMAGE, MEMORY, OPEN, Sealed};
use heap_image::LoadFault;
use std::marker::Model;
use std::mem::size_of;
use std::rt::Memory;

const _: () = prove!(size_of::<NphHeap>() == 16);

/// A `HeapBlock`, in types that C may see.
#[repr(C)]
#[derive(Drop)]
pub struct Place {
    at: *mut Sealed,
    pub(crate) ghost held: { Option RunState } by { coded_option run_code },
}

impl Model for Place {
    ghost also_owns = { λ p. place_owns open_heap p.at p.held };
}

unsafe impl Send for Place {}

/// A `ClosableHeap`, in types that C may see. Call `close` of `inner` before a drop: a drop does
/// not free the memory of a heap.
#[repr(C)]
#[derive(Drop)]
pub struct NphHeap {
    place: Place,
    last: u32,
    is_open: bool,
    ghost shown: { is_open ≡ is_some place.held },
}

impl NphHeap {
    ghost use Rattle.norphuen_images.specs.CallerImages.{IsLoadCall};
    ghost use Rattle.norphuen_images.specs.Place.{LendsImagesInner, images_heap_in, images_inner_of};

    /// Borrows this heap with ids as a `ClosableHeap`, which has the same fields in the same memory. When the borrow
    /// ends, this `NphHeap` has the fields that the `ClosableHeap` then has.
    pub fn inner(&mut self) -> &mut ClosableHeap<HeldImages>
        ensures* writes_back { sem 𝓛 (LendsImagesInner self.entry result) }
        ensures value { result.now ≡ images_inner_of self.old }
    {
        unsafe { &mut *(self as *mut NphHeap as *mut ClosableHeap<HeldImages>) }
    }

    /// `NphHeap`: opens a heap with the settings and the objects of an image, and with the bound `k`. Returns `DONE`;
    /// else the heap is unchanged, and the code is `OPEN` if it is open already, `BOUND` if `k` isn't 1 to 64, `IMAGE`
    /// if the bytes are no image, or `MEMORY` if out of memory. After `IMAGE`, `offset` is where the first field begins
    /// that breaks a rule of images or is cut, or where bytes follow the image; else it is unchanged.
    pub fn load(&mut self, memory: Memory, bytes: &[u8], k: u32, offset: &mut u64) -> i32
        ensures { IsLoadCall (images_heap_in self.old) bytes.now k offset.old result offset.new (images_heap_in self.new) }
    {
        let heap = self.inner();
        if heap.is_open() {
            return OPEN;
        }
        if k < 1 || 64 < k {
            return BOUND;
        }
        match HeldImages::load(memory, bytes, k) {
            Ok(held) => {
                heap.put(held);
                DONE
            }
            Err(LoadFault::Bad { at }) => {
                *offset = at;
                IMAGE
            }
            Err(LoadFault::OutOfMemory) => MEMORY,
            Err(LoadFault::Read) => unreachable!(),
        }
    }
}
