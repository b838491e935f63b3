//! `NphHeap` for the TLSF manager: a `LendableHeap` of `c_base`, and its fields, in types that C may see. Each manager
//! has such a file, since an export takes no type parameters.
ghost use Rattle.std.specs.Prelude.{◌≡◌, Option};
ghost use Rattle.std.specs.Borrow.{sem};
ghost use Rattle.std.specs.Coded.{coded_option};
ghost use Rattle.c_base.specs.CallerHeap.{heap_of, lent_block_in, lent_now, opened_now};
ghost use Rattle.c_base.specs.HeapBlock.{place_owns};
ghost use Rattle.c_base.specs.Lent.{loan_owns};
ghost use Rattle.held_heap.specs.HeldState.{HeldState, held_code};
ghost use Rattle.held_heap.specs.LooseTag.{lending};
ghost use Rattle.held_heap.specs.Tag.{loose_heap};
ghost use Rattle.held_heap.specs.Tlsf.{open_heap, rule};
ghost use denote.RawPtr.{Ptr, coded_ptr};

use crate::held::Held;
use crate::loose_tag::LooseTag;
use c_base::{DONE, LendableHeap, MEMORY, Nothing, NphNeeded, Sealed, needed_with, of_setting};
use cf_base::Settings;
use std::alloc::Global;
use std::marker::Model;
use std::mem::size_of;
use std::rt::Memory;
use tlsf_heap::TlsfHeap;

/// The open heap in the block whose address C has.
type Open = Held<TlsfHeap>;

/// The bytes of the block of an `Open`.
const HELD_BYTES: u64 = 512;

const _: () = prove!(size_of::<Open>() == 512);

const _: () = prove!(size_of::<NphHeap>() == 16);

/// A `HeapBlock`, in types that C may see.
#[repr(C)]
#[derive(Drop)]
pub struct Place {
    at: *mut Sealed,
    pub(crate) ghost held: { Option HeldState } by { coded_option held_code },
}

impl Model for Place {
    ghost also_owns = { λ p. place_owns open_heap p.at p.held };
}

unsafe impl Send for Place {}

/// A `Loan`, in types that C may see.
#[repr(C)]
#[derive(Drop)]
pub struct Lent {
    of: Nothing,
    pub(crate) ghost heap: { Option HeldState } by { coded_option held_code },
    pub(crate) ghost block: { Ptr } by { coded_ptr },
    pub(crate) ghost words: { Ptr } by { coded_ptr },
}

impl Model for Lent {
    ghost also_owns = { λ l. loan_owns loose_heap (lending rule) l.block l.words l.heap };
}

unsafe impl Send for Lent {}

/// A `LendableHeap`, in types that C may see. Call `close` of `inner` before a drop: a drop does
/// not free the memory of a heap.
#[repr(C)]
#[derive(Drop)]
pub struct NphHeap {
    place: Place,
    loan: Lent,
    last: u32,
    is_open: bool,
    is_lent: bool,
    ghost shown: { is_open ≡ opened_now (heap_of place.held loan.heap loan.words last) },
    ghost lent_shown: { is_lent ≡ lent_now (heap_of place.held loan.heap loan.words last) },
    ghost same: { loan.block ≡ lent_block_in (heap_of place.held loan.heap loan.words last) place.at loan.block },
}

impl NphHeap {
    ghost use Rattle.cf_base.specs.declared.kind.Kind.TheVariants.{Tlsf};
    ghost use Rattle.held_heap.specs.AtPlace.{IsOpenCall};
    ghost use Rattle.held_heap.specs.Needed.{IsNeededCall};
    ghost use Rattle.held_heap.specs.TlsfPlace.{LendsInner, heap_in, inner_of};

    /// Borrows this TLSF `NphHeap` as a `LendableHeap`: both are the same bytes in memory. When the
    /// borrow ends, the `NphHeap` is what the borrow leaves (`writes_back`).
    pub fn inner(&mut self) -> &mut LendableHeap<Open, LooseTag>
        ensures* writes_back { sem 𝓛 (LendsInner self.entry result) }
        ensures value { result.now ≡ inner_of self.old }
    {
        unsafe { &mut *(self as *mut NphHeap as *mut LendableHeap<Open, LooseTag>) }
    }

    /// Writes into `needed` the memory that `open` of a TLSF heap with these settings asks for.
    /// Returns `DONE`, or the code of the first setting out of range, and then `needed` is
    /// unchanged.
    pub fn bytes_needed(
        pages: u32,
        page_bytes: u32,
        k: u32,
        proxies: u32,
        needed: &mut NphNeeded,
    ) -> i32
        ensures { IsNeededCall Tlsf pages page_bytes k proxies result needed.old needed.new }
    {
        match Settings::check(pages, page_bytes, k, proxies) {
            Err(fault) => of_setting(fault),
            Ok(s) => {
                *needed = needed_with(TlsfHeap::bytes_needed(&s), s.proxies, HELD_BYTES);
                DONE
            }
        }
    }

    /// Opens a TLSF heap without objects, with these settings. Returns `DONE`; else, with nothing
    /// changed, `LENT` or `OPEN` if the heap is lent or open already, the code of the first setting
    /// out of range, or `MEMORY`.
    pub fn open(&mut self, memory: Memory, pages: u32, page_bytes: u32, k: u32, proxies: u32) -> i32
        ensures { IsOpenCall Tlsf (heap_in self.old) pages page_bytes k proxies result (heap_in self.new) }
    {
        let heap = self.inner();
        let last = match heap.closed() {
            Ok(last) => last,
            Err(code) => return code,
        };
        match Settings::check(pages, page_bytes, k, proxies) {
            Err(fault) => of_setting(fault),
            Ok(s) => match Held::open(memory, TlsfHeap::closed(Global::new(memory)), &s, last) {
                Some(held) => {
                    heap.put(held);
                    DONE
                }
                None => MEMORY,
            },
        }
    }
}
