//! `NphHeap` for the sliced heap: a `LendableHeap` of `c_base`, and its fields, in types that C may see.
ghost use Rattle.std.specs.Prelude.{◌≡◌, Option};
ghost use Rattle.std.specs.Borrow.{sem};
ghost use Rattle.std.specs.Coded.{coded_option};
ghost use Rattle.c_base.specs.CallerHeap.{heap_of, lent_block_in, lent_now, opened_now};
ghost use Rattle.c_base.specs.HeapBlock.{place_owns};
ghost use Rattle.c_base.specs.Lent.{loan_owns};
ghost use Rattle.norphuen_sliced.specs.HeldState.{SlicedHeldState, sliced_held_code};
ghost use Rattle.norphuen_sliced.specs.Loose.{sliced_lending};
ghost use Rattle.norphuen_sliced.specs.Sliced.{loose_sliced, open_sliced};
ghost use denote.RawPtr.{Ptr, coded_ptr};

use crate::held::Held;
use crate::loose::LooseHeld;
use c_base::{LendableHeap, Nothing, Sealed};
use std::marker::Model;
use std::mem::size_of;

const _: () = prove!(size_of::<NphHeap>() == 16);

/// A `HeapBlock`, in types that C may see.
#[repr(C)]
#[derive(Drop)]
pub struct Place {
    at: *mut Sealed,
    pub(crate) ghost held: { Option SlicedHeldState } by { coded_option sliced_held_code },
}

impl Model for Place {
    ghost also_owns = { λ p. place_owns open_sliced p.at p.held };
}

unsafe impl Send for Place {}

/// A `Loan`, in types that C may see.
#[repr(C)]
#[derive(Drop)]
pub struct Lent {
    of: Nothing,
    pub(crate) ghost heap: { Option SlicedHeldState } by { coded_option sliced_held_code },
    pub(crate) ghost block: { Ptr } by { coded_ptr },
    pub(crate) ghost words: { Ptr } by { coded_ptr },
}

impl Model for Lent {
    ghost also_owns = { λ l. loan_owns loose_sliced sliced_lending l.block l.words l.heap };
}

unsafe impl Send for Lent {}

/// A `LendableHeap`, in types that C may see. Call `close` of `inner` before a drop: a drop does
/// not free the memory of a heap.
#[repr(C)]
#[derive(Drop)]
pub struct NphHeap {
    place: Place,
    loan: Lent,
    last: u32,
    is_open: bool,
    is_lent: bool,
    ghost shown: { is_open ≡ opened_now (heap_of place.held loan.heap loan.words last) },
    ghost lent_shown: { is_lent ≡ lent_now (heap_of place.held loan.heap loan.words last) },
    ghost same: { loan.block ≡ lent_block_in (heap_of place.held loan.heap loan.words last) place.at loan.block },
}

impl NphHeap {
    ghost use Rattle.norphuen_sliced.specs.Place.{LendsSlicedInner, sliced_inner_of};

    /// Borrows this `NphHeap` as a `LendableHeap`, which has the same fields in the same memory. When
    /// the borrow ends, the `NphHeap` has the fields that the `LendableHeap` then has.
    pub fn inner(&mut self) -> &mut LendableHeap<Held, LooseHeld>
        ensures* writes_back { sem 𝓛 (LendsSlicedInner self.entry result) }
        ensures value { result.now ≡ sliced_inner_of self.old }
    {
        unsafe { &mut *(self as *mut NphHeap as *mut LendableHeap<Held, LooseHeld>) }
    }
}
