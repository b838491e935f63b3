//! A `Box` taken apart into its address and its allocator, and put together again: for a heap whose address C
//! holds.
ghost use Rattle.std.specs.Prelude.{◌≡◌};
ghost use Rattle.std_alloc.specs.Box.Ownership.{box_owns};

use std::alloc::Allocator;
use std::marker::Model;

/// A value (`value`, known to proofs alone) in a block at the address `at`, which `alloc` may free.
pub struct Unboxed<T, A: Allocator> {
    pub alloc: A,
    pub at: *mut T,
    pub ghost value: { T },
}

impl<T, A: Allocator> Model for Unboxed<T, A> {
    ghost also_owns = { λ u. box_owns (A.dealloc_token u.alloc) T.row u.at u.value };
}

impl<T: Drop, A: Allocator> Unboxed<T, A> {
    /// Takes a box apart. The value stays in its block.
    pub fn new(value: Box<T, A>) -> Unboxed<T, A>
        ensures { result.value ≡ value.value }
    {
        let (at, alloc) = Box::into_raw_with_allocator(value);
        Unboxed { alloc, at }
    }

    /// `Unboxed`: puts the box together again, over the same block.
    pub fn boxed(self) -> Box<T, A>
        ensures { result.value ≡ self.value }
    {
        let Unboxed { alloc, at } = self;
        unsafe { Box::from_raw(alloc, at) }
    }
}
