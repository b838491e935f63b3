//! `HeapBlock`: owns the memory block of an open heap by the block's address, which C holds.
ghost use Rattle.std.specs.Prelude.{◌≡◌, Option, Some, None, IsSome};
ghost use Rattle.std.specs.Borrow.{sem};
ghost use Rattle.c_base.specs.HeapBlock.{place_owns};

use crate::unboxed::Unboxed;
use std::alloc::Global;
use std::marker::Model;

/// Owns the memory block at the address `at`, with an open heap of type `T`; or owns nothing, and
/// then `at` is any address, null at first. `held` is the state of the heap, `None` if there is
/// none.
#[repr(C)]
#[derive(Drop)]
pub struct HeapBlock<T> {
    pub at: *mut T,
    pub ghost held: { Option T },
}

impl<T> Model for HeapBlock<T> {
    ghost also_owns = { λ p. place_owns T.row p.at p.held };
}

impl<T> HeapBlock<T> {
    ghost use Rattle.c_base.specs.Borrow.{LendsPlace};

    /// Returns a `HeapBlock` that owns nothing, with the null pointer as its address.
    pub fn nowhere() -> HeapBlock<T>
        ensures { result.held ≡ None }
    {
        HeapBlock {
            at: std::ptr::null_mut(),
        }
    }

    /// Borrows the open heap in the block. When the borrow ends, the heap as it then is belongs to the `HeapBlock`
    /// again (`writes_back`, a clause on the time after the borrow).
    pub fn lend(&mut self) -> &mut T
        requires { IsSome self.old.held }
        ensures* writes_back { sem 𝓛 (LendsPlace T.row self.entry result) }
        ensures value { self.old.held ≡ Some result.now }
    {
        unsafe { &mut *self.at }
    }
}

impl<T: Drop> HeapBlock<T> {
    /// Returns a `HeapBlock` that owns the block of this box.
    pub fn of(b: Box<T, Global>) -> HeapBlock<T>
        ensures { result.held ≡ Some b.value }
    {
        place_of(Unboxed::new(b))
    }

    /// `HeapBlock`: returns the box of the open heap, with `alloc` as its allocator; dropping the box frees the block.
    pub fn into_box(self, alloc: Global) -> Box<T, Global>
        requires { IsSome self.held }
        ensures { self.held ≡ Some result.value }
    {
        unboxed_of(self, alloc).boxed()
    }
}

/// Returns a `HeapBlock` that owns the block of a heap whose box was taken apart (`Unboxed`).
fn place_of<T>(u: Unboxed<T, Global>) -> HeapBlock<T>
    ensures { result.held ≡ Some u.value }
{
    let Unboxed { alloc: _, at } = u;
    HeapBlock { at }
}

/// Returns the heap of a `HeapBlock` as the parts of a box (`Unboxed`): the block's address, and this allocator,
/// which may free the block.
fn unboxed_of<T>(p: HeapBlock<T>, alloc: Global) -> Unboxed<T, Global>
    requires { IsSome p.held }
    ensures { p.held ≡ Some result.value }
{
    let HeapBlock { at } = p;
    Unboxed { alloc, at }
}
