//! `Block`, the memory of a region: one allocation of a fixed size. It is not a block of four
//! words, as `ranges` has them. No other file of the crate has a raw pointer.
ghost use Rattle.std.specs.Prelude.{◌≡◌, ℕ, ◌+◌, ◌^◌, ◌<◌, ◌≤◌, List, length, take, drop, replicate, IfSome};
ghost use Rattle.std.specs.Borrow.{sem, u64, Array, lent_at};
ghost use Rattle.region.specs.Layout.{block_owns, room_of_words, words_at};

use std::alloc::{Allocator, Global};
use std::marker::Model;

/// One block of memory for `len` words of 8 bytes, which begins at `at`. Contracts see its words as
/// `items`. It doesn't hold its allocator, so its owner must call `free`: dropping a block leaks
/// its memory.
pub(crate) struct Block {
    at: *mut u64,
    len: usize,
    ghost items: { List ℕ },
    ghost counted: { len ≡ length items },
    ghost small: { len < 2 ^ 32 },
}

// A block owns its words and the right to free them (`block_owns`). Through a `&` to it the words can be read.
impl Model for Block {
    ghost also_owns = { λ b. block_owns b.at b.len b.items };

    ghost also_shares = { λ b _ κ. lent_at (Array u64 b.len) b.at b.items κ };
}

unsafe impl Send for Block {}

impl Block {
    ghost use Rattle.region.specs.BlockLoan.{LendsAll, LendsPartOf};

    /// Allocates a region's block of `len` words, fewer than 2^32, all zero; none if the allocation
    /// fails.
    pub(crate) fn new(alloc: &Global, len: usize) -> Option<Block>
        requires { len < 2 ^ 32 }
        ensures { IfSome result (λ b. b.items ≡ replicate len 0) }
    {
        match alloc.allocate(len * 8, 8) {
            Ok(block) => {
                let at = block as *mut u64;
                unsafe { zero(at, len) };
                Some(Block { at, len })
            }
            Err(_) => None,
        }
    }

    /// Returns the region's memory to the allocator that it came from.
    pub(crate) fn free(self, alloc: &Global) {
        let Block { at, len } = self;
        unsafe { alloc.deallocate(at as *mut u8, len * 8, 8) }
    }

    /// Borrows all words of the block for reading.
    pub(crate) fn words(&self) -> &[u64]
        ensures value { result.now ≡ self.now.items }
        ensures small { length result.now < 2 ^ 32 }
    {
        unsafe { std::slice::from_raw_parts(self.at, self.len) }
    }

    /// Borrows all words of the block for writing. When the borrow ends, the block has the words
    /// that were written.
    pub(crate) fn words_mut(&mut self) -> &mut [u64]
        ensures* writes_back { sem 𝓛 (LendsAll self.entry result) }
        ensures value { result.now ≡ self.old.items }
    {
        unsafe { std::slice::from_raw_parts_mut(self.at, self.len) }
    }

    /// Borrows the `n` words of the block from index `i` on for writing. When the borrow ends, the
    /// block has what was written there, and every other word stays.
    pub(crate) fn run_mut(&mut self, i: usize, n: usize) -> &mut [u64]
        requires within { i + n ≤ length self.old.items }
        ensures* writes_back { sem 𝓛 (LendsPartOf self.entry i n result) }
        ensures value { result.now ≡ take n (drop i self.old.items) }
    {
        unsafe { std::slice::from_raw_parts_mut(self.at.add(i), n) }
    }
}

// Writes zeros to the `len` words from `at` on, which must be allocated memory of fewer than 2^32
// words: the allocator has no call for zeroed memory. The compiler makes one `memset` of this loop.
// The loop touches all memory of the block, so that no later call is the first to touch some, which
// would cost a page fault.
unsafe fn zero(at: *mut u64, len: usize)
    requires small { len < 2 ^ 32 }
    requires* room { sem 𝓛 (room_of_words at len) }
    ensures* { sem 𝓛 (words_at at len (replicate len 0)) }
{
    let mut i = 0;
    while i < len {
        *at.add(i) = 0;
        i += 1;
    }
}
