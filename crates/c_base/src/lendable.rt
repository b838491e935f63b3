//! `LendableHeap`: the struct in a C caller's memory for a heap, open, lent or closed, of any type
//! that can lend its words.
ghost use Rattle.std.specs.Prelude.{◌≡◌};
ghost use Rattle.std.specs.Borrow.{sem};
ghost use Rattle.c_base.specs.CallerHeap.{heap_of, lent_block_in, lent_now, opened_now};

use crate::block::HeapBlock;
use crate::codes::{CLOSED, DONE, LENT, NOT_LENT, OPEN};
use crate::loan::{Lendable, Loan};
use std::alloc::Global;
use std::rt::Memory;

/// The struct in a C caller's memory for a heap: closed, open, or lent. While it is lent, the words
/// of its region are the caller's. `shown` and `lent_shown` say when the flags are true, `same`
/// that a loan is of the block at `place.at`. `last` is the largest handle of the heap that was
/// closed last here, 0 at first. Call `close` before a drop: a drop does not free the memory of a
/// heap.
#[repr(C)]
#[derive(Drop)]
pub struct LendableHeap<T: Lendable<S>, S> {
    place: HeapBlock<T>,
    loan: Loan<T, S>,
    last: u32,
    is_open: bool,
    is_lent: bool,
    ghost shown: { is_open ≡ opened_now (heap_of place.held loan.heap loan.words last) },
    ghost lent_shown: { is_lent ≡ lent_now (heap_of place.held loan.heap loan.words last) },
    ghost same: { loan.block ≡ lent_block_in (heap_of place.held loan.heap loan.words last) place.at loan.block },
}

impl<T: Lendable<S>, S> LendableHeap<T, S> {
    ghost use Rattle.std.specs.Prelude.{IsTrue};
    ghost use Rattle.c_base.specs.AtPlace.{IsLendCall, IsReturnCall};
    ghost use Rattle.c_base.specs.CallerHeap.{Opened, closed_now, refusal_code};
    ghost use Rattle.c_base.specs.Place.{LendsHeap, caller_heap};

    /// Returns whether this `LendableHeap` is open, and not lent.
    pub fn is_open(&self) -> bool
        ensures { result ≡ opened_now (caller_heap self.now) }
    {
        self.is_open
    }

    /// If this `LendableHeap` is closed, returns the largest handle of the heap that was closed
    /// last; else the code with which a call to open it is refused: `OPEN` or `LENT`.
    pub fn closed(&self) -> Result<u32, i32>
        ensures { result ≡ closed_now (caller_heap self.now) }
    {
        if self.is_lent {
            Err(LENT)
        } else if self.is_open {
            Err(OPEN)
        } else {
            Ok(self.last)
        }
    }

    /// Returns the code of a call on this `LendableHeap` if it is not open: `LENT` if it is lent,
    /// else `CLOSED`.
    pub fn refusal(&self) -> i32
        ensures { result ≡ refusal_code (caller_heap self.now) }
    {
        if self.is_lent { LENT } else { CLOSED }
    }

    /// Borrows the open heap of this `LendableHeap`. When the borrow ends, the heap as it then is belongs to this
    /// struct again.
    pub fn held(&mut self) -> &mut T
        requires { IsTrue (opened_now (caller_heap self.old)) }
        ensures* writes_back { sem 𝓛 (LendsHeap T.row S.row ⟦<T as Lendable<S>>⟧ self.entry result) }
        ensures value { caller_heap self.old ≡ Opened result.now }
    {
        self.place.lend()
    }

    /// `LendableHeap`: lends the words of the region until `end_loan`, and writes their address
    /// into `words`. The caller in C may read the words, and write the bytes of objects (lemma
    /// `bytes_are_written` in `proofs/` of the heap's crate). Returns `DONE`; `LENT` or `CLOSED` if
    /// the heap isn't open, and then `words` is unchanged.
    pub fn lend(&mut self, words: &mut *mut u64) -> i32
        ensures { IsLendCall (caller_heap self.old) result (caller_heap self.new) words.old words.new }
    {
        if self.is_open {
            self.is_open = false;
            let block = std::mem::replace(&mut self.place, HeapBlock::nowhere());
            let (place, loan, at) = Loan::new(block);
            self.place = place;
            self.loan = loan;
            self.is_lent = true;
            *words = at;
            DONE
        } else {
            self.refusal()
        }
    }

    /// Ends the loan to C: the heap is open again, with the words as the caller left them. Returns
    /// `DONE`; `NOT_LENT` if the heap is open already, or `CLOSED` if it is closed, and then
    /// nothing changes.
    pub fn end_loan(&mut self) -> i32
        ensures { IsReturnCall (caller_heap self.old) result (caller_heap self.new) }
    {
        if self.is_lent {
            let block = std::mem::replace(&mut self.place, HeapBlock::nowhere());
            let loan = std::mem::replace(&mut self.loan, Loan::none());
            self.place = loan.end(block);
            self.is_lent = false;
            self.is_open = true;
            DONE
        } else if self.is_open {
            NOT_LENT
        } else {
            CLOSED
        }
    }
}

impl<T: Lendable<S> + Drop, S> LendableHeap<T, S> {
    ghost use Rattle.std.specs.Prelude.{IsOk};
    ghost use Rattle.c_base.specs.CallerHeap.{Opened, closed_now, closed_with};
    ghost use Rattle.c_base.specs.Place.{caller_heap};

    /// Puts the open heap `heap` into this closed `LendableHeap`, which is open then.
    pub fn put(&mut self, heap: Box<T, Global>)
        requires { IsOk (closed_now (caller_heap self.old)) }
        ensures { caller_heap self.new ≡ Opened heap.value }
    {
        self.place = HeapBlock::of(heap);
        self.is_open = true;
    }

    /// Closes this `LendableHeap`, also if it is lent, frees its memory, and keeps its largest
    /// handle for the next open; does nothing if it is closed.
    pub fn close(&mut self, memory: Memory)
        ensures { caller_heap self.new ≡ closed_with T.lending.last (caller_heap self.old) }
    {
        if self.is_lent {
            let _code = self.end_loan();
        }
        if !self.is_open {
            return;
        }
        self.last = self.place.lend().last();
        self.is_open = false;
        self.loan = Loan::none();
        let place = std::mem::replace(&mut self.place, HeapBlock::nowhere());
        drop(place.into_box(Global::new(memory)));
    }
}
