//! `Loan`: owns the words of a lent heap, apart from the heap, while C may read and write them.
//! `Lendable`: a type of open heap whose words can be lent.
ghost use Rattle.std.specs.Prelude.{◌≡◌, [], Option, None, IsSome};
ghost use Rattle.std.specs.Borrow.{Array, Lends, sem, u64};
ghost use Rattle.c_base.specs.Lending.{AreOf, AreWords, IsFit, Lending};
ghost use Rattle.c_base.specs.Lent.{loan_owns};
ghost use denote.RawPtr.{Ptr, coded_ptr};

use crate::block::HeapBlock;
use std::marker::{Model, PhantomData};

/// A type of open heap whose words can be lent. The type `S` has the same fields in the same
/// memory, but no invariant, since a caller in C may write any words.
pub trait Lendable<S>: Sized {
    /// How a heap of this type lends its words (`Lending`): its words and largest handle, which
    /// values of `S` are the fields of a heap, the state of that heap, and the fields with other
    /// words in place of the heap's.
    ghost lending: { Lending Self S };

    /// For a loan, returns the block of an open heap as the block of that heap's fields, of type
    /// `S`.
    fn loosened(block: HeapBlock<Self>) -> HeapBlock<S>
        requires { IsSome block.held }
        ensures { AreOf lending result.held block.held };

    /// After a loan, returns the block of the fields of an open heap as the block of that heap.
    fn tightened(block: HeapBlock<S>) -> HeapBlock<Self>
        requires { IsFit lending block.held }
        ensures { AreOf lending block.held result.held };

    /// `Lendable`: borrows all words of the heap whose fields `parts` are. When the borrow ends, the fields have the
    /// words as they then are.
    fn all_words(parts: &mut S) -> &mut [u64]
        requires { lending.fits parts.old }
        ensures* writes_back { sem 𝓛 (Lends S.row (Array u64 0) parts.entry result (lending.with_words parts.old)) }
        ensures value { result.now ≡ lending.words (lending.state parts.old) };

    /// `Lendable`: the largest of the heap's handles.
    fn last(&self) -> u32
        ensures { result ≡ lending.last self.now };

    /// Fields into which the heap's own words are put are unchanged.
    ghost restored: { (a : S) → lending.fits a → AreWords (lending.words (lending.state a)) → lending.with_words a (lending.words (lending.state a)) ≡ a };

    /// The fields hold no borrow.
    ghost forever: { S.row.lives ≡ [] };
}

/// Owns the words of a lent heap, and what makes the heap whole again when the loan ends; nothing
/// if `heap`, the heap's state, is `None`. `block` is the address of the heap's block, `words` that
/// of its words.
#[derive(Drop)]
pub struct Loan<T: Lendable<S>, S> {
    of: PhantomData<(T, S)>,
    pub ghost heap: { Option T },
    pub ghost block: { Ptr } by { coded_ptr },
    pub ghost words: { Ptr } by { coded_ptr },
}

impl<T: Lendable<S>, S> Model for Loan<T, S> {
    ghost also_owns = { λ l. loan_owns S.row T.lending l.block l.words l.heap };
}

impl<T: Lendable<S>, S> Loan<T, S> {
    /// Returns a `Loan` of nothing.
    pub fn none() -> Loan<T, S>
        ensures { result.heap ≡ None }
    {
        Loan { of: PhantomData }
    }

    /// For C, lends the words of the heap in a block. Returns the block, which has no heap then, the loan, and the
    /// address of the words.
    pub fn new(block: HeapBlock<T>) -> (HeapBlock<T>, Loan<T, S>, *mut u64)
        requires { IsSome block.held }
        ensures block { result.0.held ≡ None }
        ensures address { result.1.block ≡ result.0.at }
        ensures heap { result.1.heap ≡ block.held }
        ensures words { result.1.words ≡ result.2 }
    {
        split(T::loosened(block))
    }

    /// Ends this loan, which must be one of a heap: returns `block`, which must have the address of
    /// the loan's block, with the heap again. The heap has the words as they are then.
    pub fn end(self, block: HeapBlock<T>) -> HeapBlock<T>
        requires some { IsSome self.heap }
        requires address { self.block ≡ block.at }
        ensures { result.held ≡ self.heap }
    {
        T::tightened(joined(self, block))
    }
}

/// `Loan::new` for a block of type `S`, which has the fields of a heap.
fn split<T: Lendable<S>, S>(block: HeapBlock<S>) -> (HeapBlock<T>, Loan<T, S>, *mut u64)
    requires { IsFit T.lending block.held }
    ensures block { result.0.held ≡ None }
    ensures address { result.1.block ≡ result.0.at }
    ensures heap { AreOf T.lending block.held result.1.heap }
    ensures words { result.1.words ≡ result.2 }
{
    let HeapBlock { at } = block;
    let words = T::all_words(unsafe { &mut *at }).as_mut_ptr();
    (
        HeapBlock { at: at as *mut T },
        Loan { of: PhantomData },
        words,
    )
}

/// `Loan::end`, but returns the block as one with the heap's fields.
fn joined<T: Lendable<S>, S>(loan: Loan<T, S>, block: HeapBlock<T>) -> HeapBlock<S>
    requires some { IsSome loan.heap }
    requires address { loan.block ≡ block.at }
    ensures { AreOf T.lending result.held loan.heap }
{
    let HeapBlock { at } = block;
    HeapBlock { at: at as *mut S }
}
