//! Borrows the whole words of an object of the moving manager, without a copy: eight bytes to a word,
//! without the bytes after the last whole word.
ghost use Rattle.std.specs.Prelude.{◌≡◌, ◌+◌, ◌≤◌, List, ℕ, IsSome, IsTrue, Some, length, take, drop, option_copied, option_map};
ghost use Rattle.std.specs.Borrow.{sem};
ghost use Rattle.std.specs.FinMap as map;
ghost use Rattle.step_ledger.specs.Counting.{RoseAtMost, RoseBy};
ghost use Rattle.cf_base.specs.declared.kind.Kind.TheVariants.{Moving};
ghost use Rattle.paged_heap.specs.Layout.{Holds, IsValidIn, state_at, state_in};
ghost use Rattle.cf_model.specs.Rules.{KeepsRules};
ghost use Rattle.paged_heap.specs.HeapLoan.{LendsPayload, LendsPayloadIf};
ghost use Rattle.paged_heap.specs.Payload.{lent_back, payload_bound, payload_of, words_lent};
ghost use Rattle.paged_heap.specs.PayloadLoan.{LendsPayloadIn, LendsPayloadOf, LendsRun, words_found};

use crate::manager::PagedHeap;
use crate::open_heap::OpenHeap;
use cf_base::Handle;
use region::Header;
use step_ledger::Steps;
use virtual_words::Direct;

impl PagedHeap<Direct> {
    /// Lends the whole words of an object without a copy, eight bytes to a word, the least significant
    /// first; none if the handle is not live. The bytes after the last whole word are not lent: use
    /// `read`. Costs at most two steps, and one for each word that is lent.
    pub fn payload(&self, h: Handle, steps: &mut Steps) -> Option<&[u64]>
        requires { IsTrue self.now.state.is_open }
        ensures value { option_copied result ≡ payload_of self.now.state h.0 }
        ensures bound { RoseAtMost steps.old steps.new (payload_bound (payload_of self.now.state h.0)) }
    {
        payload(self.open(), h, steps)
    }

    /// Lends the words that `payload` lends, for writing; none if the handle is not live. After the
    /// borrow the object has the words that were written, and all else is unchanged. Costs at most
    /// two steps, and one for each word that is lent.
    pub fn payload_mut(&mut self, h: Handle, steps: &mut Steps) -> Option<&mut [u64]>
        requires { IsTrue self.old.state.is_open }
        ensures* writes_back { sem 𝓛 (LendsPayloadIf self.entry h.0 result) }
        ensures value { option_map (λ r. r.now) result ≡ payload_of self.old.state h.0 }
        ensures rules { (ws : List ℕ) → KeepsRules (lent_back self.old h.0 ws).state }
        ensures bound { RoseAtMost steps.old steps.new (payload_bound (payload_of self.old.state h.0)) }
    {
        let lent = self.lend(h, steps);
        if lent.0 { Some(lent.1) } else { None }
    }

    /// Returns whether the handle is live, and lends the words that `payload_mut` lends; no words
    /// if it is not live. Costs as much as `payload_mut`. For callers that prove what the heap is
    /// after the borrow: the checker does not follow a borrow inside an `Option`.
    pub fn lend(&mut self, h: Handle, steps: &mut Steps) -> (bool, &mut [u64])
        requires { IsTrue self.old.state.is_open }
        ensures* writes_back { sem 𝓛 (LendsPayload self.entry h.0 result.1) }
        ensures value { words_lent result.0 result.1.now ≡ payload_of self.old.state h.0 }
        ensures rules { (ws : List ℕ) → KeepsRules (lent_back self.old h.0 ws).state }
        ensures bound { RoseAtMost steps.old steps.new (payload_bound (payload_of self.old.state h.0)) }
    {
        words_in(&mut self.inner, h, steps)
    }
}

/// Lends the whole words of an object of an open heap for reading; none if the handle is not live. Costs as much as
/// `PagedHeap::payload`.
fn payload<'a>(heap: &'a OpenHeap, h: Handle, steps: &mut Steps) -> Option<&'a [u64]>
    requires kept { Holds Moving heap.now }
    ensures value { option_copied result ≡ payload_of (state_at Moving heap.now) h.0 }
    ensures bound { RoseAtMost steps.old steps.new (payload_bound (payload_of (state_at Moving heap.now) h.0)) }
{
    let Some(place) = heap.proxies.lookup(h, steps) else {
        return None;
    };
    let count = Header::unpack(heap.region.read(place, steps)).length / 8;
    Some(heap.region.payload(place + 1, count, steps))
}

/// Returns whether the handle is live, and lends the whole words of its object for writing; no words if it is not live.
/// Costs as much as `PagedHeap::lend`; after the borrow the object has the words that were written.
fn payload_mut<'a>(heap: &'a mut OpenHeap, h: Handle, steps: &mut Steps) -> (bool, &'a mut [u64])
    requires kept { Holds Moving heap.old }
    ensures* writes_back { sem 𝓛 (LendsPayloadOf heap.entry h.0 result.1) }
    ensures value { words_lent result.0 result.1.now ≡ payload_of (state_at Moving heap.old) h.0 }
    ensures bound { RoseAtMost steps.old steps.new (payload_bound (payload_of (state_at Moving heap.old) h.0)) }
{
    let (live, first, count) = find_words(heap, h, steps);
    (live, run_of(heap, first, count, steps))
}

/// Returns whether the handle is live, the index in the region of the first of its object's whole words, and how many
/// these are; both numbers are 0 if it is not live. Costs at most two steps.
fn find_words(heap: &OpenHeap, h: Handle, steps: &mut Steps) -> (bool, u32, u32)
    requires kept { Holds Moving heap.now }
    ensures found { result ≡ words_found heap.now (map.get heap.now.proxies.places h.0) }
    ensures within { result.1 + result.2 ≤ length heap.now.region }
    ensures bound { RoseAtMost steps.old steps.new 2 }
{
    match heap.proxies.lookup(h, steps) {
        Some(place) => {
            let count = Header::unpack(heap.region.read(place, steps)).length / 8;
            (true, place + 1, count)
        }
        None => (false, 0, 0),
    }
}

/// Lends `count` words of an open heap's region, which must have them, from word `first` on, for writing. After the
/// borrow the region has the words that were written. Costs a step for each word.
fn run_of<'a>(heap: &'a mut OpenHeap, first: u32, count: u32, steps: &mut Steps) -> &'a mut [u64]
    requires within { first + count ≤ length heap.old.region }
    ensures* writes_back { sem 𝓛 (LendsRun heap.entry first count result) }
    ensures value { result.now ≡ take count (drop first heap.old.region) }
    ensures len { length result.now ≡ count }
    ensures steps { RoseBy steps.old steps.new count }
{
    heap.region.payload_mut(first, count, steps)
}

/// Lends the whole words of an object for writing, as `payload_mut` does, for the heap `inner` of a
/// manager, which must be open.
fn words_in<'a>(
    inner: &'a mut Option<OpenHeap>,
    h: Handle,
    steps: &mut Steps,
) -> (bool, &'a mut [u64])
    requires kept { IsValidIn Moving inner.old }
    requires open { IsSome inner.old }
    ensures* writes_back { sem 𝓛 (LendsPayloadIn inner.entry h.0 result.1) }
    ensures value { words_lent result.0 result.1.now ≡ payload_of (state_in Moving inner.old) h.0 }
    ensures bound { RoseAtMost steps.old steps.new (payload_bound (payload_of (state_in Moving inner.old) h.0)) }
{
    match inner {
        Some(open) => payload_mut(open, h, steps),
        None => unreachable!(),
    }
}
