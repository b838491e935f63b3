//! `LargeHeap`, a heap whose objects may be longer than a page, over a manager with pages; and its
//! calls.
ghost use Rattle.std.specs.Prelude.{◌≡◌, ◌+◌, ◌^◌, ◌<◌, ◌≤◌, IsTrue, OnOk, OnErr, IfOk, IfErr, Some, None, false, length, option_map};
ghost use Rattle.std.specs.FinMap.{get};
ghost use Rattle.cf_base.specs.Maps.{vacant};
ghost use Rattle.cf_model.specs.Families.{IsPaged};
ghost use Rattle.cf_model.specs.Ordered.{KeepsPromise};
ghost use Rattle.cf_model.specs.State.{paging_in};
ghost use Rattle.step_ledger.specs.Counting.{RoseAtMost};
ghost use Rattle.large_objects.specs.Large.{KeepsParts};
ghost use Rattle.large_objects.specs.LargeCosts.{ByCosts, first_count, large_access_steps, large_free_steps, large_malloc_steps, object_free_steps, object_malloc_steps};
ghost use Rattle.large_objects.specs.Needed.{large_bytes};
ghost use Rattle.large_objects.specs.LargeSteps.{FreesLarge, GivesLarge, HasLargeRoom, IsEmptyLarge, IsLargeFault, IsShutLarge};
ghost use Rattle.large_objects.specs.LargeSteps.{IsLargeFree, IsLargeMalloc, IsLargeRead, IsLargeWrite, StaysKept, part_bytes_in};

use crate::free::release;
use crate::malloc::make;
use cf_base::{AccessFault, BytesNeeded, Handle, NotLive, OutOfMemory, Refusal, Settings};
use cf_model::Manager;
use std::alloc::{AllocError, Global};
use std::marker::Model;
use step_ledger::{Meter, Steps};

/// Objects that may be longer than a page, over an inner manager with pages. An object that fits a
/// page with its header is one inner object; a longer one is a spine and its parts. The handle of an
/// object is that of this inner object or of the spine.
///
/// Of the methods with `self`, all but `inner`, `is_open` and `open_heap` require an open heap. The
/// calls `malloc`, `free`, `write` and `read` add their steps to the meter's count, and first reset
/// a count above 2 ^ 62. If the inner manager has step bounds of its own, the clauses `steps` of
/// these calls give or bound their steps by those of the manager's calls (`InnerCosts`).
#[derive(Drop)]
pub struct LargeHeap<H: Manager> {
    alloc: Global,
    pub(crate) inner: H,
    is_open: bool,
    /// The number of pages of the inner manager.
    pub(crate) pages: u32,
    /// The bytes of a whole part, the largest object that fits a page.
    pub(crate) part_bytes: u32,
    /// By handle, the length of the object; none if the handle is a part's or isn't live.
    pub(crate) lengths: Vec<Option<u32>>,
}

impl<H: Manager> Model for LargeHeap<H> {
    ghost use Rattle.large_objects.specs.Large.{LargeState, large_code};

    ghost Value = { LargeState };

    ghost coded = { large_code };

    ghost use Rattle.large_objects.specs.Layout.{IsValid, large_state};

    ghost view = { λ h. large_state h.is_open h.part_bytes h.lengths.items (H.state h.inner) };

    ghost invariant = { λ h. IsValid h.is_open h.pages h.part_bytes h.lengths.items (H.state h.inner) };
}

impl<H: Manager> LargeHeap<H> {
    /// Returns a closed heap of long objects over this manager, which must have pages. Allocates
    /// nothing.
    pub fn new(alloc: Global, heap: H) -> LargeHeap<H>
        requires { IsPaged (H.state heap).kind }
        ensures closed { result.is_open ≡ false }
        ensures inner { result.inner ≡ H.state heap }
    {
        LargeHeap {
            alloc,
            inner: heap,
            is_open: false,
            pages: 0,
            part_bytes: 0,
            lengths: Vec::new(alloc),
        }
    }

    /// The memory that `LargeHeap::open_heap` asks for, if the inner manager asks for `inner` with these settings. The
    /// bytes of the `LargeHeap` itself, which its owner keeps, aren't counted. `inner` must have less than 2 ^ 31
    /// blocks and 2 ^ 63 bytes.
    pub fn bytes_needed(inner: BytesNeeded, s: &Settings) -> BytesNeeded
        requires few { inner.blocks < 2 ^ 31 }
        requires fits { inner.total < 2 ^ 63 }
        ensures { result ≡ large_bytes inner s.now.proxies }
    {
        inner.and(BytesNeeded::block(8 * u64::from(s.proxies)))
    }

    /// `LargeHeap`: lends its inner manager, for calls that change nothing.
    pub fn inner(&self) -> &H
        ensures { H.state result.now ≡ self.now.inner }
    {
        &self.inner
    }

    /// Returns true if the heap of long objects is open. An open heap keeps its rules (`KeepsParts`).
    pub fn is_open(&self) -> bool
        ensures value { result ≡ self.now.is_open }
        ensures parts { IsTrue result → KeepsParts self.now }
    {
        self.is_open
    }

    /// `LargeHeap`: opens an empty heap of long objects with the settings `s`, whose bound must be
    /// 1; an open heap loses its objects. Allocates all memory: that of the inner manager, and a
    /// table with a length for each proxy. After `OutOfMemory` the heap is closed, and the inner
    /// manager is unchanged or closed; the heap may be opened again. An inner manager that promised
    /// an order promises one afterwards.
    pub fn open_heap(&mut self, s: &Settings) -> Result<(), OutOfMemory>
        requires pages { IsPaged self.old.inner.kind }
        requires one { s.now.k ≡ 1 }
        ensures ok { OnOk result (IsEmptyLarge self.old s.now self.new) }
        ensures parts { OnOk result (KeepsParts self.new) }
        ensures err { OnErr result (IsShutLarge self.old self.new) }
        ensures kind { self.new.inner.kind ≡ self.old.inner.kind }
        ensures promise { KeepsPromise self.old.inner self.new.inner }
    {
        self.is_open = false;
        self.lengths = Vec::new(self.alloc);
        let Ok(lengths) = no_lengths(self.alloc, s.proxies) else {
            return Err(OutOfMemory);
        };
        match self.inner.open_heap(s) {
            Ok(()) => {}
            Err(failed) => return Err(failed),
        }
        self.lengths = lengths;
        self.pages = s.pages;
        self.part_bytes = 8 * (s.page_words - 1);
        self.is_open = true;
        Ok(())
    }

    /// Adds an object, long or short, of `bytes` bytes, all zero, under a handle that wasn't live.
    /// Fails with `Size` if the object's spine would need more than a page, else with `Proxy` if
    /// there would be more inner objects than proxies, else with `Space` if the inner objects would
    /// need more pages than there are. A refusal changes neither the heap nor the inner manager.
    /// First resets a meter above 2 ^ 62. If the inner manager has step bounds, takes at most the
    /// steps of a malloc for each inner object, and of a write of four bytes for each part; none if
    /// refused.
    pub fn malloc(&mut self, bytes: u32, meter: &mut Meter) -> Result<Handle, Refusal>
        requires { IsTrue self.old.is_open }
        ensures step { IsLargeMalloc self.old bytes result self.new }
        ensures kept { StaysKept self.old self.new }
        ensures steps { ByCosts self.old.inner H.most (λ c. RoseAtMost (first_count meter.old) meter.new
            (large_malloc_steps c self.old bytes result)) }
    {
        reset_full_meter(meter);
        match self.refusal(bytes, meter.steps()) {
            Some(cause) => Err(cause),
            None => {
                // `totals` of a manager without bounds of its own may have taken many steps.
                reset_full_meter(meter);
                Ok(self.make_object(bytes, meter.steps()))
            }
        }
    }

    /// Removes an object, and its spine and parts if it is longer than a page. Fails with
    /// `NotLive` if the handle isn't that of an object, for instance if it is that of a part, and
    /// then the heap is unchanged. First resets a meter above 2 ^ 62. If the inner manager has step
    /// bounds, takes at most the steps of a free for each inner object, and of a read of four bytes
    /// for each part; none if refused.
    pub fn free(&mut self, h: Handle, meter: &mut Meter) -> Result<(), NotLive>
        requires { IsTrue self.old.is_open }
        ensures step { IsLargeFree self.old h.0 result self.new }
        ensures kept { StaysKept self.old self.new }
        ensures steps { ByCosts self.old.inner H.most (λ c. RoseAtMost (first_count meter.old) meter.new
            (large_free_steps c self.old h.0)) }
    {
        reset_full_meter(meter);
        match self.length_of(h) {
            Some(bytes) => {
                self.release_object(h, bytes, meter.steps());
                Ok(())
            }
            None => Err(NotLive),
        }
    }

    /// Writes bytes into an object, long or short, from byte `at` on; no other object changes. Fails with `Unknown` if
    /// the handle isn't that of an object, with `Range` if `at` plus their number exceeds the object's length; then
    /// the heap is unchanged. First resets a meter above 2 ^ 62. If the inner manager has step bounds, takes exactly
    /// the steps of one write for a short object; for a long one those of a read of four bytes and of a write for each
    /// part that gets bytes; none if refused.
    pub fn write(
        &mut self,
        h: Handle,
        at: u32,
        bytes: &[u8],
        meter: &mut Meter,
    ) -> Result<(), AccessFault>
        requires { IsTrue self.old.is_open }
        ensures step { IsLargeWrite self.old (record { number = h.0; from = at }) bytes.now result self.new }
        ensures kept { StaysKept self.old self.new }
        ensures steps { ByCosts self.old.inner H.most (λ c. meter.new ≡ first_count meter.old
            + large_access_steps c self.old (record { number = h.0; from = at }) (length bytes.now) result) }
    {
        reset_full_meter(meter);
        match self.length_for(h, at, bytes.len()) {
            Ok(length) => {
                if length <= self.part_bytes {
                    self.write_short(h, at, bytes, meter.steps());
                } else {
                    self.write_long(h, at, bytes, meter.steps());
                }
                Ok(())
            }
            Err(fault) => Err(fault),
        }
    }

    /// Fills `out` with bytes of an object, long or short, from byte `at` on. Fails with `Unknown` if the handle isn't
    /// that of an object, with `Range` if `at` plus their number exceeds the object's length, and then leaves `out`
    /// unchanged. First resets a meter above 2 ^ 62. If the inner manager has step bounds, takes exactly as many steps
    /// as a write of these bytes.
    pub fn read(
        &self,
        h: Handle,
        at: u32,
        out: &mut [u8],
        meter: &mut Meter,
    ) -> Result<(), AccessFault>
        requires { IsTrue self.now.is_open }
        ensures answer { IsLargeRead self.now (record { number = h.0; from = at }) out.old result out.new }
        ensures kept { KeepsParts self.now }
        ensures steps { ByCosts self.now.inner H.most (λ c. meter.new ≡ first_count meter.old
            + large_access_steps c self.now (record { number = h.0; from = at }) (length out.old) result) }
    {
        reset_full_meter(meter);
        match self.length_for(h, at, out.len()) {
            Ok(length) => {
                if length <= self.part_bytes {
                    self.read_short(h, at, out, meter.steps());
                } else {
                    self.read_long(h, at, out, meter.steps());
                }
                Ok(())
            }
            Err(fault) => Err(fault),
        }
    }

    /// `LargeHeap`: makes an object of `bytes` zero bytes, for which the heap has room, and returns its handle. The
    /// count of steps must be at most 2 ^ 62.
    fn make_object(&mut self, bytes: u32, steps: &mut Steps) -> Handle
        requires open { IsTrue self.old.is_open }
        requires room { HasLargeRoom self.old bytes }
        requires low { steps.old ≤ 2 ^ 62 }
        ensures given { GivesLarge self.old result.0 bytes self.new }
        ensures kept { StaysKept self.old self.new }
        ensures steps { ByCosts self.old.inner H.most (λ c. RoseAtMost steps.old steps.new
            (object_malloc_steps c (paging_in self.old.inner) (part_bytes_in self.old) bytes)) }
    {
        let h = make(&mut self.inner, bytes, self.part_bytes, steps);
        self.lengths[h.0 as usize] = Some(bytes);
        h
    }

    /// Frees the live object h, long or short, which has `bytes` bytes. The steps before must be at most 2 ^ 62.
    fn release_object(&mut self, h: Handle, bytes: u32, steps: &mut Steps)
        requires open { IsTrue self.old.is_open }
        requires found { option_map length (get self.old.objects h.0) ≡ Some bytes }
        requires low { steps.old ≤ 2 ^ 62 }
        ensures freed { FreesLarge self.old h.0 self.new }
        ensures kept { StaysKept self.old self.new }
        ensures steps { ByCosts self.old.inner H.most (λ c. RoseAtMost steps.old steps.new
            (object_free_steps c (paging_in self.old.inner) (part_bytes_in self.old) bytes)) }
    {
        release(&mut self.inner, h, bytes, self.part_bytes, steps);
        self.lengths[h.0 as usize] = None;
    }

    /// The length of a long or short object in bytes; none if the handle isn't that of an object. Counts no step.
    pub fn length_of(&self, h: Handle) -> Option<u32>
        requires { IsTrue self.now.is_open }
        ensures value { result ≡ option_map length (get self.now.objects h.0) }
        ensures kept { StaysKept self.now self.now }
    {
        match self.lengths.get(h.0 as usize) {
            Some(length) => *length,
            None => None,
        }
    }

    /// The length in bytes of the object h, long or short, if the object has `count` bytes from byte `at` on. Fails
    /// with `Unknown` if h isn't the handle of an object, with `Range` if `at` plus their number exceeds the object's
    /// length.
    fn length_for(&self, h: Handle, at: u32, count: usize) -> Result<u32, AccessFault>
        requires { IsTrue self.now.is_open }
        ensures found { IfOk result (λ n. option_map length (get self.now.objects h.0) ≡ Some n) }
        ensures within { IfOk result (λ n. at + count ≤ n) }
        ensures kept { StaysKept self.now self.now }
        ensures err { IfErr result (λ e. IsLargeFault self.now (record { number = h.0; from = at }) count e) }
    {
        let Some(length) = self.length_of(h) else {
            return Err(AccessFault::Unknown);
        };
        if at <= length && count <= (length - at) as usize {
            Ok(length)
        } else {
            Err(AccessFault::Range)
        }
    }
}

/// `LargeHeap`: resets the meter if its count is above 2 ^ 62, for an inner manager needs a count of at most 2 ^ 63.
fn reset_full_meter(meter: &mut Meter)
    ensures count { meter.new ≡ first_count meter.old }
    ensures low { meter.new ≤ 2 ^ 62 }
{
    if 1 << 62 < meter.steps().count() {
        meter.lap();
    }
}

/// For long objects, makes the table of lengths by handle, in which no handle has one. Returns
/// `AllocError` if the allocation fails.
fn no_lengths(alloc: Global, proxies: u32) -> Result<Vec<Option<u32>>, AllocError>
    ensures { IfOk result (λ lengths. lengths.items ≡ vacant proxies) }
{
    vec![in alloc; None; proxies as usize]
}
