//! Reads and writes bytes of one half of an object in motion; the words of a half are consecutive.
//! `place` is the address of the slot that has this half; `at` counts from the object's first byte
//! for both halves. The region must have less than 2^32 words, among them those of the slot up to
//! the last one that is read or written; if none is, up to the one with the byte before `at`, or the
//! header if `at` is 0.
ghost use Rattle.std.specs.Prelude.{◌≡◌, ℕ, ◌+◌, ◌/◌, ◌^◌, ◌<◌, ◌≤◌, length, slice_index};
ghost use Rattle.cf_model.specs.Costs.{words_touched};
ghost use Rattle.step_ledger.specs.Counting.{RoseBy};
ghost use Rattle.region.specs.Overwriting.{byte_from};
ghost use Rattle.sliced_heap.specs.Writes.{WritesByPlaces, word_from};

use region::{Region, read_run, words_with, write_run};
use step_ledger::Steps;

/// Fills `out` with the bytes of an object from byte `at` on. All are in one half of it: that in the slot whose
/// first word is word `place` of the region. Costs one step for each word that holds one of the bytes.
pub(crate) fn read_half(region: &Region, place: u32, at: u32, out: &mut [u8], steps: &mut Steps)
    requires small { length region.now < 2 ^ 32 }
    requires within { place + 1 + (at + length out.old + 7) / 8 ≤ length region.now }
    ensures bytes { (j : ℕ) → j < length out.new → slice_index out.new j ≡ byte_from region.now (place + 1) (at + j) }
    ensures steps { RoseBy steps.old steps.new (words_touched at (length out.old)) }
{
    let len = out.len();
    // A call for no bytes touches no word.
    if len == 0 {
        return;
    }
    let from = (at % 8) as usize;
    let count = words_with(from, len);
    read_run(region, place + 1 + at / 8, count, from, out, steps);
}

/// Writes `bytes` over the bytes of an object from byte `at` on. All are in one half of it: that in the slot whose
/// first word is word `place` of the region. Costs one step for each word that holds one of the bytes.
pub(crate) fn write_half(region: &mut Region, place: u32, at: u32, bytes: &[u8], steps: &mut Steps)
    requires small { length region.old < 2 ^ 32 }
    requires within { place + 1 + (at + length bytes.now + 7) / 8 ≤ length region.old }
    ensures bytes { WritesByPlaces region.old region.new (word_from place) at bytes.now }
    ensures len { length region.new ≡ length region.old }
    ensures steps { RoseBy steps.old steps.new (words_touched at (length bytes.now)) }
{
    let len = bytes.len();
    if len == 0 {
        return;
    }
    let from = (at % 8) as usize;
    let count = words_with(from, len);
    write_run(region, place + 1 + at / 8, count, from, bytes, steps);
}
