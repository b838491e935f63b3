//! `Halves`: where the words of an object are, also while a job moves the object; and functions that read a
//! word of it, or read or write its bytes. The words that were moved, the first half, are at the object's new
//! address; the others, the second half, are in its old slot. For each word that a function uses, the region
//! must have all words of the object up to this one, both from `to` and from `from` on. For a read or write of
//! no bytes these are the words up to the one with the byte before `at`, or the header if `at` is 0. The region
//! must have less than 2^32 words; `at` and the number of bytes must sum to less than 2^32.
ghost use Rattle.std.specs.Prelude.{◌≡◌, ℕ, ◌+◌, ◌-◌, ◌*◌, ◌/◌, ◌^◌, ◌<◌, ◌≤◌, length, min, slice_index};
ghost use Rattle.cf_model.specs.Costs.{words_touched};
ghost use Rattle.step_ledger.specs.Counting.{RoseBy};
ghost use Rattle.sliced_heap.specs.Halves.{HalvesAreApart, byte_in_halves, first_bytes, place_of_word};
ghost use Rattle.sliced_heap.specs.Writes.{WritesByPlaces};

use crate::half::{read_half, write_half};
use region::Region;
use step_ledger::Steps;

/// The number of bytes of a word.
const WORD_BYTES: usize = 8;

/// Where the words of an object are, from its header, word 0, on. Word i is at `to + i` if i is below `done`,
/// else at `from + i`. If no job moves the object, `to` and `from` are both its address, and `done` is 0.
#[derive(Clone, Copy, Debug, PartialEq, Eq)]
pub struct Halves {
    /// The object's new address.
    pub to: u32,
    /// The first word of the slot that the object leaves.
    pub from: u32,
    /// The number of the object's words that were moved, the header among them.
    pub done: u32,
}

/// In a sliced heap, reads word `i` of the object whose halves are `s`; word 0 is its header. Costs one step.
pub fn read_word(region: &Region, s: Halves, i: u32, steps: &mut Steps) -> u64
    requires small { length region.now < 2 ^ 32 }
    requires to { s.to + i < length region.now }
    requires from { s.from + i < length region.now }
    ensures value { result ≡ slice_index region.now (place_of_word s i) }
    ensures steps { RoseBy steps.old steps.new 1 }
{
    let start = if s.done <= i { s.from } else { s.to };
    region.read(start + i, steps)
}

/// Of the `count` bytes from byte `at` on of the object whose halves are `s`, the number of those
/// that are in its first half: in the words that were moved.
fn first_bytes(s: Halves, at: u32, count: usize) -> usize
    ensures { result ≡ first_bytes s at count }
{
    (WORD_BYTES * (s.done as usize).saturating_sub(1))
        .saturating_sub(at as usize)
        .min(count)
}

/// Fills `out` with the bytes from byte `at` on of the object whose halves are `s`, each from the half that
/// holds it. Costs one step for each word that holds one of them.
pub fn read_halves(region: &Region, s: Halves, at: u32, out: &mut [u8], steps: &mut Steps)
    requires small { length region.now < 2 ^ 32 }
    requires short { at + length out.old < 2 ^ 32 }
    requires to { s.to + 1 + (at + length out.old + 7) / 8 ≤ length region.now }
    requires from { s.from + 1 + (at + length out.old + 7) / 8 ≤ length region.now }
    ensures bytes { (j : ℕ) → j < length out.new → slice_index out.new j ≡ byte_in_halves s region.now (at + j) }
    ensures steps { RoseBy steps.old steps.new (words_touched at (length out.old)) }
{
    let first = first_bytes(s, at, out.len());
    let (low, high) = out.split_at_mut(first);
    read_half(region, s.to, at, low, steps);
    read_half(region, s.from, at + first as u32, high, steps);
}

/// Writes `bytes` over the bytes from byte `at` on of the object whose halves are `s`, each in the half that
/// holds it. The two halves must not overlap. Costs one step for each word that holds one of them.
pub fn write_halves(region: &mut Region, s: Halves, at: u32, bytes: &[u8], steps: &mut Steps)
    requires small { length region.old < 2 ^ 32 }
    requires short { at + length bytes.now < 2 ^ 32 }
    requires to { s.to + 1 + (at + length bytes.now + 7) / 8 ≤ length region.old }
    requires from { s.from + 1 + (at + length bytes.now + 7) / 8 ≤ length region.old }
    requires apart { HalvesAreApart s (1 + (at + length bytes.now + 7) / 8) }
    ensures bytes { WritesByPlaces region.old region.new (place_of_word s) at bytes.now }
    ensures len { length region.new ≡ length region.old }
    ensures steps { RoseBy steps.old steps.new (words_touched at (length bytes.now)) }
{
    let first = first_bytes(s, at, bytes.len());
    let (low, high) = bytes.split_at(first);
    write_half(region, s.to, at, low, steps);
    write_half(region, s.from, at + first as u32, high, steps);
}
