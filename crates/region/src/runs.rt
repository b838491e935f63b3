//! Reading and writing bytes in consecutive words of a region, at a step for each word; and how
//! many words hold a number of bytes. The words must lie within the region, and the bytes within
//! these words.
ghost use Rattle.std.specs.Prelude.{◌≡◌, ℕ, ◌+◌, ◌*◌, ◌<◌, ◌≤◌, length, slice_index};
ghost use Rattle.step_ledger.specs.Counting.{RoseBy};
ghost use Rattle.region.specs.Overwriting.{Overwrites, byte_from, words_with};

use crate::Region;
use crate::cells::{copy_word, patched, read_bytes, write_bytes};
use step_ledger::Steps;

/// Returns how many words hold the first `at + count` bytes of a list of words. The result must be
/// below 2^32.
pub fn words_with(at: usize, count: usize) -> u32
    requires { words_with at count < 4294967296 }
    ensures { result ≡ words_with at count }
{
    (at + count).div_ceil(8) as u32
}

/// Fills `out` with bytes of the `n` words of the region from word `first` on, beginning with byte
/// `at` of these words. Costs n steps.
pub fn read_run(region: &Region, first: u32, n: u32, at: usize, out: &mut [u8], steps: &mut Steps)
    requires within { first + n ≤ length region.now }
    requires fits { at + length out.old ≤ 8 * n }
    ensures bytes { (j : ℕ) → j < length out.new → slice_index out.new j ≡ byte_from region.now first (at + j) }
    ensures steps { RoseBy steps.old steps.new n }
{
    // Most reads are of one word.
    if n == 1 {
        read_word(region, first, at, out, steps);
    } else {
        read_bytes(region.payload(first, n, steps), at, out);
    }
}

/// Writes `bytes` into the `n` words of the region from word `first` on, beginning with byte `at`
/// of these words. Every other byte stays. Costs n steps.
pub fn write_run(
    region: &mut Region,
    first: u32,
    n: u32,
    at: usize,
    bytes: &[u8],
    steps: &mut Steps,
)
    requires within { first + n ≤ length region.old }
    requires fits { at + length bytes.now ≤ 8 * n }
    ensures words { Overwrites region.old region.new (record { from = first; count = n }) at bytes.now }
    ensures len { length region.new ≡ length region.old }
    ensures steps { RoseBy steps.old steps.new n }
{
    // Most writes are to one word.
    if n == 1 {
        write_word(region, first, at, bytes, steps);
    } else {
        write_bytes(region.payload_mut(first, n, steps), at, bytes);
    }
}

/// Fills `out` with the bytes of word `i` of the region, from its byte `at` on. Costs one step.
pub fn read_word(region: &Region, i: u32, at: usize, out: &mut [u8], steps: &mut Steps)
    requires within { i < length region.now }
    requires fits { at + length out.old ≤ 8 }
    ensures bytes { (j : ℕ) → j < length out.new → slice_index out.new j ≡ byte_from region.now i (at + j) }
    ensures steps { RoseBy steps.old steps.new 1 }
{
    copy_word(region.read(i, steps), at, out);
}

/// Writes `bytes` into word `i` of the region, from its byte `at` on. Every other byte stays. Costs
/// one step.
pub fn write_word(region: &mut Region, i: u32, at: usize, bytes: &[u8], steps: &mut Steps)
    requires within { i < length region.old }
    requires fits { at + length bytes.now ≤ 8 }
    ensures words { Overwrites region.old region.new (record { from = i; count = 1 }) at bytes.now }
    ensures len { length region.new ≡ length region.old }
    ensures steps { RoseBy steps.old steps.new 1 }
{
    let words = region.payload_mut(i, 1, steps);
    words[0] = patched(words[0], at, bytes);
}
