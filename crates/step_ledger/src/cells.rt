//! `Cells`, a list of counted cells in allocated memory. Each access to a cell, or exchange of two,
//! adds a step to the ledger.
ghost use Rattle.std.specs.Prelude.{ℕ, ◌≡◌, ◌+◌, ◌^◌, ◌<◌, ◌≤◌, ◌⊎◌, true, length, drop, take, slice_index, slice_index_or, slice_set};
ghost use Rattle.std.specs.Int.{bit_at};
ghost use Rattle.step_ledger.specs.Counting.{RoseBy};
ghost use Rattle.cf_base.specs.Bits.{WritesBit};
ghost use Rattle.cf_base.specs.Exchanges.{exchanged};

use crate::Steps;
use crate::array::with_bit;
use std::marker::Model;

/// A list of cells in allocated memory. Each access to a cell, or exchange of two, adds a step to the
/// ledger. Reading the length costs none. A call's cells must be in the list, and the position of a
/// bit must be below 64.
#[derive(Drop)]
pub struct Cells<T> {
    items: Vec<T>,
}

impl<T> Model for Cells<T> {
    ghost use Rattle.std.specs.Prelude.{List};
    ghost use Rattle.std.specs.Coded.{coded_list};

    ghost Value = { List T };

    ghost coded = { coded_list T.code };

    ghost view = { λ c. c.items.items };
}

impl<T: Copy> Cells<T> {
    /// Makes cells of a list's items. Costs no step: the cells aren't part of a heap yet.
    pub fn new(items: Vec<T>) -> Cells<T>
        ensures { result ≡ items.items }
    {
        Cells { items }
    }

    /// How many cells the list has. Costs no step.
    pub fn len(&self) -> usize
        ensures { result ≡ length self.now }
    {
        self.items.len()
    }

    /// Returns the value of cell `i` of the list. Costs one step.
    pub fn get(&self, i: usize, steps: &mut Steps) -> T
        requires { i < length self.now }
        ensures value { result ≡ slice_index_or self.now i result }
        ensures steps { RoseBy steps.old steps.new 1 }
    {
        steps.tick(1); // the cell is read
        self.items[i]
    }

    /// Writes `value` to cell `i` of the list. Costs one step.
    pub fn set(&mut self, i: usize, value: T, steps: &mut Steps)
        requires { i < length self.old }
        ensures cells { self.new ≡ slice_set self.old i value }
        ensures steps { RoseBy steps.old steps.new 1 }
    {
        steps.tick(1); // the cell is written
        self.items[i] = value;
    }

    /// Copies cell `from` to cell `to`, and returns the copied value. Costs two steps.
    pub fn copy(&mut self, from: usize, to: usize, steps: &mut Steps) -> T
        requires from { from < length self.old }
        requires to { to < length self.old }
        ensures value { result ≡ slice_index_or self.old from result }
        ensures cells { self.new ≡ slice_set self.old to result }
        ensures steps { RoseBy steps.old steps.new 2 }
    {
        steps.tick(2); // one cell is read, and one written
        let value = self.items[from];
        self.items[to] = value;
        value
    }

    /// Writes `value` to cell `from`, and that cell's old value to cell `to`. Returns the old
    /// value. Costs two steps.
    pub fn pass(&mut self, from: usize, value: T, to: usize, steps: &mut Steps) -> T
        requires from { from < length self.old }
        requires to { to < length self.old }
        ensures value { result ≡ slice_index_or self.old from result }
        ensures cells { self.new ≡ slice_set (slice_set self.old from value) to result }
        ensures steps { RoseBy steps.old steps.new 2 }
    {
        steps.tick(2); // one cell is read and written at once, and one written
        let items = self.items.as_mut_slice();
        let old = items[from];
        items[from] = value;
        items[to] = old;
        old
    }

    /// Writes `first` to cell `i`, then `second` to cell `j`. Costs two steps.
    pub fn set_both(&mut self, i: usize, first: T, j: usize, second: T, steps: &mut Steps)
        requires i_in_range { i < length self.old }
        requires j_in_range { j < length self.old }
        ensures cells { self.new ≡ slice_set (slice_set self.old i first) j second }
        ensures steps { RoseBy steps.old steps.new 2 }
    {
        steps.tick(2); // two cells are written
        let items = self.items.as_mut_slice();
        items[i] = first;
        items[j] = second;
    }

    /// Returns the `n` cells from cell `from` on as a slice. Costs n steps.
    pub fn run(&self, from: usize, n: usize, steps: &mut Steps) -> &[T]
        requires { from + n ≤ length self.now }
        ensures value { result.now ≡ take n (drop from self.now) }
        ensures len { length result.now ≡ n }
        ensures steps { RoseBy steps.old steps.new n }
    {
        steps.tick(n as u64); // n cells are read
        &self.items[from..from + n]
    }
}

impl Cells<u64> {
    /// Sets bit `bit` of cell `i` of the list if `on`, else clears it. Costs one step: the word is read and written in
    /// one access. Returns the new word.
    pub fn write_bit(&mut self, i: usize, bit: u32, on: bool, steps: &mut Steps) -> u64
        requires cell { i < length self.old }
        requires bit { bit < 64 }
        ensures written { WritesBit 64 (slice_index self.old i) result bit on }
        ensures within { (n : ℕ) → bit < n → slice_index self.old i < 2 ^ n → result < 2 ^ n }
        ensures cells { self.new ≡ slice_set self.old i result }
        ensures steps { RoseBy steps.old steps.new 1 }
    {
        steps.tick(1); // one word, read and written at once
        let word = with_bit(self.items[i], bit, on);
        self.items[i] = word;
        word
    }

    /// Sets the lowest clear bit of cell `i` of the list, which must have a clear bit. Costs one step: the word is read
    /// and written in one access. Returns the position of the bit, and the new word.
    pub fn set_least_clear(&mut self, i: usize, steps: &mut Steps) -> (u32, u64)
        requires cell { i < length self.old }
        requires clear { slice_index self.old i + 1 < 2 ^ 64 }
        ensures bit { result.0 < 64 }
        ensures at { bit_at (slice_index self.old i) result.0 ≡ 0 }
        ensures below { (k : ℕ) → k < result.0 → bit_at (slice_index self.old i) k ≡ 1 }
        ensures written { WritesBit 64 (slice_index self.old i) result.1 result.0 true }
        ensures within { (n : ℕ) → result.0 < n → slice_index self.old i < 2 ^ n → result.1 < 2 ^ n }
        ensures cells { self.new ≡ slice_set self.old i result.1 }
        ensures steps { RoseBy steps.old steps.new 1 }
    {
        steps.tick(1); // one word, searched and written at once
        let bit = self.items[i].trailing_ones();
        let word = with_bit(self.items[i], bit, true);
        self.items[i] = word;
        (bit, word)
    }
}

impl Cells<u32> {
    /// Exchanges the `n` cells from cell `a` on with the `n` cells from cell `b` on, pair by pair.
    /// The two ranges must not overlap. Costs n steps, one for each pair.
    pub fn exchange(&mut self, a: usize, b: usize, n: usize, steps: &mut Steps)
        requires a_in_range { a + n ≤ length self.old }
        requires b_in_range { b + n ≤ length self.old }
        requires apart { (a + n ≤ b) ⊎ (b + n ≤ a) }
        ensures cells { self.new ≡ exchanged self.old a b n }
        ensures steps { RoseBy steps.old steps.new n }
    {
        steps.tick(n as u64); // n pairs, each exchanged at once
        exchange_runs(&mut self.items, a, b, n);
    }
}

/// Exchanges the `n` items from index `a` on with the `n` items from index `b` on, pair by pair.
/// The two ranges must not overlap. Counts no step: `exchange` does.
fn exchange_runs(items: &mut [u32], a: usize, b: usize, n: usize)
    requires a_in_range { a + n ≤ length items.old }
    requires b_in_range { b + n ≤ length items.old }
    requires apart { (a + n ≤ b) ⊎ (b + n ≤ a) }
    ensures { items.new ≡ exchanged items.old a b n }
{
    let (low, high) = items.split_at_mut(a.max(b));
    let first = a.min(b);
    low[first..first + n].swap_with_slice(&mut high[..n]);
}
