//! `CellArray`, counted cells in an array of fixed length, and the bits of such cells. Each access
//! to a cell adds a step to the ledger.
ghost use Rattle.std.specs.Prelude.{◌≡◌, ℕ, ◌^◌, ◌<◌, slice_index, slice_index_or, slice_set};
ghost use Rattle.step_ledger.specs.Counting.{RoseBy};
ghost use Rattle.cf_base.specs.Bits.{WritesBit};

use crate::Steps;
use std::marker::Model;

/// `N` cells in an array, for structs that allocate no memory. Each access to a cell adds its step
/// to the ledger. The index of a cell must be below `N`, the position of a bit below 64.
#[derive(Drop)]
pub struct CellArray<T, const N: usize> {
    items: [T; N],
}

impl<T, const N: usize> Model for CellArray<T, N> {
    ghost use Rattle.std.specs.Prelude.{List};
    ghost use Rattle.std.specs.Coded.{coded_list};

    ghost Value = { List T };

    ghost coded = { coded_list T.code };

    ghost view = { λ c. c.items };
}

impl<T: Copy, const N: usize> CellArray<T, N> {
    /// Makes cells of an array's items. Costs no step: the cells aren't part of a heap yet.
    pub fn new(items: [T; N]) -> CellArray<T, N>
        ensures { result ≡ items }
    {
        CellArray { items }
    }

    /// Returns the value of cell `i` of the array. Costs one step.
    pub fn get(&self, i: usize, steps: &mut Steps) -> T
        requires { i < N }
        ensures value { result ≡ slice_index_or self.now i result }
        ensures steps { RoseBy steps.old steps.new 1 }
    {
        steps.tick(1); // the cell is read
        self.items[i]
    }

    /// Writes `value` to cell `i` of the array. Costs one step.
    pub fn set(&mut self, i: usize, value: T, steps: &mut Steps)
        requires { i < N }
        ensures cells { self.new ≡ slice_set self.old i value }
        ensures steps { RoseBy steps.old steps.new 1 }
    {
        steps.tick(1); // the cell is written
        self.items[i] = value;
    }
}

impl<const N: usize> CellArray<u64, N> {
    /// Sets bit `bit` of cell `i` of the array if `on`, else clears it. Costs one step: the word is read and written in
    /// one access. Returns the new word.
    pub fn write_bit(&mut self, i: usize, bit: u32, on: bool, steps: &mut Steps) -> u64
        requires cell { i < N }
        requires bit { bit < 64 }
        ensures written { WritesBit 64 (slice_index self.old i) result bit on }
        ensures within { (n : ℕ) → bit < n → slice_index self.old i < 2 ^ n → result < 2 ^ n }
        ensures cells { self.new ≡ slice_set self.old i result }
        ensures steps { RoseBy steps.old steps.new 1 }
    {
        steps.tick(1); // one word, read and written at once
        let word = with_bit(self.items[i], bit, on);
        self.items[i] = word;
        word
    }
}

/// Returns `word` with its bit `bit`, below 64, set if `on`, else cleared, for a counted cell that the
/// caller then writes. It touches no cell itself, so it costs no step.
pub fn with_bit(word: u64, bit: u32, on: bool) -> u64
    requires { bit < 64 }
    ensures written { WritesBit 64 word result bit on }
    ensures within { (n : ℕ) → bit < n → word < 2 ^ n → result < 2 ^ n }
{
    if on {
        word | (1 << bit)
    } else {
        word & !(1 << bit)
    }
}
