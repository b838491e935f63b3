//! `WordCell`, one counted cell, which holds a word of 64 bits. Each access adds a step to the
//! ledger.
ghost use Rattle.std.specs.Prelude.{◌≡◌, ℕ, ◌^◌, ◌<◌};
ghost use Rattle.std.specs.Borrow.{Lends, sem, u64};
ghost use Rattle.step_ledger.specs.Counting.{RoseBy};
ghost use Rattle.cf_base.specs.Bits.{WritesBit};
ghost use Rattle.step_ledger.specs.contracts.word.WordCell.{the_row};

use crate::Steps;
use crate::array::with_bit;
use std::marker::Model;

/// One cell that holds a word of 64 bits. Each access adds its step to the ledger.
#[derive(Drop)]
pub struct WordCell {
    word: u64,
}

impl Model for WordCell {
    ghost use Rattle.std.specs.Prelude.{ℕ};

    ghost Value = { ℕ };

    ghost view = { λ c. c.word };
}

impl WordCell {
    /// Makes a cell of a word. Costs no step: the cell isn't part of a heap yet.
    pub fn new(word: u64) -> WordCell
        ensures { result ≡ word }
    {
        WordCell { word }
    }

    /// Returns the cell's word. Costs one step.
    pub fn get(&self, steps: &mut Steps) -> u64
        ensures value { result ≡ self.now }
        ensures steps { RoseBy steps.old steps.new 1 }
    {
        steps.tick(1); // the word is read
        self.word
    }

    /// Replaces the cell's word. Costs one step.
    pub fn set(&mut self, word: u64, steps: &mut Steps)
        ensures value { self.new ≡ word }
        ensures steps { RoseBy steps.old steps.new 1 }
    {
        steps.tick(1); // the word is written
        self.word = word;
    }

    /// Sets bit `bit`, below 64, of the cell's word if `on`, else clears it. Costs one step: the word is read and
    /// written in one access.
    pub fn write_bit(&mut self, bit: u32, on: bool, steps: &mut Steps)
        requires { bit < 64 }
        ensures written { WritesBit 64 self.old self.new bit on }
        ensures within { (n : ℕ) → bit < n → self.old < 2 ^ n → self.new < 2 ^ n }
        ensures steps { RoseBy steps.old steps.new 1 }
    {
        steps.tick(1); // the word is read and written at once
        self.word = with_bit(self.word, bit, on);
    }

    /// Lends the cell's word, which the caller may then read and write. Costs one step in all.
    pub fn lend(&mut self, steps: &mut Steps) -> &mut u64
        ensures* writes_back { sem 𝓛 (Lends the_row u64 self.entry result (λ w. w)) }
        ensures value { result.now ≡ self.old }
        ensures steps { RoseBy steps.old steps.new 1 }
    {
        steps.tick(1); // the word is lent once
        &mut self.word
    }
}
