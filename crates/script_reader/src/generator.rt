//! `Generator`: makes commands from a seed, always the same ones from the same seed.
ghost use Rattle.std.specs.Prelude.{◌≡◌, ◌∷◌, ℕ, suc};
ghost use Rattle.script_reader.specs.Generated.{bytes_asked, command_of_word, generated};
ghost use Rattle.rand_xoshiro.specs.SplitMix64.{mix_u64, next_state};
ghost use Rattle.script_reader.specs.Commands.{IsWellFormed};
ghost use Rattle.script_reader.specs.Owned.{owned_command};

use crate::{Command, CommandRef};
use rand_core::SeedableRng;
use rand_core::utils::NextWord;
use rand_xoshiro::SplitMix64;
use std::marker::Model;

/// Makes the commands of a seed, one after the other, without end. Each is computed from the next number
/// of 64 bits, a word, of the random generator SplitMix64, which starts with the seed as its state.
/// Contracts see a `Generator` as that state.
#[derive(Drop)]
pub struct Generator {
    words: SplitMix64,
}

impl Model for Generator {
    ghost use Rattle.std.specs.Prelude.{ℕ};

    ghost Value = { ℕ };

    ghost view = { λ g. g.words };

    ghost inverse = { λ seed. record { words = seed } };
}

impl Generator {
    /// Returns the generator that begins with the first command of the seed.
    pub fn new(seed: u64) -> Generator
        ensures { result ≡ seed }
    {
        Generator {
            words: SplitMix64::seed_from_u64(seed),
        }
    }

    /// Makes the next command of the seed; a write owns its bytes.
    pub fn next_command(&mut self) -> Command
        ensures value { result ≡ command_of_word (mix_u64 self.old).0 }
        ensures rest { self.new ≡ next_state self.old }
        ensures next { (count : ℕ) → generated self.old (suc count) ≡ result ∷ generated self.new count }
        ensures formed { IsWellFormed result }
    {
        let mut bytes = [0; 8];
        self.next_ref(&mut bytes).to_command()
    }

    /// Makes the next command from the next random word. The word's low 12 bits are the id. The three bits above
    /// them choose the command: 0 to 2 a malloc, 3 and 4 a free, 5 a write of the word's eight bytes at 0, 6 and 7 a
    /// read of eight bytes at 0. The bytes of a write are put into `bytes`, from which the command borrows them.
    pub fn next_ref<'a>(&mut self, bytes: &'a mut [u8; 8]) -> CommandRef<'a>
        ensures value { owned_command result ≡ command_of_word (mix_u64 self.old).0 }
        ensures rest { self.new ≡ next_state self.old }
        ensures next { (count : ℕ) → generated self.old (suc count) ≡ owned_command result ∷ generated self.new count }
        ensures formed { IsWellFormed (owned_command result) }
    {
        let word = self.words.next_word();
        let id = (word % 4_096) as u16;
        match (word >> 12) % 8 {
            0 | 1 | 2 => CommandRef::Malloc {
                id,
                bytes: bytes_asked(word),
            },
            3 | 4 => CommandRef::Free { id },
            5 => {
                *bytes = word.to_le_bytes();
                CommandRef::Write { id, at: 0, bytes }
            }
            _ => CommandRef::Read { id, at: 0, len: 8 },
        }
    }
}

/// The number of bytes of the object that a malloc makes, computed from the random word of the
/// command: the word without its low 16 bits, modulo 16,384 if bits 32 to 34 are 0, else modulo
/// 1,024.
fn bytes_asked(word: u64) -> u32
    ensures { result ≡ bytes_asked word }
{
    let most = if (word >> 32) % 8 == 0 { 16_384 } else { 1_024 };
    ((word >> 16) % most) as u32
}
