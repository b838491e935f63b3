//! Single bits of a word of 64 bits, for the maps of used slots. Bit 0 is the least significant.
ghost use Rattle.std.specs.Prelude.{◌≡◌, ◌≢◌, ℕ, ◌+◌, ◌^◌, ◌<◌, ◌≤◌, cond};
ghost use Rattle.std.specs.Int.{bit_at};

/// For slot maps, returns whether bit `bit` of the word is set.
pub(crate) fn has_bit(word: u64, bit: u32) -> bool
    requires { bit < 64 }
    ensures { bit_at word bit ≡ cond result 1 0 }
{
    (word >> bit) & 1 == 1
}

/// For slot maps: the position of the lowest set bit of a word that has one.
pub(crate) fn lowest_set(word: u64) -> u32
    requires { word ≢ 0 }
    ensures within { result < 64 }
    ensures at { bit_at word result ≡ 1 }
    ensures below { (k : ℕ) → k < result → bit_at word k ≡ 0 }
{
    word.trailing_zeros()
}

/// For slot maps, the position of the lowest clear bit of a word that has one.
pub(crate) fn lowest_clear(word: u64) -> u32
    requires { word + 1 < 2 ^ 64 }
    ensures within { result < 64 }
    ensures at { bit_at word result ≡ 0 }
    ensures below { (k : ℕ) → k < result → bit_at word k ≡ 1 }
{
    word.trailing_ones()
}

/// For slot maps, the word with its lowest `count` bits, 1 to 64, set and all others cleared.
pub(crate) fn ones(count: u32) -> u64
    requires some { 1 ≤ count }
    requires few { count ≤ 64 }
    ensures { result + 1 ≡ 2 ^ count }
{
    u64::MAX >> (64 - count)
}
