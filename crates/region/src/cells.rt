//! Reading and writing the bytes of words, without counting steps. Byte k of a list of words is
//! byte k modulo 8 of word k / 8, the least significant first. Bytes that a function reads or writes
//! must lie within the words that it gets.
ghost use Rattle.std.specs.Prelude.{◌≡◌, ℕ, ◌+◌, ◌-◌, ◌*◌, ◌%◌, ◌<◌, ◌≤◌, length, min, slice_index};
ghost use Rattle.page_model.specs.Bytes.{byte_of, written};
ghost use Rattle.region.specs.Cells.{byte_in, overwritten};

/// How many bytes a word has.
const WORD_BYTES: usize = 8;

/// Writes `part` over the bytes of `cell`, a list of bytes, from byte `from` on, where `part` must
/// fit. Every other byte stays.
fn overwrite(cell: &mut [u8], from: usize, part: &[u8])
    requires { from + length part.now ≤ length cell.old }
    ensures { cell.new ≡ written cell.old from part.now }
{
    // A copy of a constant length compiles to one store.
    if part.len() == WORD_BYTES {
        cell[from..from + WORD_BYTES].copy_from_slice(part);
    } else {
        cell[from..from + part.len()].copy_from_slice(part);
    }
}

/// Returns `word` with `part` in place of its bytes from byte `from` on. Every other byte is that
/// of `word`.
pub(crate) fn patched(word: u64, from: usize, part: &[u8]) -> u64
    requires { from + length part.now ≤ 8 }
    ensures { (j : ℕ) → j < 8 → byte_of j result ≡ overwritten (λ k. byte_of k word) from part.now j }
{
    let mut cell = word.to_le_bytes();
    overwrite(&mut cell, from, part);
    u64::from_le_bytes(cell)
}

/// Returns the word whose eight bytes are `part`, the least significant first.
fn word_of(part: &[u8]) -> u64
    requires { length part.now ≡ 8 }
    ensures { (j : ℕ) → j < 8 → byte_of j result ≡ slice_index part.now j }
{
    // Written out, eight bytes compile to one load.
    u64::from_le_bytes([
        part[0], part[1], part[2], part[3], part[4], part[5], part[6], part[7],
    ])
}

/// Fills `out` with the bytes of `word` from byte `from` on.
pub(crate) fn copy_word(word: u64, from: usize, out: &mut [u8])
    requires { from + length out.old ≤ 8 }
    ensures { (j : ℕ) → j < length out.new → slice_index out.new j ≡ byte_of (from + j) word }
{
    let cell = word.to_le_bytes();
    // A copy of a constant length compiles to one load and one store.
    if out.len() == WORD_BYTES {
        out.copy_from_slice(&cell[from..from + WORD_BYTES]);
    } else {
        out.copy_from_slice(&cell[from..from + out.len()]);
    }
}

/// Fills `out` with the bytes of the words; `out` must have exactly eight bytes for each word.
// The loop goes over two slices by one index, so that it compiles to loads and stores of 16 bytes.
#[inline(always)]
pub(crate) fn copy_words(words: &[u64], out: &mut [u8])
    requires { length out.old ≡ 8 * length words.now }
    ensures { (k : ℕ) → k < length out.new → slice_index out.new k ≡ byte_in words.now k }
{
    'words: for i in 0..words.len() {
        let start = WORD_BYTES * i;
        copy_word(words[i], 0, &mut out[start..start + WORD_BYTES]);
    }
}

/// Replaces the words by those whose bytes are `bytes`, exactly eight bytes for each word.
#[inline(always)]
pub(crate) fn put_words(words: &mut [u64], bytes: &[u8])
    requires { length bytes.now ≡ 8 * length words.old }
    ensures { (k : ℕ) → k < length bytes.now → byte_in words.new k ≡ slice_index bytes.now k }
{
    'words: for i in 0..words.len() {
        let start = WORD_BYTES * i;
        words[i] = word_of(&bytes[start..start + WORD_BYTES]);
    }
}

/// How many bytes two words have.
const PAIR_BYTES: usize = 16;

/// Fills `out` with the bytes of two words from byte `at` on.
fn read_pair(words: &[u64], at: usize, out: &mut [u8])
    requires two { length words.now ≡ 2 }
    requires within { at + length out.old ≤ 16 }
    ensures { (k : ℕ) → k < length out.new → slice_index out.new k ≡ byte_in words.now (at + k) }
{
    let mut cells = [0; PAIR_BYTES];
    copy_words(words, &mut cells);
    // A copy of a constant length compiles to one load and one store.
    if out.len() == WORD_BYTES {
        out.copy_from_slice(&cells[at..at + WORD_BYTES]);
    } else {
        out.copy_from_slice(&cells[at..at + out.len()]);
    }
}

/// Replaces the bytes of two words from byte `at` on by `bytes`. Every other byte stays.
fn write_pair(words: &mut [u64], at: usize, bytes: &[u8])
    requires two { length words.old ≡ 2 }
    requires within { at + length bytes.now ≤ 16 }
    ensures { (k : ℕ) → byte_in words.new k ≡ overwritten (byte_in words.old) at bytes.now k }
{
    let mut cells = [0; PAIR_BYTES];
    copy_words(words, &mut cells);
    overwrite(&mut cells, at, bytes);
    put_words(words, &cells);
}

/// Fills `out` with the bytes of the words from byte `at` on. The bytes read must be in one word.
fn copy_part(words: &[u64], at: usize, out: &mut [u8])
    requires one { at % 8 + length out.old ≤ 8 }
    requires within { at + length out.old ≤ 8 * length words.now }
    ensures { (k : ℕ) → k < length out.new → slice_index out.new k ≡ byte_in words.now (at + k) }
{
    if !out.is_empty() {
        copy_word(words[at / WORD_BYTES], at % WORD_BYTES, out);
    }
}

/// Writes `part` over the bytes of the words from byte `at` on. The bytes replaced must be in one
/// word. Every other byte stays.
fn put_part(words: &mut [u64], at: usize, part: &[u8])
    requires one { at % 8 + length part.now ≤ 8 }
    requires within { at + length part.now ≤ 8 * length words.old }
    ensures { (k : ℕ) → byte_in words.new k ≡ overwritten (byte_in words.old) at part.now k }
{
    if !part.is_empty() {
        let cell = at / WORD_BYTES;
        words[cell] = patched(words[cell], at % WORD_BYTES, part);
    }
}

/// How many of the `count` bytes from byte `at` on are before the next byte that begins a word; 0
/// if byte `at` begins one.
fn before_word(at: usize, count: usize) -> usize
    ensures { result ≡ min ((8 - at % 8) % 8) count }
{
    (at.wrapping_neg() % WORD_BYTES).min(count)
}

/// Fills `out` with the bytes of the words from byte `at` on.
// Not inlined: a caller that has a shorter path for one word saves no registers on that path.
#[inline(never)]
pub(crate) fn read_bytes(words: &[u64], at: usize, out: &mut [u8])
    requires { at + length out.old ≤ 8 * length words.now }
    ensures { (k : ℕ) → k < length out.new → slice_index out.new k ≡ byte_in words.now (at + k) }
{
    if words.len() == 2 {
        read_pair(words, at, out);
    } else {
        read_parts(words, at, out);
    }
}

/// Fills `out` with the bytes of the words from byte `at` on, in three parts: the bytes before the
/// first whole word, the whole words, and the bytes after them.
fn read_parts(words: &[u64], at: usize, out: &mut [u8])
    requires { at + length out.old ≤ 8 * length words.now }
    ensures { (k : ℕ) → k < length out.new → slice_index out.new k ≡ byte_in words.now (at + k) }
{
    let start = before_word(at, out.len());
    let first = (at + start) / WORD_BYTES;
    let count = (out.len() - start) / WORD_BYTES;
    let end = start + WORD_BYTES * count;
    copy_part(words, at, &mut out[..start]);
    copy_words(&words[first..first + count], &mut out[start..end]);
    copy_part(words, at + end, &mut out[end..]);
}

/// Replaces the bytes of the words from byte `at` on by `bytes`. Every other byte stays.
// Not inlined, as `read_bytes`.
#[inline(never)]
pub(crate) fn write_bytes(words: &mut [u64], at: usize, bytes: &[u8])
    requires { at + length bytes.now ≤ 8 * length words.old }
    ensures { (k : ℕ) → byte_in words.new k ≡ overwritten (byte_in words.old) at bytes.now k }
{
    if words.len() == 2 {
        write_pair(words, at, bytes);
    } else {
        write_parts(words, at, bytes);
    }
}

/// Replaces the bytes of the words from byte `at` on by `bytes`, in three parts: the bytes before
/// the first whole word, the whole words, and the bytes after them. Every other byte stays.
fn write_parts(words: &mut [u64], at: usize, bytes: &[u8])
    requires { at + length bytes.now ≤ 8 * length words.old }
    ensures { (k : ℕ) → byte_in words.new k ≡ overwritten (byte_in words.old) at bytes.now k }
{
    let start = before_word(at, bytes.len());
    let first = (at + start) / WORD_BYTES;
    let count = (bytes.len() - start) / WORD_BYTES;
    let end = start + WORD_BYTES * count;
    put_part(words, at, &bytes[..start]);
    put_words(&mut words[first..first + count], &bytes[start..end]);
    put_part(words, at + end, &bytes[end..]);
}
