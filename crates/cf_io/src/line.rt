//! The buffer in which one line of a reply is built: bytes, numbers and hex digits are appended to
//! it.
ghost use Rattle.std.specs.Prelude.{◌≡◌, ◌≤◌, [], length, decimal};
ghost use Rattle.hex.specs.Hex.{encode_lower};
ghost use Rattle.cf_io.specs.Lines.{Pushes, line_capacity, word_text};

use arrayvec::ArrayVec;
use itoa::Buffer;
use std::marker::Model;

/// The most bytes that a line holds, its line feed included.
pub const LINE_CAPACITY: usize = 9_000;

/// The error of a push: the text doesn't fit the line, and the line stays as it was.
#[derive(Clone, Copy, Debug, PartialEq, Eq)]
pub struct Full;

/// One line of a reply while it is built: at most 9,000 bytes, in the struct itself, so that no push
/// allocates.
#[derive(Drop)]
pub struct Line {
    /// Always has 9,000 bytes, so that hex digits are written in place. The line is its first `len`
    /// bytes.
    buffer: ArrayVec<u8, LINE_CAPACITY>,
    len: usize,
}

impl Model for Line {
    ghost use Rattle.std.specs.Prelude.{◌≡◌, ◌≤◌, List, ℕ, length, take};
    ghost use Rattle.cf_io.specs.declared.line.TheConstants.{LINE_CAPACITY};

    ghost Value = { List ℕ };

    ghost view = { λ l. take l.len l.buffer.items };

    ghost invariant = { λ l. (length l.buffer.items ≡ LINE_CAPACITY) × (l.len ≤ LINE_CAPACITY) };
}

impl Line {
    /// An empty line of a reply.
    pub fn new() -> Line
        ensures { result ≡ [] }
    {
        Line {
            buffer: ArrayVec::from([0; LINE_CAPACITY]),
            len: 0,
        }
    }

    /// The bytes of the reply's line, at most 9,000.
    pub fn bytes(&self) -> &[u8]
        ensures value { result.now ≡ self.now }
        ensures fits { length self.now ≤ line_capacity }
    {
        &self.buffer.as_slice()[..self.len]
    }

    /// Appends the bytes to the reply's line. Fails with `Full`, and leaves the line unchanged, if
    /// and only if it would pass 9,000 bytes.
    pub fn push(&mut self, bytes: &[u8]) -> Result<(), Full>
        ensures { Pushes self.old bytes.now result self.new }
    {
        let start = self.len;
        if bytes.len() > LINE_CAPACITY - start {
            return Err(Full);
        }
        let end = start + bytes.len();
        self.buffer.as_mut_slice()[start..end].copy_from_slice(bytes);
        self.len = end;
        Ok(())
    }

    /// `Line`: appends the number `n` in decimal. Fails with `Full`, and leaves the line unchanged,
    /// if and only if it would pass 9,000 bytes.
    pub fn push_number(&mut self, n: u64) -> Result<(), Full>
        ensures { Pushes self.old (decimal n) result self.new }
    {
        let mut digits = Buffer::new();
        self.push(digits.format(n).as_bytes())
    }

    /// Appends the bytes in hex, two lower-case digits each. Fails with `Full`, and leaves the line
    /// unchanged, if and only if it would pass 9,000 bytes.
    // Not inlined: in a function of its own, the loop of `encode_to_slice` keeps its values in registers.
    #[inline(never)]
    #[tactic(auto, using(crate::proofs::CallerLemmas::length_in_hex))]
    pub fn push_hex(&mut self, bytes: &[u8]) -> Result<(), Full>
        ensures { Pushes self.old (encode_lower bytes.now) result self.new }
    {
        let start = self.len;
        if bytes.len() > (LINE_CAPACITY - start) / 2 {
            return Err(Full);
        }
        let end = start + 2 * bytes.len();
        hex::encode_to_slice(bytes, &mut self.buffer.as_mut_slice()[start..end]).unwrap();
        self.len = end;
        Ok(())
    }

    /// `Line`: appends the word `v` of eight bytes in hex, as 16 lower-case digits, the most
    /// significant first. Fails with `Full`, and leaves the line unchanged, if and only if it would
    /// pass 9,000 bytes.
    pub fn push_word(&mut self, v: u64) -> Result<(), Full>
        ensures { Pushes self.old (word_text v) result self.new }
    {
        self.push_hex(&v.to_be_bytes())
    }

    /// Empties the reply's line.
    pub fn clear(&mut self)
        ensures { self.new ≡ [] }
    {
        self.len = 0;
    }
}
