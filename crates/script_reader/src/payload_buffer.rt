//! `PayloadBuffer`: a buffer that the reader fills with the bytes of each write command in turn.
ghost use Rattle.std.specs.Prelude.{◌≡◌, ◌≤◌, IsTrue, length};
ghost use Rattle.script_reader.specs.Commands.{bytes_in};
ghost use Rattle.script_reader.specs.Answered.{some_if};

use cf_base::CHUNK;
use std::marker::Model;

/// A buffer for the bytes of one write, at most 4,096: the first `len` of its cells. A reader fills
/// it again for each write, so its owner makes only one. A `Payload` instead belongs to one write.
#[derive(Drop)]
pub struct PayloadBuffer {
    cells: [u8; CHUNK],
    len: usize,
}

impl Model for PayloadBuffer {
    ghost use Rattle.std.specs.Prelude.{ℕ, List, ◌≤◌, take};
    ghost use Rattle.cf_base.specs.declared.numbers.TheConstants.{CHUNK};

    ghost Value = { List ℕ };

    ghost view = { λ r. take r.len r.cells };

    ghost invariant = { λ r. r.len ≤ CHUNK };
}

impl PayloadBuffer {
    /// An empty buffer for payloads.
    pub fn new() -> PayloadBuffer
        ensures { length result ≡ 0 }
    {
        PayloadBuffer {
            cells: [0; CHUNK],
            len: 0,
        }
    }

    /// The bytes of the last write that was decoded into the buffer; none in a new buffer, and any
    /// bytes after a failed decoding.
    pub fn bytes(&self) -> &[u8]
        ensures { result.now ≡ self.now }
    {
        &self.cells[..self.len]
    }

    /// Decodes `text`, two hexadecimal digits for each byte, into the buffer. False if `text` isn't the digits of
    /// 1 to 4,096 bytes; the contract then says nothing of the buffer.
    // Not inlined: in a function of its own, the loop of `decode_to_slice` keeps its values in registers.
    #[inline(never)]
    pub(crate) fn take_hex(&mut self, text: &[u8]) -> bool
        ensures value { some_if result self.new ≡ bytes_in text.now }
        ensures some { IsTrue result → 1 ≤ length self.new }
        ensures fits { IsTrue result → length self.new ≤ CHUNK }
    {
        if text.len() < 2 || text.len() > 2 * CHUNK {
            return false;
        }
        let n = text.len() / 2;
        self.len = n;
        match hex::decode_to_slice(text, &mut self.cells[..n]) {
            Ok(()) => true,
            Err(_) => false,
        }
    }
}
