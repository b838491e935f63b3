//! The header of an object, as a value and as a word.
ghost use Rattle.std.specs.Prelude.{◌≡◌, ◌/◌, ◌%◌, ◌^◌};
ghost use Rattle.page_model.specs.Image.{header_word};

use cf_base::Handle;

/// The number of values of half a word.
const HALF: u64 = 1 << 32;

/// What the header word of an object holds: in its low half the number of the object's proxy, in
/// its high half the object's length.
#[derive(Clone, Copy, Debug, PartialEq, Eq)]
pub struct Header {
    /// The number of the object's proxy: the back reference by which a move finds the proxy.
    pub handle: Handle,
    /// The object's length in bytes.
    pub length: u32,
}

impl Header {
    /// Returns an object's header as a word.
    pub fn pack(self) -> u64
        ensures { result ≡ header_word self.handle.0 self.length }
    {
        u64::from(self.handle.0) + u64::from(self.length) * HALF
    }

    /// Returns the two halves of any word as an object's header. Packing that header returns the word.
    pub fn unpack(word: u64) -> Header
        ensures number { result.handle.0 ≡ word % 2 ^ 32 }
        ensures length { result.length ≡ word / 2 ^ 32 }
        ensures packed { header_word result.handle.0 result.length ≡ word }
    {
        Header {
            handle: Handle((word % HALF) as u32),
            length: (word / HALF) as u32,
        }
    }
}
