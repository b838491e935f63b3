//! What the step bounds of the calls on long objects depend on: the words of a page, the parts of an object, and the words of a slot.
ghost use Rattle.std.specs.Prelude.{◌≡◌, ◌+◌, ◌/◌, ◌^◌, ◌<◌, ◌≤◌};
ghost use Rattle.large_objects.specs.InnerObjects.{part_count};
ghost use Rattle.norphuen_large.specs.Most.{part_of, slot_cap};

/// For long objects, the words of a page of `page_bytes` bytes: at least those of the smallest
/// page, 64, and at most those of the largest, 16,384.
pub fn page_words(page_bytes: u32) -> u32
    ensures value { 64 ≤ page_bytes / 8 → page_bytes / 8 ≤ 16384 → result ≡ page_bytes / 8 }
    ensures least { 64 ≤ result }
    ensures most { result ≤ 16384 }
{
    (page_bytes / 8).max(64).min(16384)
}

/// For a step bound, the number of parts of an object of `bytes` bytes that, with its header, doesn't fit
/// a page of `words` words. A page must have 64 to 16,384 words.
pub fn parts(words: u32, bytes: u32) -> u32
    requires least { 64 ≤ words }
    requires most { words ≤ 16384 }
    requires long { part_of words < bytes }
    ensures { result ≡ part_count (part_of words) bytes }
{
    bytes.div_ceil(8 * (words - 1))
}

/// For long objects, the most words of the slot of an object of `bytes` bytes, fewer than 2 ^ 35, in a page of `words` words.
pub fn slot_words(words: u32, bytes: u64) -> u64
    requires { bytes < 2 ^ 35 }
    ensures value { result ≡ slot_cap words bytes }
    ensures few { result ≤ words }
{
    (9 * bytes.div_ceil(8))
        .div_ceil(8)
        .max(4)
        .min(u64::from(words))
}
