//! Test of `payload_mut`, which lends the whole words of an object without a copy.
use cf_base::{Handle, Settings};
use cf_model::Manager;
use moving_heap::MovingHeap;
use std::test::Fail;
use step_ledger::Meter;

/// The words that are written into an object of 24 bytes.
static WORDS: [u64; 3] = [
    0x0807_0605_0403_0201,
    0x100f_0e0d_0c0b_0a09,
    0xff16_1514_1312_1110,
];

/// The bytes of the object with these words: the first byte of a word is its lowest.
static BYTES: [u8; 24] = [
    1, 2, 3, 4, 5, 6, 7, 8, 9, 10, 11, 12, 13, 14, 15, 16, 16, 17, 18, 19, 20, 21, 22, 255,
];

/// Opens the heap with one page of 64 words, makes an object of this many bytes, and returns the object's handle; none
/// if a call fails.
fn object(heap: &mut MovingHeap, bytes: u32, meter: &mut Meter) -> Option<Handle> {
    heap.open_heap(&Settings::check(1, 512, 1, 4).ok()?).ok()?;
    meter.lap();
    heap.malloc(bytes, meter.steps()).ok()
}

/// Writes the whole words of an object through `payload_mut`. Returns false, with nothing written, if the
/// object isn't live or has another number of whole words, or the heap is closed.
fn write_words(heap: &mut MovingHeap, h: Handle, words: &[u64], meter: &mut Meter) -> bool {
    if !heap.is_open() {
        return false;
    }
    let Some(lent) = heap.payload_mut(h, meter.steps()) else {
        return false;
    };
    if lent.len() != words.len() {
        return false;
    }
    lent.copy_from_slice(words);
    true
}

/// Whether the object's first 24 bytes are `BYTES`; false if the object has fewer bytes or isn't live, or the heap is
/// closed.
fn holds_bytes(heap: &MovingHeap, h: Handle, meter: &mut Meter) -> bool {
    let mut bytes = [0; 24];
    meter.lap();
    heap.is_open() && heap.read(h, 0, &mut bytes, meter.steps()).is_ok() && bytes == BYTES
}

// The words that are written through `payload_mut` are read as the bytes of the object.
#[test]
fn whole_words_are_written(rt: HostRuntime) -> Result<(), Fail> {
    let mut meter = Meter::new(&rt);
    let mut heap = MovingHeap::closed(rt.alloc());
    let h = object(&mut heap, 24, &mut meter).ok_or("no object")?;
    assert!(rt; write_words(&mut heap, h, &WORDS, &mut meter));
    assert!(rt; holds_bytes(&heap, h, &mut meter));
    Ok(())
}
