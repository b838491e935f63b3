//! The heap image of the largest region, full of objects. It is loaded from a source that computes its bytes,
//! and saved to a sink that compares them. So its 64 MiB are never kept beside the heap.
ghost use Rattle.std.specs.Prelude.{◌≡◌, false, None, Ok, length};

use cf_base::{Failed, OutOfMemory};
use cf_io::{Sink, Source};
use cf_session::Session;
use heap_image::{load, save};
use moving_heap::MovingHeap;
use std::test::Fail;
use step_ledger::Meter;

/// The fields before the entries: 2,048 pages of 32,768 bytes, 2,048 proxies and 2,048 objects.
static HEADER: [u8; 20] = *b"CFI1\0\x08\0\0\0\x80\0\0\0\x08\0\0\0\x08\0\0";

/// The bytes of an entry: two of the id, four of the length, and 32,760 of the object, which fills a page
/// with its header.
const ENTRY: u64 = 6 + 32_760;

/// The length of the image in bytes.
const TOTAL: u64 = 20 + 2_048 * ENTRY;

/// The byte of the image at offset `at`. Entry e has the id 31 e, the length 32,760 (0x7ff8), and bytes
/// that depend on e and on their offset.
fn byte_at(at: u64) -> u8 {
    if at < 20 {
        return HEADER[at as usize];
    }
    let entry = (at - 20) / ENTRY;
    match (at - 20) % ENTRY {
        0 => (31 * (entry % 2_048) % 256) as u8,
        1 => (31 * (entry % 2_048) / 256) as u8,
        2 => 0xf8,
        3 => 0x7f,
        4 | 5 => 0,
        i => ((entry % 2_048 + i) % 251) as u8,
    }
}

/// A source of the image, which never fails. It has returned `at` bytes in `calls` calls.
#[derive(Drop)]
struct Stream {
    at: u64,
    calls: u64,
}

impl Source for Stream {
    ghost state = { λ s. record { rest = None; given = s.at; calls = s.calls; faults = 0; last_failed = false } };

    // Fills the buffer with the next bytes of the image, or with those that are left, and returns how many.
    fn take(&mut self, buf: &mut [u8]) -> Result<usize, Failed> {
        let n = buf.len().min(TOTAL.saturating_sub(self.at) as usize);
        put_image(&mut buf[..n], self.at);
        self.at = self.at.saturating_add(n as u64);
        self.calls = self.calls.saturating_add(1);
        Ok(n)
    }
}

/// Fills the buffer with the bytes of the image from offset `from` on.
fn put_image(buffer: &mut [u8], from: u64) {
    let mut at = from;
    for byte in buffer.iter_mut() {
        *byte = byte_at(at);
        at = at.saturating_add(1);
    }
}

/// A sink that accepts all bytes and keeps none. It received `at` bytes, and `differs` is whether
/// one of them was not that of the image.
#[derive(Drop)]
struct Comparison {
    at: u64,
    differs: bool,
}

impl Sink for Comparison {
    ghost state = { λ _. record { written = None; faults = 0; last_failed = false } };

    // Compares the bytes with the next ones of the image, and returns their number.
    fn put(&mut self, bytes: &[u8]) -> Result<usize, Failed>
        ensures { result ≡ Ok (length bytes.now) }
    {
        for byte in bytes {
            if *byte != byte_at(self.at) {
                self.differs = true;
            }
            self.at = self.at.saturating_add(1);
        }
        Ok(bytes.len())
    }
}

/// Loads the image from the stream into a new heap, and saves that heap to the sink. Returns whether both calls
/// succeed. Fails with `OutOfMemory` if there is no memory for the session.
fn passes(
    rt: &HostRuntime,
    stream: &mut Stream,
    sink: &mut Comparison,
) -> Result<bool, OutOfMemory> {
    let alloc = rt.alloc();
    let mut heap = MovingHeap::closed(alloc);
    let mut session = Session::start(rt, alloc)?;
    let Ok(settings) = load(stream, &mut heap, &mut session) else {
        return Ok(false);
    };
    let saved = save(&settings, &heap, &session, sink, &mut Meter::new(rt));
    Ok(saved.is_ok())
}

// `load` reads the whole image, and `save` writes the same one of the loaded heap.
#[test]
fn the_largest_image_passes_in_a_stream(rt: HostRuntime) -> Result<(), Fail> {
    let mut stream = Stream { at: 0, calls: 0 };
    let mut sink = Comparison {
        at: 0,
        differs: false,
    };
    assert!(rt; passes(&rt, &mut stream, &mut sink)?);
    assert_eq!(rt; (stream.at, sink.at, sink.differs), (TOTAL, TOTAL, false));
    Ok(())
}
