//! Saves a heap: writes its settings but k and its live objects as an image. Also reads the length of
//! an object from the heap (`length_of`). `meter` counts the steps of the heap's calls; the functions
//! reset it.
ghost use Rattle.std.specs.Prelude.{◌≡◌, ◌<◌, ◌*◌, IsTrue, Some, length};
ghost use Rattle.std.specs.FinMap as map;
ghost use Rattle.cf_base.specs.declared.kind.Kind.TheVariants.{Moving};
ghost use Rattle.cf_base.specs.Settings.{profile_of};
ghost use Rattle.cf_io.specs.Feeds.{Writes};
ghost use Rattle.id_table.specs.Sessions.{run_at};
ghost use Rattle.page_model.specs.Held.{Placed};
ghost use Rattle.id_table.specs.Sessions.{AreTied};
ghost use Rattle.heap_image.specs.Heaps.{heap_image};
ghost use Rattle.heap_image.specs.Image.{entry_of, header_of};

use crate::objects_out::{ObjectWriter, put_objects};
use cf_base::{CHUNK, Failed, Handle, Settings};
use cf_io::{Line, Sink, push_text, put_all};
use cf_model::Manager;
use id_table::Namer;
use step_ledger::Meter;

/// Writes an object as an entry of an image: its id in two bytes, its length in four, and its bytes.
struct Entries;

impl ObjectWriter for Entries {
    ghost text = { entry_of };

    /// Writes the entry of the object: its id and its length, then its bytes chunk by chunk.
    fn put_object<H: Manager, K: Sink>(
        &self,
        heap: &H,
        id: u16,
        h: Handle,
        buffer: &mut [u8],
        line: &mut Line,
        out: &mut K,
        meter: &mut Meter,
    ) -> Result<(), Failed> {
        let n = length_of(heap, h, meter);
        line.clear();
        push_text(line, &id.to_le_bytes());
        push_text(line, &n.to_le_bytes());
        match put_all(out, line.bytes()) {
            Ok(()) => {}
            Err(failed) => return Err(failed),
        }
        put_bytes(heap, h, n, buffer, out, meter)
    }
}

/// Writes the image of a heap of kind Moving: a mark, the settings `s` (but not k), the number of
/// live objects, then the objects by rising id, each with its id, its length and its bytes. The heap
/// must be open with the settings `s`, and `names` map the ids to the handles of its objects, one id
/// for each (`AreTied`). Returns `Failed` only if the sink failed; then a prefix of the image was
/// written.
pub fn save<H: Manager, N: Namer, K: Sink>(
    s: &Settings,
    heap: &H,
    names: &N,
    out: &mut K,
    meter: &mut Meter,
) -> Result<(), Failed>
    requires moving { (H.state heap.now).kind ≡ Moving }
    requires open { IsTrue (H.state heap.now).is_open }
    requires settings { (H.state heap.now).profile ≡ profile_of s.now }
    requires tied { AreTied (N.state names.now) (H.state heap.now) }
    ensures { Writes (K.state out.old) (heap_image (run_at (N.state names.now) (H.state heap.now))) result (K.state out.new) }
{
    // For its contract: an open heap keeps its rules.
    let _open = heap.is_open();
    let mut line = Line::new();
    meter.lap();
    let totals = heap.totals(meter.steps());
    match put_header(s, totals.live, &mut line, out) {
        Ok(()) => {}
        Err(failed) => return Err(failed),
    }
    put_objects(&Entries, heap, names, &mut line, out, meter)
}

/// Writes the 20 bytes that an image begins with: the mark `CFI1`, then four numbers of four bytes
/// each, the least significant first. These are the pages, the bytes of a page and the proxies, by
/// the settings `s`, and `live`, the number of live objects. `line` is scratch. Returns `Failed`
/// only if the sink failed; then a prefix of the 20 bytes was written.
fn put_header<K: Sink>(s: &Settings, live: u32, line: &mut Line, out: &mut K) -> Result<(), Failed>
    ensures { Writes (K.state out.old) (header_of s.now.pages (8 * s.now.page_words) s.now.proxies live)
        result (K.state out.new) }
{
    line.clear();
    push_text(line, b"CFI1");
    push_text(line, &s.pages.to_le_bytes());
    push_text(line, &(8 * s.page_words).to_le_bytes());
    push_text(line, &s.proxies.to_le_bytes());
    push_text(line, &live.to_le_bytes());
    put_all(out, line.bytes())
}

/// For an image or its script, the length in bytes of the live object with the handle `h` in an open
/// heap of kind Moving: the upper half of its header, the word at its address.
pub fn length_of<H: Manager>(heap: &H, h: Handle, meter: &mut Meter) -> u32
    requires moving { (H.state heap.now).kind ≡ Moving }
    requires open { IsTrue (H.state heap.now).is_open }
    requires live { (x : Placed) × (map.get (H.state heap.now).held h.0 ≡ Some x) }
    ensures { (x : Placed) → map.get (H.state heap.now).held h.0 ≡ Some x → result ≡ length x.bytes }
{
    // For its contract: an open heap keeps its rules.
    let _open = heap.is_open();
    meter.lap();
    let Some(place) = heap.place(h, meter.steps()) else {
        unreachable!();
    };
    let Some(header) = heap.peek(place, meter.steps()) else {
        unreachable!();
    };
    (header >> 32) as u32
}

/// For an image, writes the `n` bytes of the live object with the handle `h` in an open heap, at
/// most 4,096 at a time, through `buffer`, which has 4,096 bytes. Returns `Failed` only if the sink
/// failed; then a prefix of the bytes was written.
fn put_bytes<H: Manager, K: Sink>(
    heap: &H,
    h: Handle,
    n: u32,
    buffer: &mut [u8],
    out: &mut K,
    meter: &mut Meter,
) -> Result<(), Failed>
    requires open { IsTrue (H.state heap.now).is_open }
    requires live { (x : Placed) × (map.get (H.state heap.now).held h.0 ≡ Some x) × (n ≡ length x.bytes) }
    requires buffer { length buffer.old ≡ 4096 }
    ensures { (x : Placed) → map.get (H.state heap.now).held h.0 ≡ Some x
        → Writes (K.state out.old) x.bytes result (K.state out.new) }
{
    let mut at = 0;
    'chunks: while at < n {
        let count = (n - at).min(CHUNK as u32);
        let chunk = &mut buffer[..count as usize];
        meter.lap();
        match heap.read(h, at, chunk, meter.steps()) {
            Ok(()) => {}
            Err(_) => unreachable!(),
        }
        match put_all(out, chunk) {
            Ok(()) => {}
            Err(failed) => return Err(failed),
        }
        at += count;
    }
    Ok(())
}
