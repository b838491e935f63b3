//! Visits the live objects of a heap by rising id, and writes each with an `ObjectWriter`: as an
//! entry of an image, or in mode `load` as lines of a script.
ghost use Rattle.std.specs.Prelude.{◌≡◌, ℕ, List, IsTrue, Some, length};
ghost use Rattle.std.specs.FinMap as map;
ghost use Rattle.cf_base.specs.declared.kind.Kind.TheVariants.{Moving};
ghost use Rattle.cf_io.specs.Feeds.{Writes};
ghost use Rattle.id_table.specs.Sessions.{run_at};
ghost use Rattle.page_model.specs.Held.{Placed};
ghost use Rattle.id_table.specs.Sessions.{AreTied};
ghost use Rattle.heap_image.specs.Heaps.{live_objects};
ghost use Rattle.heap_image.specs.Image.{object_texts};

use cf_base::{CHUNK, Failed, Handle};
use cf_io::{Line, Sink};
use cf_model::Manager;
use id_table::Namer;
use step_ledger::Meter;

/// How many ids there are.
const IDS: u32 = 65_536;

/// How to write one object of a heap of kind Moving: as an entry of an image, or as lines of a script.
pub trait ObjectWriter {
    /// The bytes that are written for an object, by its id and its bytes.
    ghost text: { ℕ → List ℕ → List ℕ };

    /// `ObjectWriter`: writes the live object with the handle `h` in the open heap; its id is `id`. `buffer`, of 4,096
    /// bytes, takes parts of the object, `line` is for other output, and `meter` counts the steps of the heap's calls.
    /// Returns `Failed` only if the sink failed; then a prefix of the object's text was written.
    fn put_object<H: Manager, K: Sink>(
        &self,
        heap: &H,
        id: u16,
        h: Handle,
        buffer: &mut [u8],
        line: &mut Line,
        out: &mut K,
        meter: &mut Meter,
    ) -> Result<(), Failed>
        requires moving { (H.state heap.now).kind ≡ Moving }
        requires open { IsTrue (H.state heap.now).is_open }
        requires live { (x : Placed) × (map.get (H.state heap.now).held h.0 ≡ Some x) }
        requires buffer { length buffer.old ≡ 4096 }
        ensures { (x : Placed) → map.get (H.state heap.now).held h.0 ≡ Some x
            → Writes (K.state out.old) (text id x.bytes) result (K.state out.new) };
}

/// Writes the live objects of the open heap of kind Moving one after another, by rising id, each with the
/// writer. `names` maps the ids to the handles of the objects, one id for each (`AreTied`); `line` and `meter`
/// are passed to the writer. Returns `Failed` only if the sink failed; then a prefix of all the objects' texts
/// was written.
pub fn put_objects<W: ObjectWriter, H: Manager, N: Namer, K: Sink>(
    writer: &W,
    heap: &H,
    names: &N,
    line: &mut Line,
    out: &mut K,
    meter: &mut Meter,
) -> Result<(), Failed>
    requires moving { (H.state heap.now).kind ≡ Moving }
    requires open { IsTrue (H.state heap.now).is_open }
    requires tied { AreTied (N.state names.now) (H.state heap.now) }
    ensures { Writes (K.state out.old) (object_texts W.text (map.entries (live_objects (run_at (N.state names.now) (H.state heap.now)))))
        result (K.state out.new) }
{
    // For its contract: each live id has 16 bits.
    let _first = names.handle(0);
    let mut buffer = [0; CHUNK];
    'ids: for id in 0..IDS {
        let Some(h) = names.handle(id as u16) else {
            continue;
        };
        match writer.put_object(heap, id as u16, h, &mut buffer, line, out, meter) {
            Ok(()) => {}
            Err(failed) => return Err(failed),
        }
    }
    Ok(())
}
