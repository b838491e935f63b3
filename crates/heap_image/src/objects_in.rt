//! Reads the entries of an image and makes their objects, by calls of a `Namer`. An object whose bytes
//! can't all be read is freed again. All functions require a load in progress (`IsLoading`). A `buffer` must
//! have 4,096 bytes. To make an object, its id must not be live and a proxy must be unused. Clauses `counts`,
//! `stopped` and `freed` show how the step bound and the moves that `names` stores change.
ghost use Rattle.std.specs.Prelude.{◌≡◌, ◌+◌, ◌<◌, ◌≤◌, ◌^◌, ℕ, List, Some, None, Err, OnErr, OnOk, true, length, replicate};
ghost use Rattle.std.specs.Bool.{OnFalse, OnTrue};
ghost use Rattle.std.specs.FinMap as map;
ghost use Rattle.cf_io.specs.Feeds.{SourceFailsIf};
ghost use Rattle.id_table.specs.Sessions.{run_at};
ghost use Rattle.page_model.specs.Bytes.{written};
ghost use Rattle.heap_image.specs.Decoded.{Decoded, Reached, entry_decoded, has_room, length_decoded};
ghost use Rattle.heap_image.specs.Counts.{CountsFree, CountsStop, after_mallocs};
ghost use Rattle.heap_image.specs.Feed.{feed_of, is_unread};
ghost use Rattle.heap_image.specs.Heaps.{live_objects};
ghost use Rattle.heap_image.specs.Load.{IsLoading};
ghost use Rattle.heap_image.specs.Entries.{ReadsEntry, FillsObject, reached_in};
ghost use Rattle.heap_image.specs.Stages.{LeadsTo};

use crate::fault::LoadFault;
use crate::fields_in::{Filled, fill, read_u16, read_u32};
use cf_base::CHUNK;
use cf_io::Source;
use cf_model::Manager;
use id_table::Namer;

/// An entry that was read: the id of its object, and the object's length in bytes.
#[derive(Clone, Copy, Debug, PartialEq, Eq)]
pub(crate) struct Entry {
    pub id: u16,
    pub length: u32,
}

/// Reads the next entry of the image's source and makes its object. An id below `next` breaks a
/// rule, and no id from `next` on is live before; `at`, less than 2 ^ 60, is the offset of the entry
/// in the image, and `buffer` takes up to 4,096 bytes of the object at a time. Fails with `Bad` if a
/// field breaks a rule or is cut by the end, and with `Read` if the source failed; then the heap
/// holds the same objects as before.
///
/// In clause `entry`, `go` is any function that decodes the bytes after the entry.
pub(crate) fn read_entry<S: Source, H: Manager, N: Namer>(
    source: &mut S,
    heap: &mut H,
    names: &mut N,
    next: u32,
    at: u64,
    buffer: &mut [u8],
) -> Result<Entry, LoadFault>
    requires loading { IsLoading (run_at (N.state names.old) (H.state heap.old)) }
    requires fresh { (id : ℕ) → next ≤ id → map.get (live_objects (run_at (N.state names.old) (H.state heap.old))) id ≡ None }
    requires few { map.len (live_objects (run_at (N.state names.old) (H.state heap.old))) < (H.state heap.old).profile.proxies }
    requires buffer { length buffer.old ≡ 4096 }
    requires offset { at < 2 ^ 60 }
    ensures entry { (go : Reached → List ℕ → Decoded) → ReadsEntry (λ bytes. entry_decoded (H.state heap.old).profile
        (reached_in (run_at (N.state names.old) (H.state heap.old)) next at) bytes go) go
        (run_at (N.state names.old) (H.state heap.old)) (reached_in (run_at (N.state names.old) (H.state heap.old)) next at)
        (feed_of (S.state source.old)) result (feed_of (S.state source.new)) (run_at (N.state names.new) (H.state heap.new)) }
    ensures counts { OnOk result (N.state names.new ≡ after_mallocs (N.state names.old) true (N.state names.new).ids) }
    ensures stopped { OnErr result (CountsStop (N.state names.old) (N.state names.new)) }
    ensures source { SourceFailsIf (is_unread result) (S.state source.old) (S.state source.new) }
{
    let id = match read_u16(source, at) {
        Ok(id) => id,
        Err(fault) => return Err(fault),
    };
    if (id as u32) < next {
        return Err(LoadFault::Bad { at });
    }
    read_object(source, heap, names, id, next, at, buffer)
}

/// Reads the length and the bytes of an entry's object, which follow its `id`, and makes the object.
/// `id` must be at least `next`. The other parameters are those of `read_entry`, such as `at`, the
/// offset of the entry. Fails as `read_entry` does.
fn read_object<S: Source, H: Manager, N: Namer>(
    source: &mut S,
    heap: &mut H,
    names: &mut N,
    id: u16,
    next: u32,
    at: u64,
    buffer: &mut [u8],
) -> Result<Entry, LoadFault>
    requires loading { IsLoading (run_at (N.state names.old) (H.state heap.old)) }
    requires rises { next ≤ id }
    requires fresh { map.get (live_objects (run_at (N.state names.old) (H.state heap.old))) id ≡ None }
    requires few { map.len (live_objects (run_at (N.state names.old) (H.state heap.old))) < (H.state heap.old).profile.proxies }
    requires buffer { length buffer.old ≡ 4096 }
    requires offset { at < 2 ^ 60 }
    ensures entry { (go : Reached → List ℕ → Decoded) → ReadsEntry (λ bytes. length_decoded (H.state heap.old).profile
        (reached_in (run_at (N.state names.old) (H.state heap.old)) next at) id bytes go) go
        (run_at (N.state names.old) (H.state heap.old)) (reached_in (run_at (N.state names.old) (H.state heap.old)) next at)
        (feed_of (S.state source.old)) result (feed_of (S.state source.new)) (run_at (N.state names.new) (H.state heap.new)) }
    ensures counts { OnOk result (N.state names.new ≡ after_mallocs (N.state names.old) true (N.state names.new).ids) }
    ensures stopped { OnErr result (CountsStop (N.state names.old) (N.state names.new)) }
    ensures source { SourceFailsIf (is_unread result) (S.state source.old) (S.state source.new) }
{
    let n = match read_u32(source, at + 2) {
        Ok(n) => n,
        Err(fault) => return Err(fault),
    };
    if !make_object(heap, names, id, n) {
        return Err(LoadFault::Bad { at: at + 2 });
    }
    match fill_object(source, heap, names, id, n, at + 6, buffer) {
        Ok(()) => Ok(Entry { id, length: n }),
        Err(fault) => Err(fault),
    }
}

/// While loading, makes an object of `n` zero bytes under the id. Returns false, and makes none, if the object and its
/// header don't fit a page, or if all objects with the new one need more pages than the heap has.
fn make_object<H: Manager, N: Namer>(heap: &mut H, names: &mut N, id: u16, n: u32) -> bool
    requires loading { IsLoading (run_at (N.state names.old) (H.state heap.old)) }
    requires fresh { map.get (live_objects (run_at (N.state names.old) (H.state heap.old))) id ≡ None }
    requires few { map.len (live_objects (run_at (N.state names.old) (H.state heap.old))) < (H.state heap.old).profile.proxies }
    ensures test { result ≡ has_room (H.state heap.old).profile (live_objects (run_at (N.state names.old) (H.state heap.old))) n }
    ensures made { OnTrue result (LeadsTo (run_at (N.state names.old) (H.state heap.old)) (run_at (N.state names.new) (H.state heap.new))
        (map.insert (live_objects (run_at (N.state names.old) (H.state heap.old))) id (replicate n 0))) }
    ensures counts { N.state names.new ≡ after_mallocs (N.state names.old) true (N.state names.new).ids }
    ensures refused { OnFalse result (LeadsTo (run_at (N.state names.old) (H.state heap.old)) (run_at (N.state names.new) (H.state heap.new))
        (live_objects (run_at (N.state names.old) (H.state heap.old)))) }
{
    names.malloc(heap, id, n)
}

/// Fills the object of an id with the next `n` bytes of the source, which begin at the offset `at` of the
/// image; `buffer` takes up to 4,096 of them at a time. Before the call the object is `n` zero bytes. Fails
/// with `Bad { at }` if the input ends before the last of them, and with `Read` if the source failed; in both
/// cases it frees the object.
fn fill_object<S: Source, H: Manager, N: Namer>(
    source: &mut S,
    heap: &mut H,
    names: &mut N,
    id: u16,
    n: u32,
    at: u64,
    buffer: &mut [u8],
) -> Result<(), LoadFault>
    requires loading { IsLoading (run_at (N.state names.old) (H.state heap.old)) }
    requires made { map.get (live_objects (run_at (N.state names.old) (H.state heap.old))) id ≡ Some (replicate n 0) }
    requires buffer { length buffer.old ≡ 4096 }
    ensures fills { FillsObject n at (run_at (N.state names.old) (H.state heap.old)) id (feed_of (S.state source.old)) result (feed_of (S.state source.new))
        (run_at (N.state names.new) (H.state heap.new)) }
    ensures counts { OnOk result (N.state names.new ≡ N.state names.old) }
    ensures freed { OnErr result (CountsFree (N.state names.old) (N.state names.new)) }
    ensures source { SourceFailsIf (is_unread result) (S.state source.old) (S.state source.new) }
{
    let mut done = 0;
    'chunks: while done < n {
        let count = (n - done).min(CHUNK as u32);
        let chunk = &mut buffer[..count as usize];
        match fill(source, chunk) {
            Filled::Whole => {}
            Filled::Cut => {
                free_object(heap, names, id);
                return Err(LoadFault::Bad { at });
            }
            Filled::Failed => {
                free_object(heap, names, id);
                return Err(LoadFault::Read);
            }
        }
        write_object_bytes(heap, names, id, done, chunk);
        done += count;
    }
    Ok(())
}

/// While loading, writes these bytes, 1 to 4,096, into the live object of an id, from byte `at` of the object
/// on. They must not pass the object's end.
fn write_object_bytes<H: Manager, N: Namer>(
    heap: &mut H,
    names: &mut N,
    id: u16,
    at: u32,
    bytes: &[u8],
)
    requires loading { IsLoading (run_at (N.state names.old) (H.state heap.old)) }
    requires some { 1 ≤ length bytes.now }
    requires few { length bytes.now ≤ 4096 }
    requires within { (v : List ℕ) × (map.get (live_objects (run_at (N.state names.old) (H.state heap.old))) id ≡ Some v)
        × (at + length bytes.now ≤ length v) }
    ensures counts { N.state names.new ≡ N.state names.old }
    ensures writes { (v : List ℕ) → map.get (live_objects (run_at (N.state names.old) (H.state heap.old))) id ≡ Some v
        → LeadsTo (run_at (N.state names.old) (H.state heap.old)) (run_at (N.state names.new) (H.state heap.new))
        (map.insert (live_objects (run_at (N.state names.old) (H.state heap.old))) id (written v at bytes.now)) }
{
    names.write(heap, id, at, bytes);
}

/// While loading, frees the live object of an id.
fn free_object<H: Manager, N: Namer>(heap: &mut H, names: &mut N, id: u16)
    requires loading { IsLoading (run_at (N.state names.old) (H.state heap.old)) }
    requires live { (v : List ℕ) × (map.get (live_objects (run_at (N.state names.old) (H.state heap.old))) id ≡ Some v) }
    ensures counts { CountsFree (N.state names.old) (N.state names.new) }
    ensures frees { LeadsTo (run_at (N.state names.old) (H.state heap.old)) (run_at (N.state names.new) (H.state heap.new))
        (map.remove (live_objects (run_at (N.state names.old) (H.state heap.old))) id) }
{
    names.free(heap, id);
}
