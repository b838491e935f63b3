//! Loads an image from a source into a heap: opens the heap with the image's settings and bound 1,
//! then makes its objects.
ghost use Rattle.std.specs.Prelude.{◌≡◌, ◌+◌, ◌<◌, ◌≤◌, Err};
ghost use Rattle.std.specs.FinMap as map;
ghost use Rattle.cf_base.specs.declared.kind.Kind.TheVariants.{Moving};
ghost use Rattle.cf_io.specs.Feeds.{SourceFailsIf};
ghost use Rattle.id_table.specs.Sessions.{run_at};
ghost use Rattle.heap_image.specs.Decoded.{at_first, count_decoded, entries_decoded};
ghost use Rattle.heap_image.specs.Ends.{EndsReading, EndRead};
ghost use Rattle.heap_image.specs.Counts.{CountsLoad};
ghost use Rattle.heap_image.specs.Feed.{feed_of, is_unread};
ghost use Rattle.heap_image.specs.Heaps.{live_objects};
ghost use Rattle.heap_image.specs.Load.{IsLoading, LoadsBy};

use crate::fault::LoadFault;
use crate::fields_in::{Filled, fill, read_u32};
use crate::objects_in::read_entry;
use crate::settings_in::read_settings;
use cf_base::{CHUNK, Settings};
use cf_io::Source;
use cf_model::Manager;
use id_table::Namer;

/// Loads an image into a heap of kind Moving, whatever chunks the source returns, and returns the
/// image's settings, with the bound 1. `names` must have no live id before.
///
/// After `Ok` the heap is open with these settings and holds exactly the image's objects, `names` maps
/// their ids to handles, and the source is at its end. Fails with `Read` only if the source failed;
/// the bytes that the source returned before break no rule. Fails with `Bad` if the bytes are not
/// an image, and takes no byte past the field that breaks a rule, or only one past the image. After
/// `Read` or `Bad` the heap is unchanged if the settings were not read, and else holds the objects
/// of the whole entries that were read. Fails with `OutOfMemory` only when it opens the heap, after
/// the 16 bytes of the mark and the settings; then the heap is closed. Clause `counts` shows how
/// the step bound and the moves that `names` stores change.
pub fn load<S: Source, H: Manager, N: Namer>(
    source: &mut S,
    heap: &mut H,
    names: &mut N,
) -> Result<Settings, LoadFault>
    requires moving { (H.state heap.old).kind ≡ Moving }
    requires idle { (N.state names.old).ids ≡ map.empty }
    ensures loads { LoadsBy (run_at (N.state names.old) (H.state heap.old)) (feed_of (S.state source.old)) result (feed_of (S.state source.new))
        (run_at (N.state names.new) (H.state heap.new)) }
    ensures kind { (H.state heap.new).kind ≡ Moving }
    ensures counts { CountsLoad (N.state names.old) result (run_at (N.state names.new) (H.state heap.new)) }
    ensures source { SourceFailsIf (is_unread result) (S.state source.old) (S.state source.new) }
{
    let settings = match read_settings(source) {
        Ok(settings) => settings,
        Err(fault) => return Err(fault),
    };
    match heap.open_heap(&settings) {
        Ok(()) => {}
        Err(_) => return Err(LoadFault::OutOfMemory),
    }
    match load_objects(source, heap, names, settings.proxies) {
        Ok(()) => Ok(settings),
        Err(fault) => Err(fault),
    }
}

/// Reads the number of objects at byte 16 of the image, then that many entries, and makes their
/// objects. Checks that the source then ends. The load must be in progress (`IsLoading`) and the heap
/// without objects; `proxies` are those of the heap, at most 65,536. Fails with `Bad` or `Read` as
/// `load` does; a number of objects above `proxies` is `Bad`.
fn load_objects<S: Source, H: Manager, N: Namer>(
    source: &mut S,
    heap: &mut H,
    names: &mut N,
    proxies: u32,
) -> Result<(), LoadFault>
    requires loading { IsLoading (run_at (N.state names.old) (H.state heap.old)) }
    requires none { live_objects (run_at (N.state names.old) (H.state heap.old)) ≡ map.empty }
    requires proxies { (H.state heap.old).profile.proxies ≡ proxies }
    requires few { proxies ≤ 65536 }
    ensures ends { EndsReading (count_decoded (H.state heap.old).profile) (H.state heap.old).profile
        (feed_of (S.state source.old)) result (feed_of (S.state source.new)) (run_at (N.state names.new) (H.state heap.new)) }
    ensures counts { CountsLoad (N.state names.old) result (run_at (N.state names.new) (H.state heap.new)) }
    ensures source { SourceFailsIf (is_unread result) (S.state source.old) (S.state source.new) }
{
    let count = match read_u32(source, 16) {
        Ok(count) => count,
        Err(fault) => return Err(fault),
    };
    if count > proxies {
        return Err(LoadFault::Bad { at: 16 });
    }
    load_entries(source, heap, names, count)
}

/// Reads `count` entries, from byte 20 of the image on, and makes their objects. Checks that the
/// source then ends. The load must be in progress (`IsLoading`), the heap without objects, and
/// `count` at most its proxies, which are at most 65,536. Fails with `Bad` or `Read` as `load` does.
fn load_entries<S: Source, H: Manager, N: Namer>(
    source: &mut S,
    heap: &mut H,
    names: &mut N,
    count: u32,
) -> Result<(), LoadFault>
    requires loading { IsLoading (run_at (N.state names.old) (H.state heap.old)) }
    requires none { live_objects (run_at (N.state names.old) (H.state heap.old)) ≡ map.empty }
    requires few { count ≤ (H.state heap.old).profile.proxies }
    requires proxies { (H.state heap.old).profile.proxies ≤ 65536 }
    ensures ends { EndsReading (entries_decoded (H.state heap.old).profile count at_first) (H.state heap.old).profile
        (feed_of (S.state source.old)) result (feed_of (S.state source.new)) (run_at (N.state names.new) (H.state heap.new)) }
    ensures counts { CountsLoad (N.state names.old) result (run_at (N.state names.new) (H.state heap.new)) }
    ensures source { SourceFailsIf (is_unread result) (S.state source.old) (S.state source.new) }
{
    let mut buffer = [0; CHUNK];
    let mut next = 0;
    let mut at = 20;
    'entries: for i in 0..count {
        match read_entry(source, heap, names, next, at, &mut buffer) {
            Ok(entry) => {
                next = entry.id as u32 + 1;
                at += 6 + entry.length as u64;
            }
            Err(fault) => return Err(fault),
        }
    }
    read_end(source, at)
}

/// Checks that the source ends after the last entry, at the offset `at` of the image. Fails with `Bad { at }`
/// if the source returns another byte, and with `Read` if the source failed.
fn read_end<S: Source>(source: &mut S, at: u64) -> Result<(), LoadFault>
    ensures end { EndRead at (feed_of (S.state source.old)) result (feed_of (S.state source.new)) }
    ensures source { SourceFailsIf (is_unread result) (S.state source.old) (S.state source.new) }
{
    let mut bytes = [0; 1];
    match fill(source, &mut bytes) {
        Filled::Whole => Err(LoadFault::Bad { at }),
        Filled::Cut => Ok(()),
        Filled::Failed => Err(LoadFault::Read),
    }
}
