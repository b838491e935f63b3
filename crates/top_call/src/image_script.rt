//! `print_script`, for mode `load`: writes the script that makes the live objects of a heap. Each
//! function returns `Failed` only if the sink failed; then a prefix of its text was written. `line`
//! is scratch. `meter` counts the steps of the heap's calls; the functions reset it.
ghost use Rattle.std.specs.Prelude.{◌≡◌, ◌≤◌, IsTrue, Some, length};
ghost use Rattle.std.specs.FinMap as map;
ghost use Rattle.run_model.specs.Terms.{AreTied, Malloc, Moving, Placed, profile_of, Write, Writes};
ghost use Rattle.cf_session.specs.Apply.{run_at};
ghost use Rattle.script_reader.specs.CommandText.{line_of};
ghost use Rattle.script_reader.specs.ReadBack.{command_lines};
ghost use Rattle.top_call.specs.ImageScript.{heap_script, object_lines, opening_line, writes_of};

use cf_base::{CHUNK, Failed, Handle, Settings};
use cf_io::{Line, Sink, push_field, push_text, put_line};
use cf_model::Manager;
use cf_session::Session;
use heap_image::{ObjectWriter, length_of, put_objects};
use step_ledger::Meter;

/// The writer with which `put_objects` writes each object as the lines of a script that make it: an `m` line
/// and its `w` lines.
struct Lines;

impl ObjectWriter for Lines {
    ghost text = { object_lines };

    /// Writes the lines of the object: its `m` line, then its `w` lines.
    fn put_object<H: Manager, K: Sink>(
        &self,
        heap: &H,
        id: u16,
        h: Handle,
        buffer: &mut [u8],
        line: &mut Line,
        out: &mut K,
        meter: &mut Meter,
    ) -> Result<(), Failed> {
        let n = length_of(heap, h, meter);
        match put_malloc(id, n, line, out) {
            Ok(()) => {}
            Err(failed) => return Err(failed),
        }
        put_writes(heap, id, h, n, buffer, line, out, meter)
    }
}

/// Writes the script that makes the live objects of a heap of kind Moving: the `heap` line of the
/// settings `s`, with bound 1, and for each live id in rising order an `m` line and `w` lines of
/// 4,096 bytes each; the last of an object may have fewer. The session maps the ids to handles. The
/// heap must be open with the settings `s`, and the session consistent with it (`AreTied`).
pub fn print_script<H: Manager, K: Sink>(
    s: &Settings,
    heap: &H,
    session: &Session,
    out: &mut K,
    meter: &mut Meter,
) -> Result<(), Failed>
    requires moving { (H.state heap.now).kind ≡ Moving }
    requires open { IsTrue (H.state heap.now).is_open }
    requires settings { (H.state heap.now).profile ≡ profile_of s.now }
    requires tied { AreTied session.now (H.state heap.now) }
    ensures { Writes (K.state out.old) (heap_script (run_at session.now (H.state heap.now))) result (K.state out.new) }
{
    let mut line = Line::new();
    match put_heap(s, &mut line, out) {
        Ok(()) => {}
        Err(failed) => return Err(failed),
    }
    put_objects(&Lines, heap, session, &mut line, out, meter)
}

/// For mode `load`, writes the `heap` line of the settings `s`, with the bound 1 in place of that of `s`.
fn put_heap<K: Sink>(s: &Settings, line: &mut Line, out: &mut K) -> Result<(), Failed>
    ensures { Writes (K.state out.old) (opening_line (profile_of s.now)) result (K.state out.new) }
{
    line.clear();
    push_field(line, b"heap ", s.pages as u64);
    push_field(line, b" ", 8 * s.page_words as u64);
    push_field(line, b" ", 1);
    push_field(line, b" ", s.proxies as u64);
    put_line(line, out)
}

/// For mode `load`, writes the `m` line that makes an object of `n` bytes for `id`.
fn put_malloc<K: Sink>(id: u16, n: u32, line: &mut Line, out: &mut K) -> Result<(), Failed>
    ensures { Writes (K.state out.old) (line_of (Malloc id n)) result (K.state out.new) }
{
    line.clear();
    push_field(line, b"m ", id as u64);
    push_field(line, b" ", n as u64);
    put_line(line, out)
}

/// For mode `load`, writes `w` lines for the `n` bytes of the object with the handle `h`, which
/// `id` names, at most 4,096 bytes each. The heap must be open, and the handle live. `buffer`, of
/// 4,096 bytes, is scratch, for the bytes of one line.
fn put_writes<H: Manager, K: Sink>(
    heap: &H,
    id: u16,
    h: Handle,
    n: u32,
    buffer: &mut [u8],
    line: &mut Line,
    out: &mut K,
    meter: &mut Meter,
) -> Result<(), Failed>
    requires open { IsTrue (H.state heap.now).is_open }
    requires live { (x : Placed) × (map.get (H.state heap.now).held h.0 ≡ Some x) × (n ≡ length x.bytes) }
    requires buffer { length buffer.old ≡ 4096 }
    ensures { (x : Placed) → map.get (H.state heap.now).held h.0 ≡ Some x
        → Writes (K.state out.old) (command_lines (writes_of id x.bytes)) result (K.state out.new) }
{
    let mut at = 0;
    'chunks: while at < n as u64 {
        let count = (n as u64 - at).min(CHUNK as u64);
        let chunk = &mut buffer[..count as usize];
        meter.lap();
        match heap.read(h, at as u32, chunk, meter.steps()) {
            Ok(()) => {}
            Err(_) => unreachable!(),
        }
        match put_write(id, at as u32, chunk, line, out) {
            Ok(()) => {}
            Err(failed) => return Err(failed),
        }
        at += CHUNK as u64;
    }
    Ok(())
}

/// For mode `load`, writes the `w` line that writes `bytes`, at most 4,096, into the object of `id`
/// from byte `at` on.
fn put_write<K: Sink>(
    id: u16,
    at: u32,
    bytes: &[u8],
    line: &mut Line,
    out: &mut K,
) -> Result<(), Failed>
    requires few { length bytes.now ≤ 4096 }
    ensures { Writes (K.state out.old) (line_of (Write id at bytes.now)) result (K.state out.new) }
{
    line.clear();
    push_field(line, b"w ", id as u64);
    push_field(line, b" ", at as u64);
    push_text(line, b" ");
    line.push_hex(bytes).unwrap();
    put_line(line, out)
}
