//! The commands of a session over an open sliced heap, in which a script names objects by ids. The
//! functions of `m`, `f` and `w` return their reply; those of `r`, `s` and `p` build it in `line`,
//! which must be empty, and return its outcome. Each adds at most `most_steps` of its command to
//! the ledger `steps`.
ghost use Rattle.std.specs.Prelude.{◌≡◌, ◌+◌, ◌<◌, ◌≤◌, [], IsTrue, Err, Some, length, slice_get};
ghost use Rattle.cf_io.specs.Lines.{line_capacity};
ghost use Rattle.run_model.specs.Terms.{Free, Malloc, said, Slice, Write};
ghost use Rattle.cf_session.specs.Apply.{outcome_in};
ghost use Rattle.cf_session.specs.Short.{short_text};
ghost use Rattle.cf_model.specs.Costs.{words_touched};
ghost use Rattle.script_laws.specs.ObjectRun.{object_bytes};
ghost use Rattle.run_model.specs.Replies.{peek_text};
ghost use Rattle.script_laws.specs.IdBytes.{read_shown};
ghost use Rattle.script_loop.specs.Applying.{BuildsReply};
ghost use Rattle.sliced_heap.specs.Shown.{KeepsSlicedRules};
ghost use Rattle.step_ledger.specs.Counting.{RoseAtMost};
ghost use Rattle.slice_session.specs.SliceRun.{SliceStep, slice_free_text, slice_malloc_text, slice_run, sliced_calls};

use cf_io::{Line, push_field};
use cf_session::{Outcome, Short, fault_reply, push_bytes, push_short};
use id_table::IdTable;
use slice_model::{SliceFault, SliceRefusal};
use sliced_heap::SlicedHeap;
use step_ledger::Steps;

/// `m`: makes an object of `bytes` zero bytes in the sliced heap for an id that isn't live. The
/// reply is `ok`; or `live` if the id is live, or `refused` and the cause, or `busy`, if the heap
/// refuses the malloc, and then nothing changes.
pub(crate) fn malloc(
    ids: &mut IdTable,
    heap: &mut SlicedHeap,
    id: u16,
    bytes: u32,
    steps: &mut Steps,
) -> Short
    requires { IsTrue heap.old.is_open }
    ensures step { SliceStep (slice_run ids.old heap.old) (Malloc id bytes) (said (short_text result)) (slice_run ids.new heap.new) }
    ensures bound { RoseAtMost steps.old steps.new 17 }
{
    if ids.handle(id).is_some() {
        return Short::Live;
    }
    match heap.malloc(bytes, steps) {
        Ok(h) => {
            ids.bind(id, h);
            Short::Done
        }
        Err(refusal) => malloc_reply(refusal),
    }
}

/// The reply to a malloc that the sliced heap refused, by its cause.
fn malloc_reply(refusal: SliceRefusal) -> Short
    ensures { short_text result ≡ slice_malloc_text (Err refusal) }
{
    match refusal {
        SliceRefusal::Size => Short::RefusedSize,
        SliceRefusal::Proxy => Short::RefusedProxy,
        SliceRefusal::Space => Short::RefusedSpace,
        SliceRefusal::Busy => Short::Busy,
    }
}

/// `f`: frees the object of a live id, and the id, and does the first slice of the job that the
/// free begins. The reply is `ok`; or `unknown` if the id isn't live, or `busy` if the heap refuses
/// because a job is pending, and then nothing changes.
pub(crate) fn free(ids: &mut IdTable, heap: &mut SlicedHeap, id: u16, steps: &mut Steps) -> Short
    requires { IsTrue heap.old.is_open }
    ensures step { SliceStep (slice_run ids.old heap.old) (Free id) (said (short_text result)) (slice_run ids.new heap.new) }
    ensures bound { RoseAtMost steps.old steps.new (23 + heap.old.quantum) }
{
    let Some(h) = ids.handle(id) else {
        return Short::Unknown;
    };
    match heap.free(h, steps) {
        Ok(()) => {
            ids.unbind(id);
            Short::Done
        }
        Err(fault) => free_reply(fault),
    }
}

/// The reply to a free that the sliced heap refused, by its cause.
fn free_reply(fault: SliceFault) -> Short
    ensures { short_text result ≡ slice_free_text (Some fault) }
{
    match fault {
        SliceFault::Unknown => Short::Unknown,
        SliceFault::Busy => Short::Busy,
    }
}

/// `w`: writes `bytes` into the sliced heap's object of a live id, from byte `at` on. The reply is `ok`; or `unknown`
/// if the id isn't live, or `range` if `at` plus their number exceeds the object's length, and then nothing changes.
pub(crate) fn write(
    ids: &IdTable,
    heap: &mut SlicedHeap,
    id: u16,
    at: u32,
    bytes: &[u8],
    steps: &mut Steps,
) -> Short
    requires { IsTrue heap.old.is_open }
    ensures step { SliceStep (slice_run ids.now heap.old) (Write id at bytes.now) (said (short_text result)) (slice_run ids.now heap.new) }
    ensures bound { RoseAtMost steps.old steps.new (2 + words_touched at (length bytes.now)) }
{
    let Some(h) = ids.handle(id) else {
        return Short::Unknown;
    };
    match heap.write(h, at, bytes, steps) {
        Ok(()) => Short::Done,
        Err(fault) => fault_reply(fault),
    }
}

/// `r`: reads as many bytes as `buffer` holds, at most 4,096, from the sliced heap's object of a live id, from byte
/// `at` on. The reply in `line` is `=` and the bytes in hexadecimal; or `unknown` if the id isn't live, or `range` if
/// `at` plus their number exceeds the object's length.
pub(crate) fn read(
    ids: &IdTable,
    heap: &SlicedHeap,
    id: u16,
    at: u32,
    buffer: &mut [u8],
    line: &mut Line,
    steps: &mut Steps,
) -> Outcome
    requires open { IsTrue heap.now.is_open }
    requires rules { KeepsSlicedRules heap.now }
    requires few { length buffer.old ≤ 4096 }
    requires empty { line.old ≡ [] }
    ensures text { line.new ≡ read_shown (object_bytes sliced_calls (slice_run ids.now heap.now) id) at (length buffer.old) }
    ensures room { length line.new < line_capacity }
    ensures outcome { result ≡ outcome_in line.new }
    ensures bound { RoseAtMost steps.old steps.new (2 + words_touched at (length buffer.old)) }
{
    let Some(h) = ids.handle(id) else {
        return push_short(line, Short::Unknown);
    };
    match heap.read(h, at, buffer, steps) {
        Ok(()) => push_bytes(line, buffer),
        Err(fault) => push_short(line, fault_reply(fault)),
    }
}

/// `s`: does one slice of the pending job, if there is one. The reply in `line` is `left` and the number of
/// words that a job then has still to do, 0 if none is pending.
pub(crate) fn step(
    ids: &IdTable,
    heap: &mut SlicedHeap,
    line: &mut Line,
    steps: &mut Steps,
) -> Outcome
    requires open { IsTrue heap.old.is_open }
    requires empty { line.old ≡ [] }
    ensures speaks { BuildsReply SliceStep (slice_run ids.now heap.old) Slice (slice_run ids.now heap.new) line.new }
    ensures outcome { result ≡ outcome_in line.new }
    ensures bound { RoseAtMost steps.old steps.new (15 + heap.old.quantum) }
{
    heap.step(steps);
    push_field(line, b"left ", heap.left() as u64);
    Outcome::Other
}

/// `p`: the reply in `line` is word `word` of the sliced heap's region, counted from 0, or `range` if the region has no
/// such word.
pub(crate) fn peek(heap: &SlicedHeap, word: u32, line: &mut Line, steps: &mut Steps) -> Outcome
    requires open { IsTrue heap.now.is_open }
    requires empty { line.old ≡ [] }
    ensures text { line.new ≡ peek_text (slice_get heap.now.words word) }
    ensures room { length line.new < line_capacity }
    ensures outcome { result ≡ outcome_in line.new }
    ensures bound { RoseAtMost steps.old steps.new 1 }
{
    match heap.peek(word, steps) {
        Some(v) => {
            line.push_word(v).unwrap();
            Outcome::Other
        }
        None => push_short(line, Short::Range),
    }
}
