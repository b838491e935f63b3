//! The commands `m`, `f`, `w` and `r` of a session whose objects, named by ids, may be long: longer
//! than a page. The first three return their reply; `r` builds its reply in `line`. All require an
//! open heap, and `f` that the live ids name the heap's objects (`AreTiedTo`).
ghost use Rattle.std.specs.Prelude.{◌≡◌, ◌<◌, ◌≤◌, [], IsTrue, length};
ghost use Rattle.cf_io.specs.Lines.{line_capacity};
ghost use Rattle.run_model.specs.Terms.{Free, Malloc, said, Write};
ghost use Rattle.cf_session.specs.Apply.{outcome_in};
ghost use Rattle.cf_session.specs.Short.{short_text};
ghost use Rattle.id_table.specs.Ties.{AreTiedTo};
ghost use Rattle.large_session.specs.LargeRun.{LargeStep, large_calls, large_run};
ghost use Rattle.script_laws.specs.ObjectRun.{object_bytes};
ghost use Rattle.script_laws.specs.IdBytes.{read_shown};

use cf_io::Line;
use cf_model::Manager;
use cf_session::{Outcome, Short, fault_reply, push_bytes, push_short, refusal_reply};
use id_table::IdTable;
use large_objects::LargeHeap;
use step_ledger::Meter;

/// `m`: makes an object, long or short, of `bytes` zero bytes, which `id` then names. The reply is
/// `ok`; or `live` if the id is live already, or `refused` and the cause if the heap refuses the
/// malloc, and then no id and no object changes.
pub(crate) fn malloc<H: Manager>(
    ids: &mut IdTable,
    heap: &mut LargeHeap<H>,
    id: u16,
    bytes: u32,
    meter: &mut Meter,
) -> Short
    requires { IsTrue heap.old.is_open }
    ensures step { LargeStep (large_run ids.old heap.old) (Malloc id bytes) (said (short_text result)) (large_run ids.new heap.new) }
{
    if ids.handle(id).is_some() {
        return Short::Live;
    }
    match heap.malloc(bytes, meter) {
        Ok(h) => {
            ids.bind(id, h);
            Short::Done
        }
        Err(refusal) => refusal_reply(refusal),
    }
}

/// `f`: frees the object, long or short, of a live id, and the id. The reply is `ok`; or `unknown`
/// if the id isn't live, and then nothing changes.
pub(crate) fn free<H: Manager>(
    ids: &mut IdTable,
    heap: &mut LargeHeap<H>,
    id: u16,
    meter: &mut Meter,
) -> Short
    requires open { IsTrue heap.old.is_open }
    requires tied { AreTiedTo ids.old heap.old.objects }
    ensures step { LargeStep (large_run ids.old heap.old) (Free id) (said (short_text result)) (large_run ids.new heap.new) }
{
    let Some(h) = ids.handle(id) else {
        return Short::Unknown;
    };
    let Ok(()) = heap.free(h, meter) else {
        unreachable!();
    };
    ids.unbind(id);
    Short::Done
}

/// `w`: writes these bytes into the object, long or short, of a live id, from byte `at` on. The reply is `ok`; or
/// `unknown` if the id isn't live, or `range` if `at` plus their number exceeds the object's length, and then nothing
/// changes.
pub(crate) fn write<H: Manager>(
    ids: &IdTable,
    heap: &mut LargeHeap<H>,
    id: u16,
    at: u32,
    bytes: &[u8],
    meter: &mut Meter,
) -> Short
    requires { IsTrue heap.old.is_open }
    ensures step { LargeStep (large_run ids.now heap.old) (Write id at bytes.now) (said (short_text result)) (large_run ids.now heap.new) }
{
    let Some(h) = ids.handle(id) else {
        return Short::Unknown;
    };
    match heap.write(h, at, bytes, meter) {
        Ok(()) => Short::Done,
        Err(fault) => fault_reply(fault),
    }
}

/// `r`: fills `buffer`, of at most 4,096 bytes, with bytes of the object, long or short, of a live id, from byte `at`
/// on, and returns the outcome of the reply. The reply in `line`, which is empty before, is `=` and the bytes in
/// hexadecimal; or `unknown` if the id isn't live, or `range` if `at` plus their number exceeds the object's length.
pub(crate) fn read<H: Manager>(
    ids: &IdTable,
    heap: &LargeHeap<H>,
    id: u16,
    at: u32,
    buffer: &mut [u8],
    line: &mut Line,
    meter: &mut Meter,
) -> Outcome
    requires open { IsTrue heap.now.is_open }
    requires few { length buffer.old ≤ 4096 }
    requires empty { line.old ≡ [] }
    ensures text { line.new ≡ read_shown (object_bytes large_calls (large_run ids.now heap.now) id) at (length buffer.old) }
    ensures room { length line.new < line_capacity }
    ensures outcome { result ≡ outcome_in line.new }
{
    let Some(h) = ids.handle(id) else {
        return push_short(line, Short::Unknown);
    };
    match heap.read(h, at, buffer, meter) {
        Ok(()) => push_bytes(line, buffer),
        Err(fault) => push_short(line, fault_reply(fault)),
    }
}
