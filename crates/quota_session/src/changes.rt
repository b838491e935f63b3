//! The commands of one task on its objects, which a script names by ids: `m`, `f` and `w`, which change objects,
//! and `r`, which reads one. `task` is the task's number, 0 to 15; `ids` maps its live ids to handles. The heap
//! must be open. The ledger `steps`, which has counted at most 2^63 steps, gets those of the heap's call.
ghost use Rattle.std.specs.Prelude.{◌≡◌, ◌^◌, ◌<◌, ◌≤◌, [], IsTrue, length};
ghost use Rattle.step_ledger.specs.Counting.{RoseAtMost};
ghost use Rattle.cf_io.specs.Lines.{line_capacity};
ghost use Rattle.run_model.specs.Terms.{Free, Malloc, said, Write};
ghost use Rattle.cf_session.specs.Apply.{outcome_in};
ghost use Rattle.cf_session.specs.Short.{short_text};
ghost use Rattle.quota_heap.specs.State.{objects_by};
ghost use Rattle.script_laws.specs.ObjectRun.{object_bytes};
ghost use Rattle.script_laws.specs.IdBytes.{read_shown};
ghost use Rattle.id_table.specs.Ties.{AreTiedTo};
ghost use Rattle.quota_session.specs.Costs.{id_access_steps, id_malloc_steps, most_of_object_free};
ghost use Rattle.quota_session.specs.TaskRun.{TaskStep, task_calls, task_object, task_run};

use cf_io::Line;
use cf_session::{Outcome, Short, fault_reply, push_bytes, push_short, refusal_reply};
use id_table::IdTable;
use quota_heap::QuotaHeap;
use step_ledger::Steps;

/// `m`: makes an object of `bytes` zero bytes for an id of the task that isn't live. The reply is
/// `ok`; or `live` if the id is live, or `refused` and the cause if the heap refuses the malloc,
/// and then nothing changes.
pub(crate) fn malloc(
    ids: &mut IdTable,
    heap: &mut QuotaHeap,
    task: u32,
    id: u16,
    bytes: u32,
    steps: &mut Steps,
) -> Short
    requires opened { IsTrue heap.old.is_open }
    requires sixteen { task < 16 }
    requires room { steps.old ≤ 2 ^ 63 }
    ensures step { TaskStep task (task_run ids.old heap.old) (Malloc id bytes) (said (short_text result)) (task_run ids.new heap.new) }
    ensures steps { RoseAtMost steps.old steps.new (id_malloc_steps ids.old id) }
{
    if ids.handle(id).is_some() {
        return Short::Live;
    }
    match heap.malloc(task, bytes, steps) {
        Ok(h) => {
            ids.bind(id, h);
            Short::Done
        }
        Err(refusal) => refusal_reply(refusal),
    }
}

/// `f`: frees the object of a live id of the task, and the id. The reply is `ok`; or `unknown` if
/// the id isn't live, and then nothing changes. The ids must name exactly the task's objects
/// (`AreTiedTo`).
pub(crate) fn free(
    ids: &mut IdTable,
    heap: &mut QuotaHeap,
    task: u32,
    id: u16,
    steps: &mut Steps,
) -> Short
    requires opened { IsTrue heap.old.is_open }
    requires sixteen { task < 16 }
    requires tied { AreTiedTo ids.old (objects_by heap.old task) }
    requires room { steps.old ≤ 2 ^ 63 }
    ensures step { TaskStep task (task_run ids.old heap.old) (Free id) (said (short_text result)) (task_run ids.new heap.new) }
    ensures steps { RoseAtMost steps.old steps.new (most_of_object_free heap.old (task_object task (task_run ids.old heap.old) id)) }
{
    let Some(h) = ids.handle(id) else {
        return Short::Unknown;
    };
    let Ok(_freed) = heap.free(task, h, steps) else {
        unreachable!();
    };
    ids.unbind(id);
    Short::Done
}

/// `w`: writes `bytes` into the object of a live id of the task, from byte `at` on. The reply is
/// `ok`; or `unknown` if the id isn't live, or `range` if `at` plus the number of bytes exceeds the
/// object's length, and then nothing changes.
pub(crate) fn write(
    ids: &IdTable,
    heap: &mut QuotaHeap,
    task: u32,
    id: u16,
    at: u32,
    bytes: &[u8],
    steps: &mut Steps,
) -> Short
    requires opened { IsTrue heap.old.is_open }
    requires sixteen { task < 16 }
    requires room { steps.old ≤ 2 ^ 63 }
    ensures step { TaskStep task (task_run ids.now heap.old) (Write id at bytes.now) (said (short_text result)) (task_run ids.now heap.new) }
    ensures steps { RoseAtMost steps.old steps.new (id_access_steps ids.now id at (length bytes.now)) }
{
    let Some(h) = ids.handle(id) else {
        return Short::Unknown;
    };
    match heap.write(task, h, at, bytes, steps) {
        Ok(()) => Short::Done,
        Err(fault) => fault_reply(fault),
    }
}

/// `r`: reads as many bytes as `buffer` has, at most 4,096, from the object of a live id of the task, from byte
/// `at` on. The reply in `line`, which is empty before, is `=` and the bytes in hexadecimal; or `unknown` if the
/// id isn't live, or `range` if `at` plus the number of bytes exceeds the object's length. Returns the reply's
/// outcome.
pub(crate) fn read(
    ids: &IdTable,
    heap: &QuotaHeap,
    task: u32,
    id: u16,
    at: u32,
    buffer: &mut [u8],
    line: &mut Line,
    steps: &mut Steps,
) -> Outcome
    requires opened { IsTrue heap.now.is_open }
    requires sixteen { task < 16 }
    requires count { steps.old ≤ 2 ^ 63 }
    requires few { length buffer.old ≤ 4096 }
    requires empty { line.old ≡ [] }
    ensures text { line.new ≡ read_shown (object_bytes (task_calls task) (task_run ids.now heap.now) id) at (length buffer.old) }
    ensures room { length line.new < line_capacity }
    ensures outcome { result ≡ outcome_in line.new }
    ensures steps { RoseAtMost steps.old steps.new (id_access_steps ids.now id at (length buffer.old)) }
{
    let Some(h) = ids.handle(id) else {
        return push_short(line, Short::Unknown);
    };
    match heap.read(task, h, at, buffer, steps) {
        Ok(()) => push_bytes(line, buffer),
        Err(fault) => push_short(line, fault_reply(fault)),
    }
}
