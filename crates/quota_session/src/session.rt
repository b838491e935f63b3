//! A session over a heap that sixteen tasks share: it does each command, for the present task or
//! the one that the command names, and writes its reply. Each function with a ledger `steps`, which
//! has counted at most 2^63 steps before, adds the command's steps to it. A `buffer` has 4,096 bytes.
ghost use Rattle.std.specs.Prelude.{◌≡◌, ◌<◌, ◌^◌, ◌≤◌, [], IfOk, IsTrue, Option, Some, length};
ghost use Rattle.step_ledger.specs.Counting.{RoseAtMost};
ghost use Rattle.run_model.specs.Terms.{IsWellFormed, owned_command, Profile, profile_of, said, SinkFailsIf};
ghost use Rattle.cf_io.specs.Lines.{line_capacity};
ghost use Rattle.cf_session.specs.Apply.{outcome_in};
ghost use Rattle.quota_heap.specs.State.{KeepsTasks, objects_by};
ghost use Rattle.script_loop.specs.Applying.{Applies, BuildsReply};
ghost use Rattle.id_table.specs.Ties.{AreTiedTo};
ghost use Rattle.quota_session.specs.Costs.{most_tasks_steps, task_steps};
ghost use Rattle.quota_session.specs.Layout.{IsOfTask, IsNoWalk, tasks_session};
ghost use Rattle.quota_session.specs.Playing.{quota_tasks};
ghost use Rattle.quota_session.specs.QuotaRun.{AreTasksTied, HasSixteen, IsGoingQuotas, QuotaStep, first_session, present_run, quota_moment, quota_run};
ghost use Rattle.quota_session.specs.TaskRun.{TaskStep, task_run};
ghost use Rattle.std.specs.Result.{is_err};

use crate::changes::{free, malloc, read, write};
use crate::records::Records;
use crate::reports::walk;
use crate::tasks::{declare, push_admission, set_quota};
use cf_base::{CHUNK, Failed, OutOfMemory, Settings};
use cf_io::{Line, Sink, put_line};
use cf_session::{Outcome, Short, ended, push_short};
use id_table::IdTable;
use quota_heap::QuotaHeap;
use quota_model::{Need, admit};
use script_reader::{Command, CommandRef};
use std::alloc::Global;
use std::marker::Model;
use step_ledger::{Meter, Steps};

/// For each of sixteen tasks its ids and its declared needs; and which task is present. Each
/// command requires that the heap is open, that the ids of each task name exactly its objects in the
/// heap (`AreTasksTied`), and that the command is well formed (`IsWellFormed`).
#[derive(Drop)]
pub struct QuotaSession {
    records: Records,
    /// The line in which a reply is built.
    line: Line,
    /// The buffer for the bytes of a read.
    buffer: [u8; CHUNK],
}

impl Model for QuotaSession {
    ghost use Rattle.quota_session.specs.Layout.{tasks_session};
    ghost use Rattle.quota_session.specs.QuotaRun.{HasSixteen, TaskSession, tasks_session_code};

    ghost Value = { TaskSession };

    ghost coded = { tasks_session_code };

    ghost view = { λ s. tasks_session s.records };

    ghost invariant = { λ s. HasSixteen (tasks_session s.records) };
}

impl QuotaSession {
    /// A new session, in which no id is live, no need is declared, and task 0 is present. Allocates all its
    /// memory, with a table of 65,536 ids for each task. Fails with `OutOfMemory` if an allocation fails.
    pub fn start(alloc: Global) -> Result<QuotaSession, OutOfMemory>
        ensures { IfOk result (λ s. s ≡ first_session) }
    {
        Ok(QuotaSession {
            records: Records::new(alloc)?,
            line: Line::new(),
            buffer: [0; CHUNK],
        })
    }

    /// Resets the ledger of `meter` to 0, does the command c on the heap of tasks, which is open
    /// with the settings `s`, and writes its reply to the sink `out`. Returns the reply's outcome.
    /// The ledger then has at most `most_tasks_steps` of the command. If the sink fails, the result
    /// is `Failed`: the command has taken effect, and a prefix of its reply was written.
    pub fn apply<K: Sink>(
        &mut self,
        heap: &mut QuotaHeap,
        s: &Settings,
        c: &Command,
        out: &mut K,
        meter: &mut Meter,
    ) -> Result<Outcome, Failed>
        requires opened { IsTrue heap.old.is_open }
        requires settings { heap.old.profile ≡ profile_of s.now }
        requires tied { AreTasksTied self.old heap.old }
        requires formed { IsWellFormed c.now }
        ensures step { Applies quota_tasks (quota_moment (Some (profile_of s.now)) self.old heap.old (K.state out.old).written) c.now result
            (quota_moment (Some (profile_of s.now)) self.new heap.new (K.state out.new).written) }
        ensures going { IsGoingQuotas (quota_run (Some (profile_of s.now)) self.new heap.new) }
        ensures steps { meter.new ≤ most_tasks_steps (quota_run (Some (profile_of s.now)) self.old heap.old) c.now }
        ensures sink { SinkFailsIf (is_err result) (K.state out.old) (K.state out.new) }
    {
        meter.lap();
        self.apply_ref(heap, s, c.as_ref(), out, meter.steps())
    }

    /// Does the command c, whose bytes are borrowed, and writes its reply, as `QuotaSession::apply`
    /// does. But the ledger `steps`, which must be at most 2^63, isn't reset: the call adds at most
    /// `most_tasks_steps` of the command to it.
    pub fn apply_ref<K: Sink>(
        &mut self,
        heap: &mut QuotaHeap,
        s: &Settings,
        c: CommandRef,
        out: &mut K,
        steps: &mut Steps,
    ) -> Result<Outcome, Failed>
        requires opened { IsTrue heap.old.is_open }
        requires settings { heap.old.profile ≡ profile_of s.now }
        requires tied { AreTasksTied self.old heap.old }
        requires formed { IsWellFormed (owned_command c) }
        requires count { steps.old ≤ 2 ^ 63 }
        ensures step { Applies quota_tasks (quota_moment (Some (profile_of s.now)) self.old heap.old (K.state out.old).written)
            (owned_command c.entry) result (quota_moment (Some (profile_of s.now)) self.new heap.new (K.state out.new).written) }
        ensures going { IsGoingQuotas (quota_run (Some (profile_of s.now)) self.new heap.new) }
        ensures steps { RoseAtMost steps.old steps.new
            (most_tasks_steps (quota_run (Some (profile_of s.now)) self.old heap.old) (owned_command c.entry)) }
        ensures sink { SinkFailsIf (is_err result) (K.state out.old) (K.state out.new) }
    {
        // For its contract: an open heap keeps its tasks apart.
        let _open = heap.is_open();
        answer(
            &mut self.records,
            heap,
            s,
            c,
            &mut self.buffer,
            &mut self.line,
            out,
            steps,
        )
    }
}

/// Does the command c on the heap of tasks, which is open with the settings `s`, writes its reply
/// to the sink `out`, and returns the reply's outcome. `buffer` gets the bytes of a read, and
/// `line` the text of each line of the reply. If the sink fails, the result is `Failed`: the
/// command has taken effect, and a prefix of its reply was written.
fn answer<K: Sink>(
    records: &mut Records,
    heap: &mut QuotaHeap,
    s: &Settings,
    c: CommandRef,
    buffer: &mut [u8],
    line: &mut Line,
    out: &mut K,
    steps: &mut Steps,
) -> Result<Outcome, Failed>
    requires going { IsGoingQuotas (quota_run (Some (profile_of s.now)) (tasks_session records.old) heap.old) }
    requires formed { IsWellFormed (owned_command c) }
    requires buffer { length buffer.old ≡ 4096 }
    requires count { steps.old ≤ 2 ^ 63 }
    ensures step { Applies quota_tasks (quota_moment (Some (profile_of s.now)) (tasks_session records.old) heap.old (K.state out.old).written)
        (owned_command c.entry) result (quota_moment (Some (profile_of s.now)) (tasks_session records.new) heap.new (K.state out.new).written) }
    ensures steps { RoseAtMost steps.old steps.new
        (most_tasks_steps (quota_run (Some (profile_of s.now)) (tasks_session records.old) heap.old) (owned_command c.entry)) }
    ensures sink { SinkFailsIf (is_err result) (K.state out.old) (K.state out.new) }
{
    match c {
        CommandRef::Walk => {
            let task = records.present;
            let written = walk(&records.ids[task as usize], heap, task, line, out);
            ended(written, Outcome::Other)
        }
        _ => {
            let outcome = build_reply(records, heap, s, c, buffer, line, steps);
            ended(put_line(line, out), outcome)
        }
    }
}

/// Does a command of mode `quota` whose reply is one line, that is, any but `walk`, builds the text
/// of the reply in `line`, and returns its outcome. `s` has the settings of the heap; `buffer` gets
/// the bytes of a read.
fn build_reply(
    records: &mut Records,
    heap: &mut QuotaHeap,
    s: &Settings,
    c: CommandRef,
    buffer: &mut [u8],
    line: &mut Line,
    steps: &mut Steps,
) -> Outcome
    requires going { IsGoingQuotas (quota_run (Some (profile_of s.now)) (tasks_session records.old) heap.old) }
    requires formed { IsWellFormed (owned_command c) }
    requires one { IsNoWalk (owned_command c) }
    requires buffer { length buffer.old ≡ 4096 }
    requires count { steps.old ≤ 2 ^ 63 }
    ensures speaks { BuildsReply QuotaStep (quota_run (Some (profile_of s.now)) (tasks_session records.old) heap.old) (owned_command c.entry)
        (quota_run (Some (profile_of s.now)) (tasks_session records.new) heap.new) line.new }
    ensures outcome { result ≡ outcome_in line.new }
    ensures steps { RoseAtMost steps.old steps.new
        (most_tasks_steps (quota_run (Some (profile_of s.now)) (tasks_session records.old) heap.old) (owned_command c.entry)) }
{
    line.clear();
    match c {
        CommandRef::Task { task } => {
            records.present = task;
            push_short(line, Short::Done)
        }
        CommandRef::Quota { task, pages } => push_short(line, set_quota(heap, task, pages)),
        CommandRef::Need { task, bytes, count } => {
            push_short(line, declare(records, task, Need { bytes, count }))
        }
        CommandRef::Admit { task } => {
            let quota = heap.quota(task);
            let needs = &records.needs[task as usize];
            push_admission(line, admit(s, quota, needs.entries()))
        }
        _ => build_reply_present(records, heap, c, buffer, line, steps),
    }
}

/// Does a command of mode `quota` that names no task, for the present task, builds the text of its reply in `line`,
/// which is empty before, and returns its outcome. `buffer` gets the bytes of a read. The command isn't `walk`.
fn build_reply_present(
    records: &mut Records,
    heap: &mut QuotaHeap,
    c: CommandRef,
    buffer: &mut [u8],
    line: &mut Line,
    steps: &mut Steps,
) -> Outcome
    requires opened { IsTrue heap.old.is_open }
    requires sixteen { HasSixteen (tasks_session records.old) }
    requires tied { AreTasksTied (tasks_session records.old) heap.old }
    requires formed { IsWellFormed (owned_command c) }
    requires own { IsOfTask (owned_command c) }
    requires buffer { length buffer.old ≡ 4096 }
    requires count { steps.old ≤ 2 ^ 63 }
    requires empty { line.old ≡ [] }
    ensures step { (settings : Option Profile) → QuotaStep (quota_run settings (tasks_session records.old) heap.old)
        (owned_command c.entry) (said line.new) (quota_run settings (tasks_session records.new) heap.new) }
    ensures room { length line.new < line_capacity }
    ensures outcome { result ≡ outcome_in line.new }
    ensures steps { RoseAtMost steps.old steps.new (task_steps records.old.present (present_run (tasks_session records.old) heap.old) (owned_command c.entry)) }
{
    let task = records.present;
    let ids = &mut records.ids[task as usize];
    build_reply_task(ids, heap, task, c, buffer, line, steps)
}

/// Does a command of mode `quota` that names no task, for the task `task`, whose ids are `ids`, builds the text of its
/// reply in `line`, which is empty before, and returns its outcome. `buffer` gets the bytes of a read. The command
/// isn't `walk`; the reply to a command of another mode is `none`.
fn build_reply_task(
    ids: &mut IdTable,
    heap: &mut QuotaHeap,
    task: u32,
    c: CommandRef,
    buffer: &mut [u8],
    line: &mut Line,
    steps: &mut Steps,
) -> Outcome
    requires opened { IsTrue heap.old.is_open }
    requires sixteen { task < 16 }
    requires tied { AreTiedTo ids.old (objects_by heap.old task) }
    requires formed { IsWellFormed (owned_command c) }
    requires own { IsOfTask (owned_command c) }
    requires buffer { length buffer.old ≡ 4096 }
    requires count { steps.old ≤ 2 ^ 63 }
    requires empty { line.old ≡ [] }
    ensures speaks { BuildsReply (TaskStep task) (task_run ids.old heap.old) (owned_command c.entry) (task_run ids.new heap.new) line.new }
    ensures outcome { result ≡ outcome_in line.new }
    ensures steps { RoseAtMost steps.old steps.new (task_steps task (task_run ids.old heap.old) (owned_command c.entry)) }
{
    match c {
        CommandRef::Malloc { id, bytes } => {
            push_short(line, malloc(ids, heap, task, id, bytes, steps))
        }
        CommandRef::Free { id } => push_short(line, free(ids, heap, task, id, steps)),
        CommandRef::Write { id, at, bytes } => {
            push_short(line, write(ids, heap, task, id, at, bytes, steps))
        }
        CommandRef::Read { id, at, len } => {
            read(
                ids,
                heap,
                task,
                id,
                at,
                &mut buffer[..len as usize],
                line,
                steps,
            )
        }
        _ => push_short(line, Short::Lacking),
    }
}
