//! The commands `quota`, `need` and `admit`, which name a task, 0 to 15, whichever is present:
//! `quota` sets the task's quota, and `need` adds to the objects that the task declares. Of `admit`
//! only the reply is built here: `quota_model::admit` tests whether the quota and the proxies are
//! enough for these objects.
ghost use Rattle.std.specs.Prelude.{◌≡◌, ◌<◌, [], IsTrue, length};
ghost use Rattle.cf_io.specs.Lines.{line_capacity};
ghost use Rattle.cf_session.specs.Apply.{outcome_in};
ghost use Rattle.cf_session.specs.Short.{short_text};
ghost use Rattle.quota_heap.specs.State.{KeepsTasks};
ghost use Rattle.quota_session.specs.Tasks.{quota_text, quotas_after};
ghost use Rattle.quota_session.specs.Layout.{tasks_session};
ghost use Rattle.quota_session.specs.QuotaRun.{HasSixteen, quota_fault, task_needs, with_need};
ghost use Rattle.quota_session.specs.Transcript.{admission_text, need_text};

use crate::records::Records;
use cf_io::{Line, push_field, push_text};
use cf_session::{Outcome, Short};
use quota_heap::{QuotaFault, QuotaHeap};
use quota_model::{Admission, Need};

/// `quota`: sets the quota of a task of an open heap to `pages` pages. The reply is `ok`; or
/// `refused sum` if the quotas would sum to more pages than the region has, else `refused used`
/// if the task uses more than `pages` pages, and then nothing changes.
pub(crate) fn set_quota(heap: &mut QuotaHeap, task: u32, pages: u32) -> Short
    requires opened { IsTrue heap.old.is_open }
    requires sixteen { task < 16 }
    ensures heap { heap.new ≡ record heap.old { quotas = quotas_after (quota_fault heap.old task pages) heap.old.quotas task pages } }
    ensures rules { KeepsTasks heap.new }
    ensures text { short_text result ≡ quota_text (quota_fault heap.old task pages) }
{
    match heap.set_quota(task, pages) {
        Ok(()) => Short::Done,
        Err(QuotaFault::Sum) => Short::RefusedSum,
        Err(QuotaFault::Used) => Short::RefusedUsed,
    }
}

/// `need`: adds an entry to the needs of a task. The reply is `ok`; or `full` if the task has 64
/// entries already, and then nothing changes.
pub(crate) fn declare(records: &mut Records, task: u32, entry: Need) -> Short
    requires sixteen { task < 16 }
    requires kept { HasSixteen (tasks_session records.old) }
    ensures session { tasks_session records.new ≡ with_need (tasks_session records.old) task entry }
    ensures text { short_text result ≡ need_text (task_needs (tasks_session records.old) task) }
{
    let needs = &mut records.needs[task as usize];
    if needs.push(entry) {
        Short::Done
    } else {
        Short::Full
    }
}

/// `admit`: builds in `line`, which is empty before, the reply for `answer`, the result of the test
/// whether a task's quota and proxies are enough for the objects that it declares. Returns the
/// reply's outcome, `Other`. The reply is `yes`; `no` and the number, from 1, of the first declared
/// malloc that is refused for space; `proxies` if the task declares more objects than it has
/// proxies; or `size` if the length of an entry, even of count 0, doesn't fit a page with a header.
pub(crate) fn push_admission(line: &mut Line, answer: Admission) -> Outcome
    requires { line.old ≡ [] }
    ensures text { line.new ≡ admission_text answer }
    ensures room { length line.new < line_capacity }
    ensures outcome { result ≡ outcome_in line.new }
{
    match answer {
        Admission::Size { .. } => push_text(line, b"size"),
        Admission::Proxies => push_text(line, b"proxies"),
        Admission::No { nth } => push_field(line, b"no ", nth as u64),
        Admission::Yes => push_text(line, b"yes"),
    }
    Outcome::Other
}
