//! `walk` for one task: a line for each class with live objects of the task, and a line with its totals.
//! `task` is the task's number, 0 to 15. The heap must be open.
ghost use Rattle.std.specs.Prelude.{◌≡◌, ◌<◌, [], IfOk, IsTrue};
ghost use Rattle.run_model.specs.Terms.{led, Writes};
ghost use Rattle.page_model.specs.Arrangement.{used_pages};
ghost use Rattle.quota_heap.specs.State.{held_by, objects_by};
ghost use Rattle.quota_model.specs.Refusals.{task_paging};
ghost use Rattle.id_table.specs.Ties.{AreTiedTo};
ghost use Rattle.quota_session.specs.TaskRun.{class_lines, task_classes, task_report};

use cf_base::Failed;
use cf_io::{Line, Sink};
use frag_report::{put_class, put_total};
use id_table::IdTable;
use quota_heap::QuotaHeap;

/// The most size classes that a heap has; all tasks have the same classes.
const CLASSES: u32 = 67;

/// `walk`: writes a line for each class of the task with live objects, and then the line of the totals: the
/// task's live objects, its pages in use, and the pages of its quota that it doesn't use. Each line is
/// built in `line`. `ids` must name exactly the task's objects (`AreTiedTo`). If the sink fails, the result is
/// `Failed`, and a prefix of the report was written.
pub(crate) fn walk<K: Sink>(
    ids: &IdTable,
    heap: &QuotaHeap,
    task: u32,
    line: &mut Line,
    out: &mut K,
) -> Result<(), Failed>
    requires opened { IsTrue heap.now.is_open }
    requires sixteen { task < 16 }
    requires tied { AreTiedTo ids.now (objects_by heap.now task) }
    ensures { Writes (K.state out.old) (led [] (task_report heap.now task)) result (K.state out.new) }
{
    let quota = heap.quota(task) as u64;
    match put_classes(heap, task, line, out) {
        Ok(used) => put_total(ids.live(), used, quota.saturating_sub(used), b"", line, out),
        Err(failed) => Err(failed),
    }
}

/// For `walk`, writes a line for each class of the task with live objects, the class of the
/// smallest slots first, and returns the number of pages that the task uses. If the sink fails, the
/// result is `Failed`, and a prefix of these lines was written.
fn put_classes<K: Sink>(
    heap: &QuotaHeap,
    task: u32,
    line: &mut Line,
    out: &mut K,
) -> Result<u64, Failed>
    requires opened { IsTrue heap.now.is_open }
    requires sixteen { task < 16 }
    ensures puts { Writes (K.state out.old) (led [] (class_lines heap.now task (task_classes heap.now task))) result
        (K.state out.new) }
    ensures used { IfOk result (λ used. used ≡ used_pages (task_paging heap.now.profile) (held_by heap.now task)) }
{
    // For its contract: an open heap has at most 67 classes.
    let _open = heap.is_open();
    let mut used = 0;
    for c in 0..CLASSES {
        let Some(figures) = heap.figures(task, c) else {
            return Ok(used);
        };
        match put_class(&figures, b"", line, out) {
            Ok(()) => {}
            Err(failed) => return Err(failed),
        }
        used += figures.pages as u64;
    }
    Ok(used)
}
