//! What the contracts of `HeldTasks` imply: tasks are kept apart, a task for which `admit` returns 0 has enough pages, and a stale
//! handle is refused. The functions do nothing; each contract is a law.
ghost use Rattle.std.specs.Prelude.{◌≡◌, ◌≢◌, ℕ, ℤ, List, pos};
ghost use Rattle.c_base.specs.Handles.{none, number_in};
ghost use Rattle.c_base.specs.declared.results.NphFreed.{NphFreed};
ghost use Rattle.quota_heap.specs.State.{KeepsTasks, quota_of};
ghost use Rattle.quota_model.specs.Admission.{IsEnough};
ghost use Rattle.quota_model.specs.declared.results.Need.{Need};
ghost use Rattle.norphuen_tasks.specs.Calls.{IsAdmitCall, IsQuotaCall, IsTasksFreeCall, IsTasksLengthCall, IsTasksMallocCall, IsTasksReadCall, IsTasksWriteCall, share_with};
ghost use Rattle.norphuen_tasks.specs.Handles.{handles_by};
ghost use Rattle.norphuen_tasks.specs.LeavesAlone.{LeavesTaskAlone};
ghost use Rattle.norphuen_tasks.specs.TasksState.{TasksState};

/// On a heap that keeps its rules (`KeepsTasks`), a new quota, a malloc, a free or a write of
/// `task` leaves unchanged the settings and, of another task `u`, the objects with their addresses
/// and bytes, the quota and the handles.
pub fn a_call_leaves_the_other_tasks_alone()
    ensures quota { (old new : TasksState) (task pages u : ℕ) (code : ℤ) → KeepsTasks old.heap → u ≢ task
        → IsQuotaCall old task pages code new → LeavesTaskAlone u old new }
    ensures malloc { (old new : TasksState) (task bytes before after u : ℕ) (code : ℤ) → KeepsTasks old.heap → u ≢ task
        → IsTasksMallocCall old task bytes before code after new → LeavesTaskAlone u old new }
    ensures free { (old new : TasksState) (task handle u : ℕ) (before after : NphFreed) (code : ℤ) → KeepsTasks old.heap → u ≢ task
        → IsTasksFreeCall old task handle before code after new → LeavesTaskAlone u old new }
    ensures write { (old new : TasksState) (task handle from u : ℕ) (bytes : List ℕ) (code : ℤ) → KeepsTasks old.heap → u ≢ task
        → IsTasksWriteCall old task handle from bytes code new → LeavesTaskAlone u old new }
{}

/// If `admit` returns 0 for a task, the task's quota is enough for the needs (`IsEnough`): if
/// the task begins without objects, no malloc within the needs is refused for space, whatever the
/// order of the task's calls.
pub fn an_admitted_task_has_enough_pages()
    ensures { (old new : TasksState) (task : ℕ) (needs : List Need) → IsAdmitCall old task needs (pos 0) new
        → IsEnough (share_with old.heap (quota_of old.heap task)) needs }
{}

/// A free, write, read, or call for the length with a stale handle returns 4 (`UNKNOWN`). The low
/// bits of a handle are the number of an object; the handle is stale if the task has another one
/// for that number now, so that `number_in` returns `none`. A free or write then leaves the heap
/// unchanged, a free also the handles; a free, read or call for the length leaves the caller's
/// structure, buffer or number unchanged.
pub fn a_stale_handle_is_refused()
    ensures free { (old new : TasksState) (task handle : ℕ) (before after : NphFreed) (code : ℤ) → IsTasksFreeCall old task handle before code after new
        → number_in (handles_by old.handles task) handle ≡ none → (code ≡ pos 4) × (after ≡ before) × (new.heap ≡ old.heap) × (new.handles ≡ old.handles) }
    ensures write { (old new : TasksState) (task handle from : ℕ) (bytes : List ℕ) (code : ℤ) → IsTasksWriteCall old task handle from bytes code new
        → number_in (handles_by old.handles task) handle ≡ none → (code ≡ pos 4) × (new.heap ≡ old.heap) }
    ensures read { (old new : TasksState) (task handle from : ℕ) (before after : List ℕ) (code : ℤ) → IsTasksReadCall old task handle from before code after new
        → number_in (handles_by old.handles task) handle ≡ none → (code ≡ pos 4) × (after ≡ before) }
    ensures length { (old new : TasksState) (task handle before after : ℕ) (code : ℤ) → IsTasksLengthCall old task handle before code after new
        → number_in (handles_by old.handles task) handle ≡ none → (code ≡ pos 4) × (after ≡ before) }
{}
