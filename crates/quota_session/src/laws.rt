//! Laws of mode `quota`: the replies to every script are a function of its lines (`MeetsTasks`), tasks that
//! share a region don't see one another, each is answered as by a heap of its own, an admitted task is served,
//! reads give what was written, runs can go on, cut output is a prefix, and wrong replies violate the claim.
//! The functions do nothing: their clauses are the laws.
ghost use Rattle.std.specs.Prelude.{◌≡◌, ℕ, ◌++◌, Bool, List, [], None, Option, true, ◌+◌, ◌<◌, codes, drop, length, ◌∷◌, Some, slice_index, slice_index_or};
ghost use Rattle.run_model.specs.Terms.{Admit, AreInRange, asks, Command, IsWellFormed, Item, items, Moving, Objects, Profile, Reply, said, text_of};
ghost use Rattle.quota_session.specs.Tasks.{is_for_task, task_reply, TaskItem, Tasks, no_tasks, own_heap, task_leaves};
ghost use Rattle.quota_session.specs.Transcript.{MeetsTasks, TaskState, after_if, item_of};
ghost use Rattle.script_laws.specs.ValidItems.{AreValidItems, IsValidCommand};
ghost use Rattle.script_loop.specs.Consequences.{IsPrefixBy};
ghost use Rattle.script_loop.specs.ScriptOutcome.{Effects, WroteInPart, items_within};
ghost use Rattle.quota_session.specs.Alone.{AreAlikeFor, tasks_of};
ghost use Rattle.quota_session.specs.Playing.{BeginsQuotas, RunsQuotas, quota_tasks};
ghost use Rattle.quota_session.specs.QuotaRun.{IsGoingQuotas, QuotaRun, QuotaStep};
ghost use Rattle.quota_session.specs.TaskBytes.{AreReadsOfTasks};
ghost use Rattle.quota_model.specs.Refusals.{malloc_refusal};
ghost use Rattle.script_laws.specs.RepliesById.{malloc_fault};
ghost use Rattle.script_laws.specs.Transcripts.{replies_from};
ghost use Rattle.quota_session.specs.Admitted.{AreServed, StayWithin, states_in};
ghost use Rattle.quota_session.specs.Own.{own_items, replies_of};
ghost use Rattle.quota_session.specs.Runs.{AreTaskCommands, LeaveQuota, own_commands, own_calls, replies_to};

use quota_model::a_page_is_there_for_each_quota;

/// In a run in progress in mode `quota`, the reply to a call of the present task depends on the
/// settings, its quota and its objects by id alone (clause `reply`). It is the reply of a heap that
/// only this task uses and that has the quota as its number of pages. A command changes the objects
/// by id of no task but the present one, and the quota of no task but the one that it names
/// (`after`). So two runs that are alike for a task (`AreAlikeFor`) print the same reply to a call
/// of it (`alike`).
pub fn a_task_is_answered_from_its_own()
    ensures reply { (old new : QuotaRun) (command : Command) (reply : Reply) → IsGoingQuotas old
        → is_for_task command ≡ true → QuotaStep old command reply new
        → reply ≡ task_reply (tasks_of old) old.session.present command }
    ensures after { (old new : QuotaRun) (command : Command) (reply : Reply) → IsGoingQuotas old
        → IsValidCommand command → QuotaStep old command reply new
        → tasks_of new ≡ after_if (tasks_of old) (item_of old.session.present command) }
    ensures alike { (task : ℕ) (one other after later : QuotaRun) (command : Command) (reply shown : Reply)
        → IsGoingQuotas one → IsGoingQuotas other → AreAlikeFor task one other
        → is_for_task command ≡ true
        → QuotaStep one command reply after → QuotaStep other command shown later
        → shown ≡ reply }
{
    a_reply_follows_from_the_task_alone();
}

/// In every script in mode `quota`, each read prints the bytes last written through its id by the
/// present task, or `range` if it passes the object's end, `unknown` if the id isn't live. These
/// bytes follow from the lines and their replies alone: `t` makes a task present, and each task has
/// ids of its own.
pub fn reads_give_what_was_written()
    ensures run { (items : List Item) (replies : List Reply) (new : Option QuotaRun)
        → AreValidItems items → RunsQuotas None items replies new → AreReadsOfTasks None items replies }
    ensures script { (given : List ℕ) (ended : Bool) (replies : List Reply) (new : Option QuotaRun)
        → RunsQuotas None (items given ended) replies new → AreReadsOfTasks None (items given ended) replies }
{
    a_task_is_answered_from_its_own();
}

/// In mode `quota`, the replies to every script are a function of its lines, exactly one reply for each item. No
/// handle, address or choice of the heap changes a reply.
pub fn one_transcript_of_tasks()
    ensures run { (items : List Item) (replies : List Reply) (new : Option QuotaRun)
        → AreValidItems items → RunsQuotas None items replies new → MeetsTasks items replies }
    ensures script { (given : List ℕ) (ended : Bool) (replies : List Reply) (new : Option QuotaRun)
        → RunsQuotas None (items given ended) replies new → MeetsTasks (items given ended) replies }
{
    a_task_is_answered_from_its_own();
}

/// A run of tasks can begin under any settings in their ranges, and is then in progress
/// (`IsGoingQuotas`). In each state of a run in progress every command that a script can contain
/// has a reply, and the run is in progress after it.
pub fn each_command_has_its_turn()
    ensures begins { (p : Profile) → AreInRange p → (new : QuotaRun) × BeginsQuotas p new }
    ensures begun { (p : Profile) (new : QuotaRun) → BeginsQuotas p new → IsGoingQuotas new }
    ensures answered { (old : QuotaRun) (command : Command) → IsGoingQuotas old → IsValidCommand command
        → (reply : Reply) × (new : QuotaRun) × QuotaStep old command reply new }
    ensures going { (old new : QuotaRun) (command : Command) (reply : Reply) → IsGoingQuotas old
        → IsWellFormed command → QuotaStep old command reply new → IsGoingQuotas new }
{
    a_page_is_there_for_each_quota();
}

/// In mode `quota`, there is a run over the items of any bytes, and each run over a prefix of them can be continued to
/// the end.
pub fn a_run_of_tasks_can_always_go_on()
    ensures there { (given : List ℕ) (ended : Bool)
        → (replies : List Reply) × (new : Option QuotaRun) × RunsQuotas None (items given ended) replies new }
    ensures on { (given : List ℕ) (ended : Bool) (done after : List Item) (replies : List Reply)
        (mid : Option QuotaRun)
        → items given ended ≡ done ++ after → RunsQuotas None done replies mid
        → (more : List Reply) × (new : Option QuotaRun) × RunsQuotas None (items given ended) (replies ++ more) new }
{
    a_page_is_there_for_each_quota();
}

/// In mode `quota`, the output before the sink failed is a prefix of the output of a run over the whole script.
pub fn what_was_cut_is_a_prefix()
    ensures { (from to : QuotaRun) (call : Effects) (all : List ℕ)
        → (w : WroteInPart quota_tasks from (items_within all) call to)
        → IsPrefixBy quota_tasks from (items_within all) (text_of [] w.replies ++ w.front) }
{
    a_page_is_there_for_each_quota();
}

/// A command of a task has the same reply in two states (`reply`), and leaves the task the same
/// objects (`left`), if the settings, the task's quota and its objects by id are the same in both.
/// `refusal`: the cause of a refused malloc in these replies is the one of `malloc_refusal`, the
/// definition for the heap of tasks.
pub fn a_reply_follows_from_the_task_alone()
    ensures reply { (one other : Tasks) (task : ℕ) (command : Command)
        → other.profile ≡ one.profile
        → slice_index other.quotas task ≡ slice_index one.quotas task
        → other.objects task ≡ one.objects task
        → task_reply other task command ≡ task_reply one task command }
    ensures left { (one other : Tasks) (task : ℕ) (command : Command)
        → other.profile ≡ one.profile
        → slice_index other.quotas task ≡ slice_index one.quotas task
        → other.objects task ≡ one.objects task
        → task_leaves other task command ≡ task_leaves one task command }
    ensures refusal { (one : Tasks) (task bytes : ℕ)
        → malloc_fault (own_heap one task) bytes
        ≡ malloc_refusal one.profile (slice_index one.quotas task) (one.objects task) bytes }
{}

/// Isolation in mode `quota`: remove from a list of calls and quota lines those of the other tasks, and every refused
/// quota line. The replies to the task's calls are the same, in the same order.
pub fn tasks_are_isolated()
    ensures { (s : Profile) (task : ℕ) (items : List TaskItem) → task < 16
        → replies_to task (no_tasks s) (own_calls task (no_tasks s) items)
        ≡ replies_to task (no_tasks s) items }
{}

/// Isolation in mode `quota`: remove from a script every line of the other tasks, and every refused
/// quota line. The replies to the commands of the task but `t` and `quota` are the same, in the
/// same order. If two scripts have the same lines after this removal, these replies are the same in
/// both, whatever the other tasks do. The two scripts may be run separately: only their replies are
/// compared.
pub fn tasks_are_isolated_in_a_script()
    ensures own { (items : List Item) (task : ℕ) (replies shown : List Reply) → task < 16
        → MeetsTasks items replies → MeetsTasks (own_items task None items) shown
        → replies_of task 0 (own_items task None items) shown ≡ replies_of task 0 items replies }
    ensures alike { (items others : List Item) (task : ℕ) (replies shown : List Reply) → task < 16
        → own_items task None others ≡ own_items task None items
        → MeetsTasks items replies → MeetsTasks others shown
        → replies_of task 0 others shown ≡ replies_of task 0 items replies }
{}

/// After `admit` of a task prints `yes`, each later malloc of the task prints `ok`, or `live` if
/// its id is live, whatever the other tasks do, if each stays within the numbers of objects
/// declared before this `admit`, and the quota is then at least as large (`StayWithin`).
pub fn an_admitted_task_is_served()
    ensures { (before later : List Item) (task : ℕ) (admitted : TaskState) (replies : List Reply)
        → states_in None before ≡ Some admitted
        → MeetsTasks (before ++ asks (Admit task) ∷ later) replies
        → slice_index_or replies (length before) [] ≡ said (codes "yes")
        → StayWithin admitted task (Some admitted) later
        → AreServed task admitted.present later (drop (length before + 1) replies) }
{}

/// In mode `quota`, the claim `MeetsTasks` excludes wrong replies: nine wrong ones violate it. The
/// scripts have two pages of 64 words and a quota of one page for task 0. The claim fails for a
/// refusal of the quota line and of the malloc (`refused`); for a malloc that fits, with
/// `refused space` (`room`), a reply without a line (`silent`), no reply (`missing`) or one reply
/// too many (`over`); for `ok` to a malloc beyond the quota (`beyond`); for the bytes of another
/// task (`foreign`); for `yes` to two objects that need a page each (`admitted`); and for `ok` to
/// quotas of three pages (`sum`).
pub fn wrong_task_replies_fall_short()
    ensures refused { ¬ MeetsTasks (items (codes "heap 2 512 1 8\nquota 0 1\nm 1 176\n") true)
        (said (codes "ok") ∷ said (codes "refused sum") ∷ said (codes "refused space") ∷ []) }
    ensures room { ¬ MeetsTasks (items (codes "heap 2 512 1 8\nquota 0 1\nm 1 176\n") true)
        (said (codes "ok") ∷ said (codes "ok") ∷ said (codes "refused space") ∷ []) }
    ensures silent { ¬ MeetsTasks (items (codes "heap 2 512 1 8\nquota 0 1\nm 1 176\n") true)
        (said (codes "ok") ∷ said (codes "ok") ∷ [] ∷ []) }
    ensures missing { ¬ MeetsTasks (items (codes "heap 2 512 1 8\nquota 0 1\nm 1 176\n") true)
        (said (codes "ok") ∷ said (codes "ok") ∷ []) }
    ensures over { ¬ MeetsTasks (items (codes "heap 2 512 1 8\nquota 0 1\nm 1 176\n") true)
        (said (codes "ok") ∷ said (codes "ok") ∷ said (codes "ok") ∷ said (codes "ok") ∷ []) }
    ensures beyond { ¬ MeetsTasks (items (codes "heap 2 512 1 8\nquota 0 1\nm 1 504\nm 2 504\n") true)
        (said (codes "ok") ∷ said (codes "ok") ∷ said (codes "ok") ∷ said (codes "ok") ∷ []) }
    ensures foreign { ¬ MeetsTasks (items (codes "heap 2 512 1 8\nquota 0 1\nm 1 1\nw 1 0 aa\nt 1\nr 1 0 1\n") true)
        (said (codes "ok") ∷ said (codes "ok") ∷ said (codes "ok") ∷ said (codes "ok") ∷ said (codes "ok")
        ∷ said (codes "=aa") ∷ []) }
    ensures admitted { ¬ MeetsTasks (items (codes "heap 2 512 1 8\nquota 0 1\nneed 0 504 2\nadmit 0\n") true)
        (said (codes "ok") ∷ said (codes "ok") ∷ said (codes "ok") ∷ said (codes "yes") ∷ []) }
    ensures sum { ¬ MeetsTasks (items (codes "heap 2 512 1 8\nquota 0 1\nquota 1 2\n") true)
        (said (codes "ok") ∷ said (codes "ok") ∷ said (codes "ok") ∷ []) }
{}

/// If no line sets the quota of a task, and each of its commands is one on its objects
/// (`is_for_task`), the replies to these commands are those of a moving heap that only this task
/// uses. The quota is this heap's number of pages, and each class has the bound 1.
pub fn a_task_has_a_heap_of_its_own()
    ensures { (one : Tasks) (task : ℕ) (items : List TaskItem) → LeaveQuota task items
        → AreTaskCommands task items
        → replies_to task one items
        ≡ replies_from Moving (Some (own_heap one task)) (own_commands task items) }
{}
