//! Laws on how long a job of a sliced heap stays pending: how many slices end it and the next one, and when a
//! malloc refused as `Busy` succeeds. The laws hold in states that satisfy the rules (`IsKept`), under valid
//! settings `plan` (`IsPlan`); k is the job's slot.
ghost use Rattle.std.specs.Prelude.{ℕ, ◌≡◌, ◌+◌, ◌-◌, ◌*◌, ◌<◌, ◌≤◌, List, None, Some};
ghost use Rattle.std.specs.FinMap.{get};
ghost use Rattle.page_model.specs.Arrangement.{class_at};
ghost use Rattle.page_model.specs.Counts.{ceil_div};
ghost use Rattle.page_model.specs.Held.{Placed};
ghost use Rattle.page_model.specs.Paging.{slot_words};
ghost use Rattle.slice_model.specs.Runs.{Free, Happens, IsConsistent, Runs, Step, TaskCall, HeapWithWords, frees_in, mallocs_in, steps_in};
ghost use Rattle.slice_model.specs.State.{Idle, IsKept, IsPlan, JobSlot, Plan, Sliced, advanced, job_slot};
ghost use Rattle.slice_model.specs.Steps.{AreSlices, AddsSlicedObject, IsOver, LacksUsableSlot};

/// Each slice of a job but the last does a quantum of the job's words, and no other call changes the job.
/// Suppose the calls `turns` contain n slices, and the job has more than n quanta of words left. Then
/// the job is still pending after these calls, and n quanta more of its words are done.
pub fn a_job_advances_by_its_slices()
    ensures { (plan : Plan) (turns : List TaskCall) (old new : HeapWithWords) (k : JobSlot) → job_slot old.state.job ≡ Some k
        → k.done + steps_in turns * plan.quantum < slot_words plan.paging k.class → Runs plan old turns new
        → new.state.job ≡ advanced old.state.job (k.done + steps_in turns * plan.quantum) }
{}

/// A pending job with w words left ends in the n-th slice from now on, where n is w divided by the
/// quantum, rounded up. Before that slice come the calls `turns`: n - 1 slices, and any other calls,
/// which make no difference. At the end no job is pending, or the next job of the class begins.
pub fn a_job_ends_after_its_words_over_the_quantum()
    ensures { (plan : Plan) (turns : List TaskCall) (old mid new : HeapWithWords) (k : JobSlot) → IsPlan plan
        → job_slot old.state.job ≡ Some k → k.done < slot_words plan.paging k.class → Runs plan old turns mid
        → steps_in turns + 1 ≡ ceil_div (slot_words plan.paging k.class - k.done) plan.quantum
        → Happens plan mid Step new → IsOver k new.state.job }
{}

/// If only slices are called, at most one more job follows the pending one. So no job is pending
/// after the slices that the words left of the pending job take, and those that a whole slot of its
/// class takes.
pub fn slices_alone_end_every_job()
    ensures { (plan : Plan) (old new : Sliced) (k : JobSlot) → IsPlan plan → IsKept plan old → job_slot old.job ≡ Some k
        → AreSlices plan (ceil_div (slot_words plan.paging k.class - k.done) plan.quantum + ceil_div (slot_words plan.paging k.class) plan.quantum) old new
        → new.job ≡ Idle }
{}

/// After a successful free of object h on a consistent heap (`IsConsistent`), if no other free
/// succeeds, no job is pending after s slices, and s more for each successful malloc of h's class since
/// the free. Here s is the words of a slot of this class divided by the quantum, rounded up. The free
/// itself does the first slice. `turns` are the calls after it.
pub fn each_malloc_between_prolongs_a_job_once()
    ensures { (plan : Plan) (old freed new : HeapWithWords) (h : ℕ) (x : Placed) (turns : List TaskCall) → IsPlan plan → IsConsistent plan old
        → get old.state.held h ≡ Some x → Happens plan old (Free h None) freed → Runs plan freed turns new → frees_in turns ≡ 0
        → (1 + mallocs_in plan (class_at plan.paging x) turns) * ceil_div (slot_words plan.paging (class_at plan.paging x)) plan.quantum ≤ 1 + steps_in turns
        → new.state.job ≡ Idle }
{}

/// A malloc of `bytes` bytes that is refused as `Busy` succeeds after some slices, if nothing else is
/// called in between: those that the words left of the pending job take, and those that a whole slot
/// of its class takes.
pub fn a_busy_malloc_succeeds_after_the_slices()
    ensures { (plan : Plan) (old new : Sliced) (bytes : ℕ) (k : JobSlot) → IsPlan plan → IsKept plan old
        → LacksUsableSlot plan old bytes → job_slot old.job ≡ Some k
        → AreSlices plan (ceil_div (slot_words plan.paging k.class - k.done) plan.quantum + ceil_div (slot_words plan.paging k.class) plan.quantum) old new
        → (h : ℕ) × (after : Sliced) × AddsSlicedObject plan new (record { number = h; length = bytes }) after }
{}
