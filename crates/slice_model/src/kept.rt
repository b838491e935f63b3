//! Laws on the rules of a sliced heap's state (`IsKept`): a heap without objects and each call keep the rules,
//! and what the rules mean for pages. By the rules, the objects with a placeholder in the job's slot are a
//! sound arrangement. `plan` has the heap's settings, which are valid (`IsPlan`).
ghost use Rattle.std.specs.Prelude.{ℕ, ◌≡◌, ◌≢◌, List, Some, length};
ghost use Rattle.std.specs.FinMap.{empty, get, insert};
ghost use Rattle.page_model.specs.Arrangement.{IsSlotAt, IsSound, class_at};
ghost use Rattle.page_model.specs.Held.{Placed};
ghost use Rattle.page_model.specs.Paging.{page_of};
ghost use Rattle.page_model.specs.Steps.{Request};
ghost use Rattle.slice_model.specs.State.{Idle, IsKept, IsPlan, JobSlot, Plan, Sliced, AreSoundBesideJob, job_slot};
ghost use Rattle.slice_model.specs.Steps.{AddsSlicedObject, IsSlice, RemovesSlicedObject};

/// A heap without objects and without a pending job satisfies the rules (`IsKept`).
pub fn an_empty_sliced_heap_keeps_the_rules()
    ensures { (plan : Plan) → IsKept plan (record { held = empty; job = Idle }) }
{}

/// If the state `old` satisfies the rules, so does the state `new` that a successful malloc leaves.
/// `asked` has the new object's number and its length in bytes.
pub fn a_malloc_keeps_the_rules()
    ensures { (plan : Plan) (old : Sliced) (asked : Request) (new : Sliced) → IsPlan plan → IsKept plan old
        → AddsSlicedObject plan old asked new → IsKept plan new }
{}

/// If the state `old` satisfies the rules, so does the state `new` that a successful free of object
/// h leaves. The free includes the first slice of its job.
pub fn a_free_keeps_the_rules()
    ensures { (plan : Plan) (old : Sliced) (h : ℕ) (new : Sliced) → IsPlan plan → IsKept plan old
        → RemovesSlicedObject plan old h new → IsKept plan new }
{}

/// If the state `old` satisfies the rules, so does the state `new` that a slice leaves, also if the
/// slice ends the job, and if another job follows.
pub fn a_slice_keeps_the_rules()
    ensures { (plan : Plan) (old new : Sliced) → IsPlan plan → IsKept plan old
        → IsSlice plan old new → IsKept plan new }
{}

/// If a state satisfies the rules, it still does after object h got other bytes of the same length.
pub fn a_write_keeps_the_rules()
    ensures { (plan : Plan) (old : Sliced) (h : ℕ) (x : Placed) (bytes : List ℕ) → IsPlan plan → IsKept plan old
        → get old.held h ≡ Some x → length bytes ≡ length x.bytes
        → IsKept plan (record old { held = insert old.held h (record { place = x.place; bytes = bytes }) }) }
{}

/// What the rules (`IsKept`) mean for the objects without the placeholder in the job's slot. Each has
/// a slot of its class, no two have the same address, and all on one page are of one class. If no job
/// is pending, their arrangement is sound. If a job is pending, no object is in the job's slot, and all
/// objects on that slot's page have its class. Each other class has at most one partly full page. The
/// job's class has at most two; if it has two, only the job's slot is free on its page.
pub fn what_the_rules_say_of_pages()
    ensures slots { (plan : Plan) (s : Sliced) (h : ℕ) (x : Placed) → IsPlan plan → IsKept plan s
        → get s.held h ≡ Some x → IsSlotAt plan.paging (class_at plan.paging x) x.place }
    ensures own_place { (plan : Plan) (s : Sliced) (h : ℕ) (x : Placed) (q : ℕ) (y : Placed) → IsPlan plan → IsKept plan s
        → get s.held h ≡ Some x → get s.held q ≡ Some y → q ≢ h → x.place ≢ y.place }
    ensures one_class { (plan : Plan) (s : Sliced) (h : ℕ) (x : Placed) (q : ℕ) (y : Placed) → IsPlan plan → IsKept plan s
        → get s.held h ≡ Some x → get s.held q ≡ Some y → page_of plan.paging x.place ≡ page_of plan.paging y.place
        → class_at plan.paging x ≡ class_at plan.paging y }
    ensures idle { (plan : Plan) (s : Sliced) → IsKept plan s → s.job ≡ Idle → IsSound plan.paging s.held }
    ensures pending { (plan : Plan) (s : Sliced) (k : JobSlot) → IsPlan plan → IsKept plan s
        → job_slot s.job ≡ Some k → AreSoundBesideJob plan.paging s.held k }
{}
