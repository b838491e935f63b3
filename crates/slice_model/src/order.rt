//! Laws on the order in which a sliced heap uses free pages, partly full pages and spare numbers, also during a
//! job: it determines what each call does, each call can follow it, and then leaves an order; and an order of a
//! heap without objects. The laws hold in states that satisfy the rules (`IsKept`), under valid settings `plan`
//! (`IsPlan`).
ghost use Rattle.std.specs.Prelude.{ℕ, ◌≡◌, ◌∷◌, List, Option, Some, Result, length};
ghost use Rattle.std.specs.FinMap.{empty, get};
ghost use Rattle.cf_base.specs.declared.results.AccessFault.{AccessFault};
ghost use Rattle.cf_base.specs.declared.results.Handle.{Handle};
ghost use Rattle.page_model.specs.Arrangement.{class_at};
ghost use Rattle.page_model.specs.Held.{Placed};
ghost use Rattle.page_model.specs.Order.{MallocFollows, Order, first_order};
ghost use Rattle.slice_model.specs.Ordered.{HappensInOrder, IsOrderBeside, MovesNext, SliceFollows};
ghost use Rattle.slice_model.specs.Runs.{Event, Free, IsConsistent, Malloc, Position, Read, Step, HeapWithWords, Write};
ghost use Rattle.slice_model.specs.State.{Idle, IsKept, IsPlan, Plan, Sliced, job_slot, occupied};
ghost use Rattle.slice_model.specs.Steps.{AddsSlicedObject, IsSlice, IsSlicedRefusedBy, RemovesSlicedObject};
ghost use Rattle.slice_model.specs.declared.refusals.SliceFault.{SliceFault};
ghost use Rattle.slice_model.specs.declared.refusals.SliceRefusal.{SliceRefusal};

/// The order determines what a call does. Suppose the same call is made twice on the consistent heap `old`,
/// follows the order `was` both times, and leaves regions of the same length. Then both calls have
/// the same result, and leave the same objects, job, words and order, also while a job has done only
/// some of its words.
pub fn an_order_leaves_no_choice_beside_a_job()
    ensures malloc { (plan : Plan) (old : HeapWithWords) (bytes : ℕ) (a b : Result Handle SliceRefusal) (new other : HeapWithWords) (was now next : Order)
        → IsPlan plan → IsConsistent plan old → length new.words ≡ length other.words
        → HappensInOrder plan old (Malloc bytes a) new was now → HappensInOrder plan old (Malloc bytes b) other was next
        → (a ≡ b) × (new ≡ other) × (now ≡ next) }
    ensures free { (plan : Plan) (old : HeapWithWords) (h : ℕ) (a b : Option SliceFault) (new other : HeapWithWords) (was now next : Order)
        → IsPlan plan → IsConsistent plan old → length new.words ≡ length other.words
        → HappensInOrder plan old (Free h a) new was now → HappensInOrder plan old (Free h b) other was next
        → (a ≡ b) × (new ≡ other) × (now ≡ next) }
    ensures slice { (plan : Plan) (old : HeapWithWords) (new other : HeapWithWords) (was now next : Order)
        → IsPlan plan → IsConsistent plan old → length new.words ≡ length other.words
        → HappensInOrder plan old Step new was now → HappensInOrder plan old Step other was next
        → (new ≡ other) × (now ≡ next) }
    ensures write { (plan : Plan) (old : HeapWithWords) (position : Position) (bytes : List ℕ) (a b : Option AccessFault) (new other : HeapWithWords) (was now next : Order)
        → IsPlan plan → IsConsistent plan old → length new.words ≡ length other.words
        → HappensInOrder plan old (Write position bytes a) new was now → HappensInOrder plan old (Write position bytes b) other was next
        → (a ≡ b) × (new ≡ other) × (now ≡ next) }
    ensures read { (plan : Plan) (old : HeapWithWords) (position : Position) (n : ℕ) (a b : Result (List ℕ) AccessFault) (new other : HeapWithWords) (was now next : Order)
        → IsPlan plan → IsConsistent plan old → length new.words ≡ length other.words
        → HappensInOrder plan old (Read position n a) new was now → HappensInOrder plan old (Read position n b) other was next
        → (a ≡ b) × (new ≡ other) × (now ≡ next) }
{}

/// A malloc of `bytes` bytes for which no cause of refusal holds can follow an order of the state s, and leaves an order
/// of the new state. In such an order the job's slot counts as used.
pub fn a_malloc_can_follow_an_order_beside_a_job()
    ensures { (plan : Plan) (s : Sliced) (bytes : ℕ) (o : Order) → IsPlan plan → IsKept plan s → IsOrderBeside plan s o
        → ((e : SliceRefusal) → ¬ IsSlicedRefusedBy plan s bytes e)
        → (h : ℕ) × (after : Sliced) × (new : Order) × (gives : AddsSlicedObject plan s (record { number = h; length = bytes }) after)
        × MallocFollows plan.paging (occupied plan s) (record { number = h; length = bytes }) gives.place o new
        × IsOrderBeside plan after new }
{}

/// A slice can follow the order of the state s, also if it is the last one of a job. It leaves an
/// order of the new state.
pub fn a_slice_can_follow_an_order()
    ensures { (plan : Plan) (s : Sliced) (o : Order) → IsPlan plan → IsKept plan s → IsOrderBeside plan s o
        → (after : Sliced) × (new : Order) × IsSlice plan s after
        × SliceFollows plan s.held (job_slot s.job) after.job o new × IsOrderBeside plan after new }
{}

/// While no job is pending, a free of any live object can follow the order of the state s: if it
/// moves an object, it moves the one that the order lists next. With the first slice of its job, it
/// leaves an order of the new state.
pub fn a_sliced_free_can_follow_an_order()
    ensures { (plan : Plan) (s : Sliced) (h : ℕ) (x : Placed) (o : Order) → IsPlan plan → IsKept plan s → IsOrderBeside plan s o
        → s.job ≡ Idle → get s.held h ≡ Some x
        → (after : Sliced) × (new : Order) × (removes : RemovesSlicedObject plan s h after)
        × MovesNext plan.paging s.held o (class_at plan.paging removes.freed) removes.moved
        × SliceFollows plan removes.begun.held (job_slot removes.begun.job) after.job (record o { spare = h ∷ o.spare }) new
        × IsOrderBeside plan after new }
{}

/// A call that follows an order of the old state leaves an order of the new state.
pub fn a_call_keeps_an_order()
    ensures { (plan : Plan) (old : HeapWithWords) (event : Event) (new : HeapWithWords) (was now : Order) → IsPlan plan → IsKept plan old.state
        → IsOrderBeside plan old.state was → HappensInOrder plan old event new was now → IsOrderBeside plan new.state now }
{}

/// The order that lists all pages and all numbers, each rising from 0, is an order of a heap without
/// objects and without a job.
pub fn rising_numbers_are_an_order()
    ensures { (plan : Plan) → IsOrderBeside plan (record { held = empty; job = Idle }) (first_order plan.paging plan.proxies) }
{}
