//! Laws on refusals by the sliced heap: when a malloc is refused as `Space` or `Busy`; a malloc or
//! free succeeds or has one cause of refusal; a slice always succeeds. The laws hold in a state s
//! that satisfies the rules (`IsKept`), under valid settings `plan` (`IsPlan`).
ghost use Rattle.std.specs.Prelude.{ℕ, ◌≡◌, ◌≢◌, ◌<◌, ◌≤◌, ◌⊎◌, ◌↔◌};
ghost use Rattle.cf_base.specs.Classes.{need};
ghost use Rattle.page_model.specs.Arrangement.{pages_needed_with};
ghost use Rattle.page_model.specs.Held.{objects};
ghost use Rattle.page_model.specs.Paging.{class_for};
ghost use Rattle.page_model.specs.Steps.{Request};
ghost use Rattle.slice_model.specs.State.{Idle, IsKept, IsPlan, IsSlicedFreePage, IsUsable, NoPlace, Plan, Sliced, occupied};
ghost use Rattle.slice_model.specs.Steps.{AddsSlicedObject, IsFaultOf, IsSlicedRefusedBy, IsSlice, RemovesSlicedObject, LacksUsableSlot};
ghost use Rattle.slice_model.specs.declared.refusals.SliceFault.{SliceFault};
ghost use Rattle.slice_model.specs.declared.refusals.SliceRefusal.{SliceRefusal};

/// A malloc is refused as `Busy` only if a job is pending.
pub fn a_malloc_is_busy_only_with_a_job()
    ensures { (plan : Plan) (s : Sliced) (bytes : ℕ) → IsPlan plan → IsKept plan s → LacksUsableSlot plan s bytes → s.job ≢ Idle }
{}

/// If an object fits a page, and its class has a usable slot or a page is free, its malloc is not
/// refused as `Space`: the objects and the new one need at most the pages that the heap has. The
/// pages needed are, summed over the classes, the objects divided by the slots of a page, rounded
/// up. A slot is usable (`IsUsable`) if it is free, the job doesn't hold it, and its page is one of
/// the class already.
pub fn a_malloc_with_a_slot_left_is_not_refused_space()
    ensures slot { (plan : Plan) (s : Sliced) (bytes a : ℕ) → IsPlan plan → IsKept plan s → need bytes ≤ plan.paging.page_words
        → IsUsable plan.paging s (class_for plan.paging bytes) a
        → pages_needed_with plan.paging (objects s.held) bytes ≤ plan.paging.pages }
    ensures page { (plan : Plan) (s : Sliced) (bytes page : ℕ) → IsPlan plan → IsKept plan s → need bytes ≤ plan.paging.page_words
        → IsSlicedFreePage plan.paging s page
        → pages_needed_with plan.paging (objects s.held) bytes ≤ plan.paging.pages }
{}

/// No slot is left for an object of `bytes` bytes, which fits a page, if and only if the objects, the
/// placeholder in the job's slot and the new object together need more pages than the heap has.
pub fn when_no_slot_is_left()
    ensures { (plan : Plan) (s : Sliced) (bytes : ℕ) → IsPlan plan → IsKept plan s → need bytes ≤ plan.paging.page_words
        → NoPlace plan.paging s (class_for plan.paging bytes)
        ↔ (plan.paging.pages < pages_needed_with plan.paging (objects (occupied plan s)) bytes) }
{}

/// If the objects and the new one need fewer pages than the heap has, the malloc is not refused as
/// `Busy`. So one spare page is enough that no malloc waits for a job.
pub fn no_malloc_is_busy_with_a_spare_page()
    ensures { (plan : Plan) (s : Sliced) (bytes : ℕ) → IsPlan plan → IsKept plan s
        → pages_needed_with plan.paging (objects s.held) bytes < plan.paging.pages → ¬ LacksUsableSlot plan s bytes }
{}

/// In a state that satisfies the rules (`IsKept`), each malloc is either done or refused, and
/// refused for exactly one cause.
pub fn a_malloc_has_one_answer()
    ensures some { (plan : Plan) (s : Sliced) (bytes : ℕ) → IsPlan plan → IsKept plan s
        → ((e : SliceRefusal) × IsSlicedRefusedBy plan s bytes e)
        ⊎ ((h : ℕ) × (new : Sliced) × AddsSlicedObject plan s (record { number = h; length = bytes }) new) }
    ensures one { (plan : Plan) (s : Sliced) (bytes : ℕ) (a b : SliceRefusal) → IsSlicedRefusedBy plan s bytes a → IsSlicedRefusedBy plan s bytes b → a ≡ b }
    ensures done { (plan : Plan) (s : Sliced) (asked : Request) (new : Sliced) (e : SliceRefusal) → IsPlan plan → IsKept plan s
        → AddsSlicedObject plan s asked new → ¬ IsSlicedRefusedBy plan s asked.length e }
{}

/// In a state that satisfies the rules (`IsKept`), each free is either done or refused, and refused
/// for exactly one cause.
pub fn a_free_has_one_answer()
    ensures some { (plan : Plan) (s : Sliced) (h : ℕ) → IsPlan plan → IsKept plan s
        → ((e : SliceFault) × IsFaultOf s h e) ⊎ ((new : Sliced) × RemovesSlicedObject plan s h new) }
    ensures one { (s : Sliced) (h : ℕ) (a b : SliceFault) → IsFaultOf s h a → IsFaultOf s h b → a ≡ b }
    ensures done { (plan : Plan) (s : Sliced) (h : ℕ) (new : Sliced) (e : SliceFault) → RemovesSlicedObject plan s h new → ¬ IsFaultOf s h e }
{}

/// A slice is never refused: from every state that satisfies the rules (`IsKept`) a slice leads to
/// a next state.
pub fn a_slice_can_always_be_done()
    ensures { (plan : Plan) (s : Sliced) → IsPlan plan → IsKept plan s → (new : Sliced) × IsSlice plan s new }
{}
