//! What the contracts of `Held` imply together, of the handles that C has and of a heap with as many pages as a program
//! needs. The functions do nothing; each contract is a law. The second and the third assume of the heap what the first
//! proves after each call (`KeepsHandles`).
ghost use Rattle.std.specs.Prelude.{◌≡◌, ◌≢◌, ◌/◌, ◌≤◌, ℕ, ℤ, List, None, Option, Some, length, pos, replicate};
ghost use Rattle.std.specs.FinMap.{get, insert};
ghost use Rattle.cf_base.specs.Settings.{Profile};
ghost use Rattle.cf_base.specs.declared.kind.Kind.{Kind};
ghost use Rattle.cf_model.specs.Bounds.{Bounds};
ghost use Rattle.cf_model.specs.Rules.{IsPaged};
ghost use Rattle.cf_model.specs.State.{layout_of};
ghost use Rattle.cf_model.specs.Steps.{ChangesCost};
ghost use Rattle.page_model.specs.Held.{Placed, objects};
ghost use Rattle.page_model.specs.Steps.{resized};
ghost use Rattle.quota_model.specs.declared.results.Need.{Need};
ghost use Rattle.sizing.specs.Demands.{KeepsTo};
ghost use Rattle.held_heap.specs.Bound.{IsBoundCall};
ghost use Rattle.held_heap.specs.Calls.{IsFreeCall, IsFreshHeap, IsLengthCall, IsMallocCall, IsPlaceCall, IsReadCall, IsResizeCall, IsWriteCall};
ghost use Rattle.c_base.specs.Handles.{none, number_in};
ghost use Rattle.held_heap.specs.HandleRules.{IsNewHandle, KeepsHandles};
ghost use Rattle.held_heap.specs.HeldState.{HeldState};
ghost use Rattle.held_heap.specs.PagesNeeded.{AreLeastPages, CCall, CallRun};
ghost use Rattle.c_base.specs.declared.results.NphFreed.{NphFreed};
ghost use Rattle.c_base.specs.declared.results.NphResized.{NphResized};

/// A held manager's heap that was just opened keeps its rules, and each number that an object can
/// have has a handle (`KeepsHandles`, clause `opened`). Each call keeps this true; `others` are the
/// calls that change neither the heap nor the handles.
pub fn every_call_keeps_the_handles()
    ensures opened { (kind : Kind) (p : Profile) (last : ℕ) (new : HeldState) → IsFreshHeap kind p last new → KeepsHandles new }
    ensures malloc { (most : Option Bounds) (old new : HeldState) (bytes before after : ℕ) (code : ℤ)
        → IsMallocCall most old bytes before code after new → KeepsHandles old → KeepsHandles new }
    ensures free { (most : Option Bounds) (old new : HeldState) (handle : ℕ) (before after : NphFreed) (code : ℤ)
        → IsFreeCall most old handle before code after new → KeepsHandles old → KeepsHandles new }
    ensures resize { (most : Option Bounds) (old new : HeldState) (handle bytes : ℕ) (before after : NphResized) (code : ℤ)
        → IsResizeCall most old handle bytes before code after new → KeepsHandles old → KeepsHandles new }
    ensures write { (most : Option Bounds) (old new : HeldState) (handle from : ℕ) (bytes : List ℕ) (code : ℤ)
        → IsWriteCall most old handle from bytes code new → KeepsHandles old → KeepsHandles new }
    ensures bound { (old new : HeldState) (words n : ℕ) (code : ℤ) → IsBoundCall old words n code new → KeepsHandles old → KeepsHandles new }
    ensures others { (old new : HeldState) → new.heap ≡ old.heap → new.handles ≡ old.handles → KeepsHandles old → KeepsHandles new }
{}

/// A held manager's malloc that returns 0 writes a handle of a number that no live object had. The
/// handle names this number before and after the call, and is less than `NONE`.
pub fn a_malloc_gives_a_new_handle()
    ensures { (most : Option Bounds) (old new : HeldState) (bytes before after : ℕ) → IsMallocCall most old bytes before (pos 0) after new
        → KeepsHandles old → IsNewHandle old after new }
{}

/// A call on a held manager with a stale handle, which is not the one that its number has now,
/// returns 4 (`UNKNOWN`) and leaves the caller's number, structure or buffer unchanged: a free,
/// resize, write, read, or call for the length or address. A write also leaves the heap unchanged,
/// and a free the handles and all of the heap but its cost.
pub fn a_stale_handle_is_refused()
    ensures free { (most : Option Bounds) (old new : HeldState) (handle : ℕ) (before after : NphFreed) (code : ℤ)
        → IsFreeCall most old handle before code after new → KeepsHandles old → number_in old.handles handle ≡ none
        → (code ≡ pos 4) × (after ≡ before) × ChangesCost old.heap new.heap × (new.handles ≡ old.handles) }
    ensures resize { (most : Option Bounds) (old new : HeldState) (handle bytes : ℕ) (before after : NphResized) (code : ℤ)
        → IsResizeCall most old handle bytes before code after new → KeepsHandles old → number_in old.handles handle ≡ none
        → (code ≡ pos 4) × (after ≡ before) }
    ensures write { (most : Option Bounds) (old new : HeldState) (handle from : ℕ) (bytes : List ℕ) (code : ℤ)
        → IsWriteCall most old handle from bytes code new → KeepsHandles old → number_in old.handles handle ≡ none
        → (code ≡ pos 4) × (new.heap ≡ old.heap) }
    ensures read { (most : Option Bounds) (old new : HeldState) (handle from : ℕ) (before after : List ℕ) (code : ℤ)
        → IsReadCall most old handle from before code after new → KeepsHandles old → number_in old.handles handle ≡ none
        → (code ≡ pos 4) × (after ≡ before) }
    ensures length { (kind : Kind) (old new : HeldState) (handle before after : ℕ) (code : ℤ)
        → IsLengthCall kind old handle before code after new → KeepsHandles old → number_in old.handles handle ≡ none
        → (code ≡ pos 4) × (after ≡ before) }
    ensures place { (old new : HeldState) (handle before after : ℕ) (code : ℤ)
        → IsPlaceCall old handle before code after new → KeepsHandles old → number_in old.handles handle ≡ none
        → (code ≡ pos 4) × (after ≡ before) }
{}

/// A malloc or a resize that would leave the objects of a heap with pages within a program's needs
/// does not return 3 (`SPACE`). The heap was opened with pages of `page_bytes` bytes, at least as
/// many as `nph_pages_needed` writes for the needs, and after each call so far its objects were
/// within them, whatever bounds the calls set.
pub fn no_call_within_the_needs_lacks_space()
    ensures malloc { (kind : Kind) (p : Profile) (last page_bytes pages : ℕ) (needs : List Need) (most : Option Bounds)
        (first old new : HeldState) (calls : List CCall) (bytes before after : ℕ) (code : ℤ)
        → IsPaged kind → IsFreshHeap kind p last first → AreLeastPages (layout_of kind) page_bytes needs pages
        → p.page_words ≡ page_bytes / 8 → pages ≤ p.pages → CallRun most needs first calls old
        → ((h : ℕ) → get old.heap.held h ≡ None → KeepsTo needs (insert (objects old.heap.held) h (replicate bytes 0)))
        → IsMallocCall most old bytes before code after new → code ≢ pos 3 }
    ensures resize { (kind : Kind) (p : Profile) (last page_bytes pages : ℕ) (needs : List Need) (most : Option Bounds)
        (first old new : HeldState) (calls : List CCall) (handle bytes : ℕ) (before after : NphResized) (code : ℤ)
        → IsPaged kind → IsFreshHeap kind p last first → AreLeastPages (layout_of kind) page_bytes needs pages
        → p.page_words ≡ page_bytes / 8 → pages ≤ p.pages → CallRun most needs first calls old
        → ((x : Placed) → get old.heap.held (number_in old.handles handle) ≡ Some x
        → KeepsTo needs (insert (objects old.heap.held) (number_in old.handles handle) (resized x.bytes bytes)))
        → IsResizeCall most old handle bytes before code after new → code ≢ pos 3 }
{}
