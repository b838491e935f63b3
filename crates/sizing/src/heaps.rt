//! Laws of managers with pages, by what the trait `Manager` shows: when no malloc and no resize is
//! refused for space, and no free moves an object. `s` is the state of a manager that was just
//! opened, `last` that after some calls, refused ones among them.
ghost use Rattle.std.specs.Prelude.{ℕ, ◌≡◌, ◌<◌, ◌≤◌, List, None, Ok};
ghost use Rattle.cf_base.specs.declared.results.Freed.{Freed};
ghost use Rattle.cf_model.specs.State.{HeapState, paging_in};
ghost use Rattle.cf_model.specs.Steps.{IsFreeStep};
ghost use Rattle.page_model.specs.Counts.{ceil_div};
ghost use Rattle.page_model.specs.Paging.{bound_of, classes, slots_of};
ghost use Rattle.quota_model.specs.Admission.{in_order, pages_needed_by};
ghost use Rattle.quota_model.specs.declared.results.Need.{Need};
ghost use Rattle.sizing.specs.Certificates.{IsCertificate, KeepResized};
ghost use Rattle.sizing.specs.Demands.{KeepsTo, KeepsToOne, count_in, spread_of_modes};
ghost use Rattle.sizing.specs.Heaps.{AnsweredCall, HeapRun, IsFresh, ServesHeapMallocs, ServesHeapResizes};
ghost use Rattle.sizing.specs.declared.certificate.PointPages.{PointPages};

/// No malloc (`mallocs`) and no resize (`resizes`) within a program's `needs` is refused for space, if the
/// manager, with any bounds, has at least the pages that the declared objects need. What the program
/// called before within its needs, and in which order, makes no difference.
pub fn no_call_within_the_needs_is_refused_space()
    ensures mallocs { (needs : List Need) (s : HeapState) → IsFresh s
        → pages_needed_by (paging_in s) (in_order needs) ≤ s.profile.pages → ServesHeapMallocs (KeepsTo needs) s }
    ensures resizes { (needs : List Need) (s : HeapState) → IsFresh s
        → pages_needed_by (paging_in s) (in_order needs) ≤ s.profile.pages → ServesHeapResizes (KeepsTo needs) s }
{}

/// No malloc of a program whose live objects are always within one of its `modes` is refused for space
/// if the manager has at least the most pages that its classes can have in one mode (`spread_of_modes`;
/// clause `spread`), or if its pages have a certificate that allows for resizes within a class
/// (`certified`).
pub fn no_malloc_within_the_modes_is_refused_space()
    ensures spread { (modes : List (List Need)) (s : HeapState) → IsFresh s
        → spread_of_modes (paging_in s) modes ≤ s.profile.pages → ServesHeapMallocs (KeepsToOne modes) s }
    ensures certified { (modes : List (List Need)) (points : List PointPages) (s : HeapState) → IsFresh s
        → IsCertificate (paging_in s) modes points → KeepResized (paging_in s) modes points → ServesHeapMallocs (KeepsToOne modes) s }
{}

/// If the bound of each class is at least the pages that its declared objects fill, no free moves an
/// object while the program keeps to its `needs`.
pub fn no_free_within_the_needs_moves_an_object()
    ensures { (needs : List Need) (s : HeapState) (calls : List AnsweredCall) (last new : HeapState) (h : ℕ) (freed : Freed)
        → IsFresh s
        → ((c : ℕ) → c < classes (paging_in s)
        → ceil_div (count_in (paging_in s) needs c) (slots_of (paging_in s) c) ≤ bound_of (paging_in s) c)
        → HeapRun (KeepsTo needs) s calls last
        → IsFreeStep last h (Ok freed) new → freed.moved ≡ None }
{}
