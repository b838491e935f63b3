//! Laws of runs, by the most live objects: how many pages a class has at most, with how many pages no
//! malloc is refused for space, and with which bounds no free moves an object. `p` holds the pages and
//! the classes, with any bounds.
ghost use Rattle.std.specs.Prelude.{ℕ, ◌≡◌, ◌<◌, ◌≤◌, List, None, Some};
ghost use Rattle.std.specs.FinMap.{empty, get};
ghost use Rattle.cf_base.specs.Settings.{Profile};
ghost use Rattle.page_model.specs.Arrangement.{pages_for, pages_of_class};
ghost use Rattle.page_model.specs.Counts.{ceil_div};
ghost use Rattle.page_model.specs.Held.{Held, Placed};
ghost use Rattle.page_model.specs.Paging.{IsPaging, Paging, bound_of, classes, slots_of};
ghost use Rattle.page_model.specs.Steps.{MustMove};
ghost use Rattle.quota_model.specs.Admission.{first_large, in_order, pages_needed_by};
ghost use Rattle.quota_model.specs.declared.results.Need.{Need};
ghost use Rattle.sizing.specs.Demands.{HasAtMost, KeepsTo};
ghost use Rattle.sizing.specs.Runs.{CanBeRefused, HeapCall, IsServed, RunCalls};

/// In a run that begins without objects and never has more than `most c` live objects of each class `c`,
/// no class has more pages than so many objects fill, rounded up: whatever its bound, the order of
/// mallocs, frees, resizes and writes, and the manager's choices.
pub fn pages_follow_the_most_live()
    ensures { (p : Paging) (most : ℕ → ℕ) (calls : List HeapCall) (m : Held) (c : ℕ) → IsPaging p
        → RunCalls p (HasAtMost p most) empty calls m → c < classes p
        → pages_of_class p m c ≤ ceil_div (most c) (slots_of p c) }
{}

/// No malloc and no resize of a run with at most `most c` live objects of each class `c` is refused for space,
/// if there are at least the pages that these objects fill, rounded up by class (`counts`). The same holds if
/// the most live objects are declared by length (`needs`).
pub fn enough_pages_serve()
    ensures counts { (p : Paging) (most : ℕ → ℕ) → IsPaging p → pages_for p most ≤ p.pages
        → IsServed p (HasAtMost p most) }
    ensures needs { (p : Paging) (needs : List Need) → IsPaging p
        → pages_needed_by p (in_order needs) ≤ p.pages → IsServed p (KeepsTo needs) }
{}

/// With fewer pages than the declared objects (`needs`) need, some run within the needs, begun without
/// objects, has a malloc that is refused for space. This holds if the length of each entry, even of
/// count 0, fits a page with a header; a page has the words of the settings `s`.
pub fn fewer_pages_refuse()
    ensures { (p : Paging) (s : Profile) (needs : List Need) → IsPaging p
        → s.page_words ≡ p.page_words → first_large s needs ≡ None
        → p.pages < pages_needed_by p (in_order needs) → CanBeRefused p (KeepsTo needs) empty }
{}

/// No free moves an object in a run that begins without objects and never has more than `most c` live
/// objects of each class `c`, if the bound of each class is at least the pages that these objects fill.
pub fn nothing_must_move()
    ensures { (p : Paging) (most : ℕ → ℕ) (calls : List HeapCall) (m : Held) (h : ℕ) (x : Placed) → IsPaging p
        → ((c : ℕ) → c < classes p → ceil_div (most c) (slots_of p c) ≤ bound_of p c)
        → RunCalls p (HasAtMost p most) empty calls m → get m h ≡ Some x → ¬ MustMove p m x }
{}
