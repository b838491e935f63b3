//! Laws of long objects: causes of refusals, pages in use, the number of parts, reads of what was
//! written, steps of calls. The functions do nothing: their clauses are the laws.
ghost use Rattle.std.specs.Prelude.{◌≡◌, ◌≢◌, ℕ, ◌+◌, ◌*◌, ◌<◌, ◌≤◌, List, length};
ghost use Rattle.std.specs.FinMap.{get};
ghost use Rattle.cf_base.specs.declared.results.AccessFault.{AccessFault};
ghost use Rattle.cf_base.specs.declared.results.Refusal.{Refusal};
ghost use Rattle.cf_model.specs.Costs.{words_touched};
ghost use Rattle.cf_model.specs.State.{paging_in};
ghost use Rattle.cf_model.specs.Steps.{Position};
ghost use Rattle.page_model.specs.Arrangement.{pages_for, used_pages};
ghost use Rattle.page_model.specs.Paging.{Paging};
ghost use Rattle.large_objects.specs.Large.{KeepsParts, LargeState};
ghost use Rattle.large_objects.specs.LargeCosts.{moving_costs, object_free_steps, object_malloc_steps, parts_access_steps, parts_touched, sharing, slots_taken};
ghost use Rattle.large_objects.specs.LargeSteps.{GivesLarge, IsLargeFault, IsRefusedLarge, ReadsLarge, WritesLarge, part_bytes_in};
ghost use Rattle.large_objects.specs.InnerObjects.{inner_live, part_count};

/// Whenever a cause of a refusal holds, a heap of long objects refuses the malloc with this cause;
/// the contract of `malloc` has the converse. Clause `malloc`: if a malloc of n bytes makes an
/// object, no cause of a refusal held before it. Clause `one_cause`: at most one cause holds at a
/// time. Clause `write`: if a write is done, no cause of a fault held before it.
pub fn a_cause_is_always_refused()
    ensures malloc { (old new : LargeState) (h n : ℕ) (e : Refusal)
        → GivesLarge old h n new → ¬ IsRefusedLarge old n e }
    ensures one_cause { (s : LargeState) (n : ℕ) (e f : Refusal)
        → IsRefusedLarge s n e → IsRefusedLarge s n f → e ≡ f }
    ensures write { (old new : LargeState) (position : Position) (bytes : List ℕ) (e : AccessFault)
        → WritesLarge old position bytes new → ¬ IsLargeFault old position (length bytes) e }
{}

/// In an open heap of long objects, the inner manager uses exactly as many pages as the inner
/// objects need, since every bound is 1. The number of these pages follows from the lengths of the
/// objects.
pub fn pages_in_use_are_those_of_the_inner_objects()
    ensures { (s : LargeState) → KeepsParts s
        → used_pages (paging_in s.inner) s.inner.held ≡ pages_for (paging_in s.inner) (inner_live (paging_in s.inner) (part_bytes_in s) s.objects) }
{}

/// An object of n bytes is cut into as few parts of at most u bytes as possible: if each part had u
/// bytes, they would have at least n bytes (clause `enough`) and fewer than n + u (`few`). Here u is
/// at least 1.
pub fn parts_are_as_many_as_needed()
    ensures enough { (u n : ℕ) → 0 < u → n ≤ u * part_count u n }
    ensures few { (u n : ℕ) → 0 < u → u * part_count u n < n + u }
{}

/// In a heap of long objects, clause `same`: right after a write to any object, a read of the same
/// number of bytes from the same position returns the written bytes. Clause `others`: a write
/// changes no other object.
pub fn what_is_written_is_read()
    ensures same { (old new : LargeState) (position : Position) (bytes out : List ℕ)
        → WritesLarge old position bytes new → ReadsLarge new position (length bytes) out → out ≡ bytes }
    ensures others { (old new : LargeState) (position : Position) (bytes : List ℕ) → WritesLarge old position bytes new
        → (q : ℕ) → q ≢ position.number → get new.objects q ≡ get old.objects q }
{}

/// The steps of calls on a long object over a moving manager that promises an order. With q parts a
/// malloc takes at most 15 + 18 q + 2 x, and a free at most 16 + 19 q + 4 x plus the words of all
/// slots of the object. Here x is how many of its parts and spine have a class with several slots to
/// a page (`sharing`): at most 2 (clause `few`), since a whole part has a page of its own. A read or
/// a write takes exactly 5 steps for each part, and 1 for each word, that has a byte read or
/// written.
pub fn long_calls_take_steps_for_parts_and_words()
    ensures malloc { (p : Paging) (u n : ℕ) → u < n
        → object_malloc_steps moving_costs p u n ≡ 15 + 18 * part_count u n + 2 * sharing p u n }
    ensures free { (p : Paging) (u n : ℕ) → u < n
        → object_free_steps moving_costs p u n ≡ 16 + 19 * part_count u n + 4 * sharing p u n + slots_taken p u n }
    ensures few { (s : LargeState) → KeepsParts s → (n : ℕ) → part_bytes_in s < n
        → sharing (paging_in s.inner) (part_bytes_in s) n ≤ 2 }
    ensures access { (m u at count : ℕ) → 0 < m → u ≡ 8 * m
        → parts_access_steps moving_costs u at count ≡ 5 * parts_touched u at count + words_touched at count }
{}
