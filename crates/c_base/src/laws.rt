//! Laws of the handles that C has. The functions do nothing; each contract is a law.
ghost use Rattle.std.specs.Prelude.{◌≡◌, ◌+◌, ◌*◌, ◌/◌, ◌^◌, ◌<◌, ◌≤◌, ℕ, List, length};
ghost use Rattle.c_base.specs.Frees.{raised_all, times_in};
ghost use Rattle.c_base.specs.HandleRules.{AreFirstHandles, AreHandles};
ghost use Rattle.c_base.specs.Handles.{handle_of, largest, none, number_in};

/// The handle that C has for a number names that number (`names`). After a free of the number this
/// handle names nothing, until the number was freed `2 ^ 32 / length handles - 1` times (`freed`).
/// `ns` are the numbers that were freed since, in any order.
pub fn a_freed_handle_names_nothing()
    ensures names { (handles : List ℕ) (n : ℕ) → AreHandles handles → n < length handles → number_in handles (handle_of handles n) ≡ n }
    ensures freed { (handles ns : List ℕ) (n : ℕ) → AreHandles handles → n < length handles → 1 ≤ times_in n ns
        → times_in n ns + 1 < 2 ^ 32 / length handles → number_in (raised_all handles ns) (handle_of handles n) ≡ none }
{}

/// A handle that C has when a heap is closed (`old`) names nothing in the next heap just opened in
/// the same C struct `nph_heap` (`new`), whatever its number of proxies; provided that no handle in
/// `old` is among the last `3 * length new` values of 32 bits.
pub fn a_handle_of_an_earlier_heap_names_nothing()
    ensures { (old new : List ℕ) (n proxies : ℕ) → n < length old → AreFirstHandles proxies (largest old) new
        → largest old + 3 * length new < 2 ^ 32 → number_in new (handle_of old n) ≡ none }
{}
