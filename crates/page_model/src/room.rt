//! Laws of when a sound arrangement has no slot left for one more object of a class, and of how
//! many pages its objects need. `p` holds the pages and the classes, `m` the objects with their
//! addresses. Most clauses require `IsPaging p`: the slot sizes rise to the page, and each class has
//! a bound of at least 1.
ghost use Rattle.std.specs.Prelude.{ℕ, ◌≡◌, ◌+◌, ◌/◌, ◌%◌, ◌<◌, ◌≤◌, ◌↔◌, List, None, length};
ghost use Rattle.std.specs.FinMap.{get, insert};
ghost use Rattle.page_model.specs.Arrangement.{IsSound, LacksRoom, free_pages, live, most_pages_besides, not_full_pages, pages_needed, pages_needed_with};
ghost use Rattle.page_model.specs.Arrangement.{used_pages};
ghost use Rattle.page_model.specs.Held.{Held, Objects, objects};
ghost use Rattle.page_model.specs.Paging.{EveryBoundIsOne, IsPaging, Paging, class_for, classes, slots_of};

/// In a sound arrangement `m` on the pages `p`, class `c` has no slot left (`LacksRoom`) if and only
/// if none of its pages is partly full and no page is free.
pub fn lack_of_room_is_no_page_left()
    ensures { (p : Paging) (m : Held) (c : ℕ) → IsSound p m
        → LacksRoom p m c ↔ ((not_full_pages p m c ≡ 0) × (free_pages p m ≡ 0)) }
{}

/// If class `c` has no slot left in the sound arrangement `m` on the pages `p`, the number of the class's objects is a
/// multiple of the slots of a page, so they can fill whole pages. The pages of `p` are at most as many as these whole
/// pages plus the most pages that the objects of the other classes can be on (`most_pages_besides`).
pub fn pages_where_room_is_lacking()
    ensures { (p : Paging) (m : Held) (c : ℕ) → IsPaging p → IsSound p m → c < classes p
        → LacksRoom p m c
        → (live p (objects m) c % slots_of p c ≡ 0)
        × (p.pages ≤ live p (objects m) c / slots_of p c + most_pages_besides p (objects m) c) }
{}

/// Whatever the bounds, a sound arrangement `m` on the pages `p` uses at least the pages that its
/// objects need (`pages_needed`): for each class its objects over the slots of a page, rounded up,
/// summed over the classes.
pub fn objects_need_no_more_pages()
    ensures { (p : Paging) (m : Held) → IsPaging p → IsSound p m
        → pages_needed p (objects m) ≤ used_pages p m }
{}

/// If every bound is 1, a sound arrangement `m` on the pages `p` uses exactly the pages that its objects
/// need (`pages_needed`).
pub fn pages_are_those_needed_at_bound_one()
    ensures { (p : Paging) (m : Held) → IsPaging p → EveryBoundIsOne p → IsSound p m
        → used_pages p m ≡ pages_needed p (objects m) }
{}

/// If every bound is 1, a sound arrangement `m` on the pages `p` has no slot left for an object of `n`
/// bytes, which fits a page, if and only if its objects with the new one need more pages than there
/// are (clause `room`). This covers a malloc, and a resize to another
/// class, in which the old object counts too. Clause `added`: `pages_needed_with` is how many pages
/// the objects `o` need once an object with the bytes `v` is added under a new number `h`.
pub fn lack_of_room_is_arithmetic_at_bound_one()
    ensures room { (p : Paging) (m : Held) (n : ℕ) → IsPaging p → EveryBoundIsOne p → IsSound p m
        → class_for p n < classes p
        → LacksRoom p m (class_for p n) ↔ (p.pages < pages_needed_with p (objects m) n) }
    ensures added { (p : Paging) (o : Objects) (h : ℕ) (v : List ℕ) → get o h ≡ None
        → pages_needed p (insert o h v) ≡ pages_needed_with p o (length v) }
{}
