//! Laws of sound arrangements: a malloc, a free and a resize keep an arrangement sound; what they
//! do to objects and counts; how many pages a class uses. `p` holds the pages and the classes, `m`
//! or `old` the objects. Most clauses require `IsPaging p`: the slot sizes rise to the page, and
//! each class has a bound of at least 1.
ghost use Rattle.std.specs.Prelude.{ℕ, ◌≡◌, ◌≢◌, ◌+◌, ◌/◌, ◌<◌, ◌≤◌, ◌&&◌, Option, Some, None, cond, length, nat_lt, replicate};
ghost use Rattle.std.specs.FinMap.{empty, get, insert, remove};
ghost use Rattle.page_model.specs.Arrangement.{IsSound, class_at, pages_of_class, is_on, live, not_full_pages, objects_on};
ghost use Rattle.page_model.specs.Counts.{CanHold, LieOn};
ghost use Rattle.page_model.specs.Held.{Held, Placed, objects, places};
ghost use Rattle.page_model.specs.Paging.{IsPaging, Paging, bound_of, class_for, classes, slots_of};
ghost use Rattle.page_model.specs.Steps.{ChangesClass, IsFreePlace, RemovesObject, PlacesObject, RefitsObject, MayFill, Moves, MustMove, CallResult, Request};
ghost use Rattle.page_model.specs.Steps.{resized_at, without, zeros_at};

/// The arrangement without objects is sound on any pages `p`, whatever the bounds. No class `c`
/// uses a page there.
pub fn nothing_is_a_sound_arrangement()
    ensures sound { (p : Paging) → IsSound p empty }
    ensures pages { (p : Paging) (c : ℕ) → pages_of_class p empty c ≡ 0 }
    ensures not_full { (p : Paging) (c : ℕ) → not_full_pages p empty c ≡ 0 }
{}

/// Let `m` be a sound arrangement on the pages `p`. By arithmetic, the live objects of class `c`
/// can be on the number of pages that the class uses, with none empty and at most the bound partly
/// full (`can_hold`), and with just as many partly full as in `m` (`not_full`). So the class uses
/// at most its live objects over the slots of a page, rounded down, plus the bound (`few`). No page
/// holds more objects of the class than it has slots (`slots`).
pub fn page_counts_of_a_sound_arrangement()
    ensures can_hold { (p : Paging) (m : Held) (c : ℕ) → IsPaging p → IsSound p m → c < classes p
        → CanHold (pages_of_class p m c) (live p (objects m) c) (slots_of p c) (bound_of p c) }
    ensures not_full { (p : Paging) (m : Held) (c : ℕ) → IsPaging p → IsSound p m → c < classes p
        → LieOn (pages_of_class p m c) (live p (objects m) c) (slots_of p c) (bound_of p c)
        (not_full_pages p m c) }
    ensures few { (p : Paging) (m : Held) (c : ℕ) → IsPaging p → IsSound p m → c < classes p
        → pages_of_class p m c ≤ live p (objects m) c / slots_of p c + bound_of p c }
    ensures slots { (p : Paging) (m : Held) (c page : ℕ) → IsPaging p → IsSound p m → c < classes p
        → objects_on p m c page ≤ slots_of p c }
{}

/// A malloc (`asked`) that turns the arrangement `old` into `new` keeps it sound.
pub fn a_malloc_keeps_soundness()
    ensures { (p : Paging) (old : Held) (asked : Request) (new : Held) → IsPaging p → IsSound p old
        → PlacesObject p old asked new → IsSound p new }
{}

/// A free of object `h` that turns the arrangement `old` into `after` keeps it sound, whether
/// another object moves or not.
pub fn a_free_keeps_soundness()
    ensures { (p : Paging) (old : Held) (h : ℕ) (after : CallResult) → IsPaging p → IsSound p old
        → RemovesObject p old h after → IsSound p after.held }
{}

/// A resize (`asked`) that turns the arrangement `old` into `after` keeps it sound, within the
/// class and to another one.
pub fn a_resize_keeps_soundness()
    ensures { (p : Paging) (old : Held) (asked : Request) (after : CallResult) → IsPaging p
        → IsSound p old
        → RefitsObject p old asked after → IsSound p after.held }
{}

/// A resize of object `h` to another class leaves the objects that a free of `h` leaves, and the
/// object resized to `n` bytes, again under the number `h`, at a free address `a`. The definition
/// of such a resize (`ChangesClass`) first adds a copy under an unused number, `spare`. `given`:
/// each arrangement as in the first sentence is the result of a resize, whatever unused number
/// `spare` is. `taken`: each resize has such a result.
pub fn a_resize_in_two_steps()
    ensures given { (p : Paging) (m : Held) (h n a spare : ℕ) (x : Placed) (moved : Option ℕ)
        → IsPaging p → IsSound p m → get m h ≡ Some x → class_for p n ≢ class_at p x
        → get m spare ≡ None → IsFreePlace p m n a → Moves p m x moved
        → ChangesClass p m (record { number = h; length = n })
        (record { held = insert (without m h x.place moved) h (resized_at a x n); moved = moved }) }
    ensures taken { (p : Paging) (old : Held) (asked : Request) (after : CallResult) → IsPaging p
        → IsSound p old
        → (r : ChangesClass p old asked after)
        → Moves p old r.object after.moved
        × (after.held ≡ insert (without old asked.number r.object.place after.moved) asked.number
        (resized_at r.place r.object asked.length)) }
{}

/// What a malloc and a free do to `objects`, the bytes by number, and to `places`, the addresses by
/// number, of the arrangement `m`. A malloc adds the number `h` with `n` zeros and the address `a`.
/// A free removes the bytes of `h` and no others. It also removes the address of `h` (`still`); if
/// it moves object `q`, that object gets the freed address (`moved`).
pub fn objects_after_a_step()
    ensures malloc { (m : Held) (h a n : ℕ)
        → (objects (insert m h (zeros_at a n)) ≡ insert (objects m) h (replicate n 0))
        × (places (insert m h (zeros_at a n)) ≡ insert (places m) h a) }
    ensures free { (p : Paging) (m : Held) (h : ℕ) (x : Placed) (moved : Option ℕ)
        → IsPaging p → IsSound p m → get m h ≡ Some x → Moves p m x moved
        → objects (without m h x.place moved) ≡ remove (objects m) h }
    ensures still { (m : Held) (h a : ℕ) → places (without m h a None) ≡ remove (places m) h }
    ensures moved { (p : Paging) (m : Held) (h q : ℕ) (x : Placed)
        → IsPaging p → IsSound p m → get m h ≡ Some x → Moves p m x (Some q)
        → places (without m h x.place (Some q)) ≡ insert (remove (places m) h) q x.place }
{}

/// Adding object `x` to the arrangement `m` under a new number `h` raises the count of the objects of
/// class `c` on `page` by one if `x` is of this class and on this page. Otherwise the count stays.
pub fn counts_after_a_malloc()
    ensures { (p : Paging) (m : Held) (h c page : ℕ) (x : Placed) → get m h ≡ None
        → objects_on p (insert m h x) c page
        ≡ objects_on p m c page + cond (is_on p c page x) 1 0 }
{}

/// How a free of object `x`, with the number `h`, changes the count of the objects of class `c` on
/// `page`. If no object moves, the count falls by one if `x` was counted (`still`). If object `y`
/// moves to the address of `x`, the count falls by one if `y` was counted (`moved`). Otherwise the
/// count stays.
pub fn counts_after_a_free()
    ensures still { (p : Paging) (m : Held) (h a c page : ℕ) (x : Placed) → get m h ≡ Some x
        → objects_on p (without m h a None) c page + cond (is_on p c page x) 1 0
        ≡ objects_on p m c page }
    ensures moved { (p : Paging) (m : Held) (h q c page : ℕ) (x y : Placed) → IsPaging p
        → IsSound p m
        → get m h ≡ Some x → get m q ≡ Some y → MustMove p m x → MayFill p m x y
        → objects_on p (without m h x.place (Some q)) c page + cond (is_on p c page y) 1 0
        ≡ objects_on p m c page }
{}

/// Let the arrangements `old` and `new` have equally many objects of class `c` on each page but
/// `page`. Then the number of pages with an object of the class changes by one if `page` gains its
/// first such object or loses its last, and else stays (`pages`). The number of partly full pages
/// of the class changes by one if `page` becomes partly full or stops being so, and else stays
/// (`not_full`).
pub fn page_counts_follow_one_page()
    ensures pages { (p : Paging) (old new : Held) (c page : ℕ) → page < p.pages
        → ((g : ℕ) → g ≢ page → objects_on p new c g ≡ objects_on p old c g)
        → pages_of_class p new c + cond (nat_lt 0 (objects_on p old c page)) 1 0
        ≡ pages_of_class p old c + cond (nat_lt 0 (objects_on p new c page)) 1 0 }
    ensures not_full { (p : Paging) (old new : Held) (c page : ℕ) → page < p.pages
        → ((g : ℕ) → g ≢ page → objects_on p new c g ≡ objects_on p old c g)
        → not_full_pages p new c
        + cond (nat_lt 0 (objects_on p old c page) && nat_lt (objects_on p old c page)
        (slots_of p c)) 1 0
        ≡ not_full_pages p old c
        + cond (nat_lt 0 (objects_on p new c page) && nat_lt (objects_on p new c page)
        (slots_of p c)) 1 0 }
{}
