//! Laws of the figures that reports show of a class and of the whole heap: how the live objects,
//! the bytes asked and the bytes taken change when an object is added or removed; and which counts
//! of pages and objects agree. In the clauses `p` holds the pages and the classes, `o` the bytes of
//! the objects by number.
ghost use Rattle.std.specs.Prelude.{ℕ, ◌≡◌, ◌+◌, ◌*◌, List, None, Some, cond, length, nat_eq};
ghost use Rattle.std.specs.FinMap.{get, insert, len, remove};
ghost use Rattle.page_model.specs.Arrangement.{IsSound, free_pages, live, used_pages};
ghost use Rattle.page_model.specs.Figures.{asked_bytes, taken_bytes};
ghost use Rattle.page_model.specs.Held.{Held, Objects, objects};
ghost use Rattle.page_model.specs.Paging.{Paging, class_for, slot_words};

/// In a sound arrangement `m` on the pages `p`, the pages in use and the free ones add up to all
/// pages (`pages`). `objects m`, the bytes by number, has as many entries as `m` (`len`).
pub fn pages_and_objects_add_up()
    ensures pages { (p : Paging) (m : Held) → IsSound p m
        → used_pages p m + free_pages p m ≡ p.pages }
    ensures len { (m : Held) → len (objects m) ≡ len m }
{}

/// Adding an object with the bytes `v` to the objects `o` under a new number `h` adds one to the live
/// objects of its class, and none to those of another class `c`. It adds the object's bytes to the
/// bytes asked, and the bytes of its slot to the bytes taken.
pub fn figures_after_adding()
    ensures live { (p : Paging) (o : Objects) (h : ℕ) (v : List ℕ) (c : ℕ) → get o h ≡ None
        → live p (insert o h v) c ≡ live p o c + cond (nat_eq (class_for p (length v)) c) 1 0 }
    ensures asked { (o : Objects) (h : ℕ) (v : List ℕ) → get o h ≡ None
        → asked_bytes (insert o h v) ≡ asked_bytes o + length v }
    ensures taken { (p : Paging) (o : Objects) (h : ℕ) (v : List ℕ) → get o h ≡ None
        → taken_bytes p (insert o h v)
        ≡ taken_bytes p o + 8 * slot_words p (class_for p (length v)) }
{}

/// Removing object `h` with the bytes `v` from the objects `o` subtracts one from the live objects of
/// its class, and none from those of another class `c`. It subtracts the object's bytes from the
/// bytes asked, and the bytes of its slot from the bytes taken.
pub fn figures_after_removing()
    ensures live { (p : Paging) (o : Objects) (h : ℕ) (v : List ℕ) (c : ℕ) → get o h ≡ Some v
        → live p (remove o h) c + cond (nat_eq (class_for p (length v)) c) 1 0 ≡ live p o c }
    ensures asked { (o : Objects) (h : ℕ) (v : List ℕ) → get o h ≡ Some v
        → asked_bytes (remove o h) + length v ≡ asked_bytes o }
    ensures taken { (p : Paging) (o : Objects) (h : ℕ) (v : List ℕ) → get o h ≡ Some v
        → taken_bytes p (remove o h) + 8 * slot_words p (class_for p (length v))
        ≡ taken_bytes p o }
{}
