//! Laws of the order in which a manager uses pages, slots and the numbers of objects (`Order`). The
//! order leaves a call no choice, and each call that may succeed can follow the order. In the
//! clauses the numbers of objects are below `limit`. Most require `IsPaging p`: the slot sizes of
//! the pages `p` rise to the page, and each class has a bound of at least 1.
ghost use Rattle.std.specs.Prelude.{ℕ, ◌≡◌, ◌≢◌, ◌<◌, Option, Some, None};
ghost use Rattle.std.specs.FinMap.{get, insert, len};
ghost use Rattle.page_model.specs.Arrangement.{IsSound, LacksRoom, class_at};
ghost use Rattle.page_model.specs.Held.{Held, Placed};
ghost use Rattle.page_model.specs.Order.{FreeFollows, IsOrderOf, MallocFollows, Order, ResizeFollows};
ghost use Rattle.page_model.specs.Paging.{IsPaging, Paging, class_for, classes};
ghost use Rattle.page_model.specs.Steps.{IsFreePlace, CallResult, Moves, RefitsObject, RemovesObject, Request, without, zeros_at};

/// Two mallocs of the same length that follow the same order `old` use the same number and address,
/// and leave the same order. Two frees of the same object `h` that follow the same order leave the
/// same objects and the same order. So do two resizes of the same object to the same length. `m`
/// are the objects before the calls, for a free or a resize a sound arrangement; `p` are the pages.
pub fn an_order_leaves_no_choice()
    ensures malloc { (p : Paging) (m : Held) (asked other : Request) (place elsewhere : ℕ) (old new next : Order)
        → MallocFollows p m asked place old new → MallocFollows p m other elsewhere old next → asked.length ≡ other.length
        → (asked.number ≡ other.number) × (place ≡ elsewhere) × (new ≡ next) }
    ensures free { (p : Paging) (m : Held) (h : ℕ) (after other : CallResult) (old new next : Order) → IsSound p m
        → RemovesObject p m h after → FreeFollows p m h after.moved old new
        → RemovesObject p m h other → FreeFollows p m h other.moved old next
        → (after ≡ other) × (new ≡ next) }
    ensures resize { (p : Paging) (m : Held) (asked : Request) (after other : CallResult) (old new next : Order) → IsPaging p → IsSound p m
        → RefitsObject p m asked after → ResizeFollows p m asked after old new
        → RefitsObject p m asked other → ResizeFollows p m asked other old next
        → (after ≡ other) × (new ≡ next) }
{}

/// If a number below `limit` is unused and the class of `n` bytes has a slot left, a malloc can
/// follow the order `o`. It takes a slot on the first partly full page, or on the first free one,
/// and leaves an order of the new arrangement. `m` is the arrangement before, sound on the pages `p`.
pub fn a_malloc_can_follow_an_order()
    ensures { (p : Paging) (m : Held) (limit n : ℕ) (o : Order) → IsPaging p → IsSound p m → IsOrderOf p m limit o
        → class_for p n < classes p → len m < limit → (¬ LacksRoom p m (class_for p n))
        → (h place : ℕ) × (new : Order) × (h < limit) × (get m h ≡ None) × IsFreePlace p m n place
        × MallocFollows p m (record { number = h; length = n }) place o new
        × IsOrderOf p (insert m h (zeros_at place n)) limit new }
{}

/// A free of each live object `h`, which is `x`, can follow the order `o`, whether it moves an
/// object or not. It leaves an order of the arrangement without the object. `m` is the arrangement
/// before, sound on the pages `p`.
pub fn a_free_can_follow_an_order()
    ensures { (p : Paging) (m : Held) (limit h : ℕ) (x : Placed) (o : Order) → IsPaging p → IsSound p m → IsOrderOf p m limit o
        → get m h ≡ Some x → h < limit
        → (moved : Option ℕ) × (new : Order) × Moves p m x moved × FreeFollows p m h moved o new
        × IsOrderOf p (without m h x.place moved) limit new }
{}

/// A resize of the live object `x` can follow the order `o`, and leaves an order of the new
/// arrangement, if the new length has a class which is the object's class or has a slot left. `m` is
/// the arrangement before, sound on the pages `p`.
pub fn a_resize_can_follow_an_order()
    ensures { (p : Paging) (m : Held) (limit : ℕ) (asked : Request) (x : Placed) (o : Order) → IsPaging p → IsSound p m → IsOrderOf p m limit o
        → get m asked.number ≡ Some x → class_for p asked.length < classes p
        → (class_for p asked.length ≢ class_at p x → ¬ LacksRoom p m (class_for p asked.length))
        → (after : CallResult) × (new : Order) × RefitsObject p m asked after × ResizeFollows p m asked after o new
        × IsOrderOf p after.held limit new }
{}
