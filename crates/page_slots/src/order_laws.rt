//! Laws of the order in which the tables use pages and slots (`order_of`): the slot that a call
//! takes, or the object that it moves, is the next one. The order after the call and its steps are
//! those that `page_model` computes. The order of the tables is an order of the objects
//! (`IsOrderOf`). `p` holds the pages and classes of the tables (`FitPagesShared`), `m` the objects
//! at their used slots (`Occupies`), by number, and `spare` the numbers without an object.
ghost use Rattle.std.specs.Prelude.{ℕ, ◌≡◌, ◌+◌, ◌<◌, List, None, Some, length, nat_eq, slice_get};
ghost use Rattle.std.specs.List.{Contains, IsDistinct};
ghost use Rattle.std.specs.FinMap.{get, len};
ghost use Rattle.page_model.specs.Held.{Held, Placed};
ghost use Rattle.page_model.specs.Order as Order;
ghost use Rattle.page_model.specs.Order.{IsNextToMove, IsOrderOf, TakesNext, slot_freed};
ghost use Rattle.page_model.specs.Paging.{IsPaging, Paging, classes};
ghost use Rattle.page_slots.specs.Occupying.{Occupies, FitPages, FitPagesShared, class_table};
ghost use Rattle.page_slots.specs.Orders.{order_of};
ghost use Rattle.page_slots.specs.Release.{IsFiller, Vacates, drop_slot_steps, fill_slot_steps};
ghost use Rattle.page_slots.specs.Tables.{AreTables, IsOf, Tables};
ghost use Rattle.page_slots.specs.Take.{TakesAt, take_slot_steps};
ghost use Rattle.class_lists.specs.declared.Which.TheVariants.{NotFull};
ghost use Rattle.class_lists.specs.PageLists.{pages_in};

/// When the tables take a slot of class c, at address a, it is the next one in their order. The
/// order afterwards is the one that the model computes (`TakesNext`).
pub fn the_next_slot_is_taken()
    ensures { (p : Paging) (m : Held) (old new : Tables) (c a : ℕ) (spare : List ℕ)
        → IsPaging p → FitPagesShared p old → Occupies p m old → AreTables (class_table p) new → c < classes p
        → TakesAt (class_table p) old c a new
        → TakesNext p m (order_of (classes p) old spare) c a (order_of (classes p) new spare) }
{}

/// After a slot of a page of class c is freed, the order of the tables is the one that the model
/// computes (`slot_freed`).
pub fn a_freed_slot_follows_the_order()
    ensures { (p : Paging) (m : Held) (old new : Tables) (c page slot : ℕ) (spare : List ℕ)
        → IsPaging p → FitPagesShared p old → Occupies p m old → AreTables (class_table p) new → c < classes p
        → Vacates old c page slot new
        → order_of (classes p) new spare ≡ slot_freed p m (order_of (classes p) old spare) c page }
{}

/// The object y that the tables choose to move into a freed slot of class c is the next one to move
/// in their order.
pub fn the_filler_is_next_to_move()
    ensures { (p : Paging) (m : Held) (t : Tables) (c a : ℕ) (y : Placed) (spare : List ℕ)
        → IsPaging p → FitPagesShared p t → Occupies p m t → c < classes p
        → IsFiller (class_table p) t.maps t.lists c a → y.place ≡ a
        → IsNextToMove p m (order_of (classes p) t spare) c y }
{}

/// The steps of a `take_slot` that takes a slot, of `drop_slot` and of `fill_slot`, computed from
/// the tables, are those that the model computes from the order and how many objects are on each
/// page.
pub fn steps_follow_the_order()
    ensures take { (p : Paging) (m : Held) (old new : Tables) (c a : ℕ) (spare : List ℕ)
        → FitPagesShared p old → Occupies p m old → c < classes p → TakesAt (class_table p) old c a new
        → take_slot_steps (class_table p) old c ≡ Order.steps_to_take p m (order_of (classes p) old spare) c }
    ensures drop { (p : Paging) (m : Held) (t : Tables) (c page : ℕ)
        → FitPagesShared p t → Occupies p m t → c < classes p → IsOf t c page
        → drop_slot_steps t page ≡ Order.steps_to_drop p m c page }
    ensures fill { (p : Paging) (m : Held) (t : Tables) (c page : ℕ) (spare : List ℕ)
        → FitPagesShared p t → Occupies p m t → c < classes p → slice_get (pages_in t.lists c NotFull) 0 ≡ Some page
        → fill_slot_steps t c ≡ Order.steps_to_fill p m (order_of (classes p) t spare) c }
{}

/// The order of the tables is an order of the objects: it lists the free pages, the partly full
/// pages of each class, and the numbers without an object, each once. Each page must be free or in
/// a list of the tables; `spare` must list numbers below `limit` without an object, each once,
/// which with the numbers of the objects are `limit` in all.
pub fn the_order_is_of_the_arrangement()
    ensures { (p : Paging) (m : Held) (t : Tables) (limit : ℕ) (spare : List ℕ)
        → IsPaging p → FitPages p t → Occupies p m t
        → ((h : ℕ) → Contains spare h → (h < limit) × (get m h ≡ None)) → IsDistinct nat_eq spare → length spare + len m ≡ limit
        → IsOrderOf p m limit (order_of (classes p) t spare) }
{}
