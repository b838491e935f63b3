//! Laws, by arithmetic alone, of how many pages the objects of one class may be on: `p` pages with
//! `n` objects, `m` slots to a page, at least one.
ghost use Rattle.std.specs.Prelude.{ℕ, ◌≡◌, ◌+◌, ◌/◌, ◌<◌, ◌≤◌, ◌↔◌, IsTrue};
ghost use Rattle.page_model.specs.Counts.{CanHold, can_hold, ceil_div, most_pages};

/// With no page of a class empty and at most one partly full, `n` objects, `m` to a page, can be on `p` pages if and
/// only if `p` is n / m, rounded up.
pub fn one_page_count_at_bound_one()
    ensures { (p n m : ℕ) → 0 < m → CanHold p n m 1 ↔ (p ≡ ceil_div n m) }
{}

/// With no page of a class empty and at most `k` partly full, `n` objects, `m` to a page, are on at most n / m + k pages,
/// where n / m is rounded down.
pub fn pages_are_within_the_bound()
    ensures { (p n m k : ℕ) → 0 < m → CanHold p n m k → p ≤ n / m + k }
{}

/// With no page of a class empty and at most `k` partly full, `n` objects, `m` to a page, can be on
/// `most_pages` pages, if `k` is at least 1 (`reached`), and on no greater number `p` (`greatest`).
pub fn most_pages_is_the_greatest()
    ensures reached { (n m k : ℕ) → 0 < m → 0 < k → CanHold (most_pages n m k) n m k }
    ensures greatest { (p n m k : ℕ) → 0 < m → CanHold p n m k → p ≤ most_pages n m k }
{}

/// `can_hold` is the test of `CanHold`: whether `n` objects can be on `p` pages of `m` slots, with
/// no page empty and at most `k` partly full.
pub fn can_hold_is_a_test()
    ensures { (p n m k : ℕ) → IsTrue (can_hold p n m k) ↔ CanHold p n m k }
{}
