//! Laws of a program with a budget, such as a cache: how many pages are enough, and how many are needed. `p` holds
//! the pages and the classes. An object of n bytes costs `cost n`, and `price c` is at most what an object of
//! class `c` costs.
ghost use Rattle.std.specs.Prelude.{ℕ, ◌≡◌, ◌<◌, ◌≤◌, sum_by};
ghost use Rattle.std.specs.List.{range_with_len};
ghost use Rattle.std.specs.FinMap.{empty};
ghost use Rattle.page_model.specs.Paging.{EveryBoundIsOne, IsPaging, Paging, class_for, classes};
ghost use Rattle.sizing.specs.Certificates.{AreBudgetLevels};
ghost use Rattle.sizing.specs.Checks.{with_pages};
ghost use Rattle.sizing.specs.Demands.{Affords, ArePrices, KeepsBudget};
ghost use Rattle.sizing.specs.Runs.{CanBeRefused, ServesMallocs, ServesResizes};

/// Whatever the bounds, no malloc of a program with the budget is refused for space (`mallocs`) if each class `i` has a
/// level `t` (`AreBudgetLevels`): at the prices a full page of any class costs at least `t`; and the budget, plus
/// `t - price c` (0 if negative) for each page of another class `c` that can be partly full, is less than `t` times
/// the pages, plus `price i`. With one page more no resize is either (`resizes`).
pub fn pages_for_a_budget_serve()
    ensures mallocs { (p : Paging) (cost price levels : ℕ → ℕ) (budget : ℕ) → IsPaging p → ArePrices p cost price
        → AreBudgetLevels p price budget levels → ServesMallocs p (KeepsBudget cost budget) }
    ensures resizes { (p : Paging) (cost price levels : ℕ → ℕ) (budget pages : ℕ) → IsPaging p → ArePrices p cost price
        → AreBudgetLevels (with_pages pages p) price budget levels → pages < p.pages → ServesResizes p (KeepsBudget cost budget) }
{}

/// If every bound is 1, and there are at least the most pages that the budget affords (`Affords`), however
/// they are divided among the classes, no malloc of a program with this budget is refused for space
/// (`mallocs`). With one page more no resize is either (`resizes`).
pub fn pages_that_a_budget_affords_serve()
    ensures mallocs { (p : Paging) (cost price : ℕ → ℕ) (budget : ℕ) → IsPaging p → EveryBoundIsOne p → ArePrices p cost price
        → ((pages : ℕ → ℕ) → Affords p price budget pages → sum_by pages (range_with_len 0 (classes p)) ≤ p.pages)
        → ServesMallocs p (KeepsBudget cost budget) }
    ensures resizes { (p : Paging) (cost price : ℕ → ℕ) (budget : ℕ) → IsPaging p → EveryBoundIsOne p → ArePrices p cost price
        → ((pages : ℕ → ℕ) → Affords p price budget pages → sum_by pages (range_with_len 0 (classes p)) < p.pages)
        → ServesResizes p (KeepsBudget cost budget) }
{}

/// Whatever the bounds, with fewer pages than the budget affords (`Affords`) some run within the budget, begun
/// without objects, has a malloc that is refused for space. This holds if each class `c` with one of the
/// afforded pages has an object, of `lengths c` bytes, that costs no more than the price.
pub fn fewer_pages_than_a_budget_affords_refuse()
    ensures { (p : Paging) (cost price lengths pages : ℕ → ℕ) (budget : ℕ) → IsPaging p
        → ((c : ℕ) → c < classes p → 0 < pages c → (class_for p (lengths c) ≡ c) × (cost (lengths c) ≤ price c))
        → Affords p price budget pages → p.pages < sum_by pages (range_with_len 0 (classes p))
        → CanBeRefused p (KeepsBudget cost budget) empty }
{}
