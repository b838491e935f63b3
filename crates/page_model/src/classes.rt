//! Laws of the sizes of slots, the class of a request, and the addresses of slots. In the clauses
//! `p` holds the pages and the classes; a class `c` is the index of its slot size. Most clauses
//! require `IsPaging p`: the slot sizes rise to the page, and each class has a bound of at least 1.
ghost use Rattle.std.specs.Prelude.{ℕ, ◌≡◌, ◌*◌, ◌/◌, ◌%◌, ◌<◌, ◌≤◌, IsTrue, List, None, Some, length, slice_index};
ghost use Rattle.cf_base.specs.Classes.{class_of, need, sizes};
ghost use Rattle.cf_base.specs.Limits.{is_page_size};
ghost use Rattle.cf_base.specs.Settings.{Profile};
ghost use Rattle.cf_base.specs.declared.kind.Layout.{Layout};
ghost use Rattle.cf_base.specs.declared.kind.Layout.TheVariants.{Blocks};
ghost use Rattle.page_model.specs.Frames.{AreBlocks};
ghost use Rattle.page_model.specs.Paging.{EveryBoundIsOne, IsPaging, Paging, address_of, class_for, classes, first_bounds, page_of, paging_of, slot_words, slots_of};
ghost use Rattle.page_model.specs.Arrangement.{IsSlotAt};

/// If the settings have a valid page size (`is_page_size`), the slot sizes of a page, in words or
/// in whole blocks (`layout`), rise from at least 4 words to the page, and each class has a bound
/// of at least 1 (`IsPaging`). `first`: each class has the bound k of the settings `s`, at least 1.
/// `bounded`: the classes have any `bounds` of at least 1.
pub fn slot_sizes_rise()
    ensures first { (s : Profile) (layout : Layout) → IsTrue (is_page_size s.page_words) → 1 ≤ s.k
        → IsPaging (paging_of s layout (first_bounds s layout)) }
    ensures bounded { (s : Profile) (layout : Layout) (bounds : List ℕ)
        → IsTrue (is_page_size s.page_words)
        → length bounds ≡ length (sizes s.page_words layout)
        → ((c : ℕ) → c < length bounds → 1 ≤ slice_index bounds c)
        → IsPaging (paging_of s layout bounds) }
{}

/// If k is 1 in the settings `s`, every class has the bound 1 (`ones`). If the sizes are in blocks
/// of four words, and the page size is valid, pages and slots are whole blocks (`blocks`). A page
/// has at most one slot of class `c` for every four words (`few`).
pub fn slots_are_few_and_in_blocks()
    ensures ones { (s : Profile) (layout : Layout) → s.k ≡ 1
        → EveryBoundIsOne (paging_of s layout (first_bounds s layout)) }
    ensures blocks { (s : Profile) (bounds : List ℕ) → IsTrue (is_page_size s.page_words)
        → AreBlocks (paging_of s Blocks bounds) }
    ensures few { (p : Paging) (c : ℕ) → IsPaging p → c < classes p
        → 4 * slots_of p c ≤ p.page_words }
{}

/// A request of `n` bytes that fits a page has a class (`fits`): the least one whose slots hold it
/// (`holds`, `least`). `class_of` returns it (`known`), or none for a request that doesn't fit a
/// page (`none`).
pub fn a_class_holds_its_requests()
    ensures fits { (p : Paging) (n : ℕ) → IsPaging p → need n ≤ p.page_words
        → class_for p n < classes p }
    ensures holds { (p : Paging) (n : ℕ) → IsPaging p → class_for p n < classes p
        → need n ≤ slot_words p (class_for p n) }
    ensures least { (p : Paging) (n c : ℕ) → IsPaging p → c < class_for p n
        → slot_words p c < need n }
    ensures known { (p : Paging) (n : ℕ) → IsPaging p → class_for p n < classes p
        → class_of p.sizes n ≡ Some (class_for p n) }
    ensures none { (p : Paging) (n : ℕ) → IsPaging p → p.page_words < need n
        → class_of p.sizes n ≡ None }
{}

/// A slot of class `c` has an address, by its page and its number on the page (`address_of`). The
/// page and the number follow from the address (`slot`), and each address of a slot is made so
/// (`address`). `p` holds the pages and the classes.
pub fn slots_have_addresses()
    ensures slot { (p : Paging) (c page slot : ℕ) → IsPaging p → c < classes p
        → page < p.pages → slot < slots_of p c
        → IsSlotAt p c (address_of p c page slot)
        × (page_of p (address_of p c page slot) ≡ page)
        × (address_of p c page slot % p.page_words / slot_words p c ≡ slot) }
    ensures address { (p : Paging) (c a : ℕ) → IsPaging p → IsSlotAt p c a
        → (a ≡ address_of p c (page_of p a) (a % p.page_words / slot_words p c))
        × (a % p.page_words / slot_words p c < slots_of p c) }
{}
