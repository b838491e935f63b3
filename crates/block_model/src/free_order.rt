//! Laws of the order in which free blocks are used. A `BlocksWithLists` is the blocks of a region with the
//! free list of each bucket. In the clauses `rule` is the free-list rule, `s` the blocks with their lists, and
//! `d` the need (at least two words) and the owner of a malloc. The functions do nothing; each contract is a law.
ghost use Rattle.std.specs.Prelude.{◌≡◌, ℕ, ◌^◌, ◌≤◌, Some};
ghost use Rattle.block_model.specs.Buckets.{FreeLists, AreLawful};
ghost use Rattle.block_model.specs.FreeOrder.{AreListsOf, CarvesNext, BlocksWithLists, first_lists, lists_released};
ghost use Rattle.block_model.specs.Tiling.{Block, Carves, Demand, IsTiling, Serves, block_at, one_free_block, released};

/// Two mallocs of the same demand `d` that follow the lists of `s` take the same block, and leave
/// the same blocks and lists.
pub fn an_order_leaves_one_malloc()
    ensures { (rule : FreeLists) (s : BlocksWithLists) (d : Demand) (a b : ℕ) (one two : BlocksWithLists)
        → CarvesNext rule s d a one → CarvesNext rule s d b two → (a ≡ b) × (one ≡ two) }
{}

/// A malloc of the demand `d` can follow the lists of `s`, which are those of its blocks (`AreListsOf`),
/// if some free block `b` may serve its need (`Serves`).
pub fn a_malloc_can_follow_the_order()
    ensures { (rule : FreeLists) (count : ℕ) (s : BlocksWithLists) (d : Demand) (a : ℕ) (b : Block)
        → AreListsOf rule count s → block_at s.blocks a ≡ Some b → Serves rule d.need b → (place : ℕ) × (new : BlocksWithLists) × CarvesNext rule s d place new }
{}

/// A malloc of the demand `d` that follows the lists of `s`, which are those of its blocks
/// (`AreListsOf`), is a malloc of the model (`Carves`): of the free blocks that may serve the need, it
/// splits one of the lowest bucket, the one at `place`.
pub fn a_malloc_in_order_is_a_malloc()
    ensures { (rule : FreeLists) (count : ℕ) (s new : BlocksWithLists) (d : Demand) (place : ℕ)
        → AreListsOf rule count s → CarvesNext rule s d place new → Carves rule s.blocks d place new.blocks }
{}

/// The lists contain exactly the free blocks, each in the list of its bucket (`AreListsOf`). This is so in a
/// region of one free block, of at least two words. It still is after a malloc of the demand `d`, and after a
/// free of the used block at `place`, that follow the lists. The rule is lawful (`AreLawful`) with `count`
/// lists; the region has `words` words, at most 2^23.
pub fn lists_stay_lists_of_the_blocks()
    ensures opening { (rule : FreeLists) (count words : ℕ) → AreLawful rule count → 2 ≤ words → words ≤ 2 ^ 23
        → AreListsOf rule count (record { blocks = one_free_block words; lists = first_lists rule count words }) }
    ensures malloc { (rule : FreeLists) (count words : ℕ) (old new : BlocksWithLists) (d : Demand) (place : ℕ)
        → AreLawful rule count → words ≤ 2 ^ 23 → 2 ≤ d.need → IsTiling words old.blocks → AreListsOf rule count old
        → CarvesNext rule old d place new → AreListsOf rule count new }
    ensures free { (rule : FreeLists) (count words : ℕ) (s : BlocksWithLists) (place : ℕ) (b : Block) (h : ℕ)
        → AreLawful rule count → words ≤ 2 ^ 23 → IsTiling words s.blocks → AreListsOf rule count s → block_at s.blocks place ≡ Some b → b.owner ≡ Some h
        → AreListsOf rule count (record { blocks = released s.blocks place; lists = lists_released rule s place }) }
{}
