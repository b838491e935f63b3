//! Laws that bound the steps of a carve (finding and splitting a free block) and of a release
//! (clearing and coalescing a block), whatever the blocks are. The functions do nothing; each
//! contract is a law.
ghost use Rattle.std.specs.Prelude.{ℕ, ◌+◌, ◌≤◌, List, Option, None};
ghost use Rattle.block_model.specs.Buckets.{FreeLists};
ghost use Rattle.block_model.specs.Costs.{carve_steps, find_steps, release_steps};
ghost use Rattle.block_model.specs.Tiling.{Block, size_at};

/// A carve, which is the search for a free block for `need` words and its split, takes at most 23
/// steps. A search that finds no block takes at most 2. This holds for every free-list rule
/// (`rule`), whatever the blocks and words are.
pub fn a_carve_has_a_bound()
    ensures carve { (rule : FreeLists) (count : ℕ) (words : List ℕ) (old : List Block) (need : ℕ) (place : Option ℕ) (new : List Block)
        → carve_steps rule count words old need place new ≤ 23 }
    ensures none { (rule : FreeLists) (count : ℕ) (blocks : List Block) (need : ℕ) → find_steps rule count blocks need None ≤ 2 }
{}

/// A release of the block at `place` takes at most 37 steps, plus one for each word of the block.
/// The block becomes free, is cleared, and joins its free neighbours. `old` are the blocks before
/// the release, `new` those after it.
pub fn a_release_has_a_bound()
    ensures { (rule : FreeLists) (words : List ℕ) (old : List Block) (place : ℕ) (new : List Block)
        → release_steps rule words old place new ≤ 37 + size_at old place }
{}
