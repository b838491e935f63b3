//! Laws of tilings, which show that the definitions mean what they should. A tiling is a list of
//! blocks of at least two words that fill a region without a gap, no two free ones side by side. In
//! the clauses `rule` is the free-list rule, `d` the need (at least two words) and the owner of a
//! malloc, `place` the address of a block. The functions do nothing; each contract is a law.
ghost use Rattle.std.specs.Prelude.{◌≡◌, ◌≢◌, ℕ, ◌⊎◌, ◌+◌, ◌^◌, ◌<◌, ◌≤◌, List, Some, length, slice_index};
ghost use Rattle.block_model.specs.Buckets.{FreeLists, AreLawful, tlsf, half_fit};
ghost use Rattle.block_model.specs.ReadWords.{HaveTags, read_blocks, tiling_words};
ghost use Rattle.block_model.specs.Tiling.{Block, Demand, IsTiling, Carves, IsCarvedTo, LacksBlock, StaysUsed, block_at, one_free_block, released};
ghost use Rattle.block_model.specs.Words.{AreTilingWords, HaveHeaders};

/// One free block that fills a region of `words` words, at least two, is a tiling.
pub fn one_block_is_a_tiling()
    ensures { (words : ℕ) → 2 ≤ words → IsTiling words (one_free_block words) }
{}

/// The blocks after a malloc of the demand `d` (`Carves`), `new`, are again a tiling of the region
/// of `words` words.
pub fn malloc_keeps_tiling()
    ensures { (rule : FreeLists) (words : ℕ) (old new : List Block) (d : Demand) (place : ℕ)
        → 2 ≤ d.need → IsTiling words old → Carves rule old d place new → IsTiling words new }
{}

/// The blocks after a free of the block at `place` (`released`) are again a tiling of the region of
/// `words` words.
pub fn free_keeps_tiling()
    ensures { (words : ℕ) (old : List Block) (place : ℕ) → IsTiling words old → IsTiling words (released old place) }
{}

/// The block that a malloc leaves at `place` has the words that the demand `d` needs, or one more,
/// and the owner that `d` names. This holds for every lawful free-list rule (`rule`) with `count`
/// lists, and a need and a region of at most 2^23 words.
pub fn malloc_gives_what_is_needed()
    ensures { (rule : FreeLists) (count words : ℕ) (old new : List Block) (d : Demand) (place : ℕ)
        → AreLawful rule count → words ≤ 2 ^ 23 → 2 ≤ d.need → d.need ≤ 2 ^ 23 → IsTiling words old → Carves rule old d place new
        → IsCarvedTo new place d }
{}

/// A malloc that splits the block at `place`, and a free of that block, keep every other used
/// block, and make no other block used.
pub fn other_blocks_stay()
    ensures malloc { (rule : FreeLists) (words : ℕ) (old new : List Block) (d : Demand) (place : ℕ)
        → IsTiling words old → Carves rule old d place new → StaysUsed old place new }
    ensures free { (words : ℕ) (old : List Block) (place : ℕ) → IsTiling words old → StaysUsed old place (released old place) }
{}

/// The free-list rules of TLSF, with 336 lists, and of Half-Fit, with 24, are lawful (`AreLawful`)
/// for 2 to 2^23 words: a larger block is never in an earlier list, and a search finds only blocks
/// that are large enough.
pub fn free_lists_are_lawful()
    ensures tlsf { AreLawful tlsf 336 }
    ensures half_fit { AreLawful half_fit 24 }
{}

/// In every tiling `old`, a malloc of the demand `d` has a result in the model, or no free block
/// may serve its need (`LacksBlock`).
pub fn a_malloc_is_done_or_lacks_a_block()
    ensures { (rule : FreeLists) (words : ℕ) (old : List Block) (d : Demand) → IsTiling words old
        → ((place : ℕ) × (new : List Block) × Carves rule old d place new) ⊎ LacksBlock rule old d.need }
{}

/// Each tiling of a region of `count` words has words that represent it (`AreTilingWords`),
/// whatever contents its used blocks have. `content h i` is word `i` of the contents of owner `h`.
pub fn a_tiling_has_words()
    ensures { (content : ℕ → ℕ → ℕ) (count : ℕ) (blocks : List Block) → IsTiling count blocks
        → AreTilingWords content blocks (tiling_words content blocks 0) × (length (tiling_words content blocks 0) ≡ count) }
{}

/// The words of a region of `count` words, fewer than 2^31, determine its blocks (`read_blocks`).
/// The header of each block and the tag of each used one are enough; word 1 of a free block may be
/// any word.
pub fn the_words_show_the_blocks()
    ensures { (count : ℕ) (blocks : List Block) (words : List ℕ) → count < 2 ^ 31 → IsTiling count blocks
        → HaveHeaders words blocks 0 → HaveTags words blocks → read_blocks count words 0 count ≡ blocks }
{}

/// The used block `b` at `place` can get other contents, while every word outside of it stays. Then
/// the new words represent the same blocks. `content q i` is word `i` of the contents of owner `q`
/// before, `now q i` after; for the owner of every other block the two agree.
pub fn a_block_gets_other_contents()
    ensures { (content now : ℕ → ℕ → ℕ) (count : ℕ) (blocks : List Block) (words : List ℕ) (place : ℕ) (b : Block) (h : ℕ)
        → IsTiling count blocks → AreTilingWords content blocks words → length words ≡ count
        → block_at blocks place ≡ Some b → b.owner ≡ Some h
        → ((a : ℕ) (c : Block) (q : ℕ) → a ≢ place → block_at blocks a ≡ Some c → c.owner ≡ Some q → (i : ℕ) → now q i ≡ content q i)
        → (new : List ℕ) × AreTilingWords now blocks new × (length new ≡ count)
        × ((w : ℕ) → ((w < place) ⊎ (place + b.size ≤ w)) → slice_index new w ≡ slice_index words w) }
{}
