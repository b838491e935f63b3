//! Worked examples, in regions of 64 words: the result of each malloc and free by the definitions,
//! worked out by hand. The functions do nothing; each contract is a step of an example.
ghost use Rattle.std.specs.Prelude.{◌≡◌, ◌∷◌, []};
ghost use Rattle.block_model.specs.Buckets.{half_fit, tlsf};
ghost use Rattle.block_model.specs.Tiling.{Carves, LacksBlock, block_need, free_blocks, largest_free, one_free_block, released, used_blocks, used_words};
ghost use Rattle.block_model.specs.Worked.{free, used};

/// A malloc of 232 bytes takes 31 of 64 words, and 33 are left. One of 248 bytes needs 33 and is
/// refused: TLSF searches only lists in which every block is large enough, and the list of the
/// block of 33 words is also the list for blocks of 32. One of 240 bytes needs 32 and is served;
/// the word that is left stays with its block.
pub fn a_search_is_rounded_up()
    ensures needs { (block_need 232 ≡ 31) × (block_need 248 ≡ 33) × (block_need 240 ≡ 32) }
    ensures first { Carves tlsf (one_free_block 64) (record { need = 31; owner = 1 }) 0 (used 0 31 1 ∷ free 31 33 ∷ []) }
    ensures refused { LacksBlock tlsf (used 0 31 1 ∷ free 31 33 ∷ []) 33 }
    ensures second { Carves tlsf (used 0 31 1 ∷ free 31 33 ∷ []) (record { need = 32; owner = 2 }) 31 (used 0 31 1 ∷ used 31 33 2 ∷ []) }
{}

/// A malloc of 504 bytes needs 65 words, more than the region has, and TLSF refuses it. One of 488
/// bytes needs 63. One word would be left, too little for a block, so the object gets all 64.
pub fn a_remainder_of_a_word_stays()
    ensures needs { (block_need 504 ≡ 65) × (block_need 488 ≡ 63) }
    ensures refused { LacksBlock tlsf (one_free_block 64) 65 }
    ensures served { Carves tlsf (one_free_block 64) (record { need = 63; owner = 1 }) 0 (used 0 64 1 ∷ []) }
    ensures taken { used_words (used 0 64 1 ∷ []) ≡ 64 }
{}

/// A malloc of 256 bytes takes 34 of 64 words, and 30 are left, with TLSF and with Half-Fit. One of
/// 176 bytes needs 24: TLSF splits the block of 30 for it. Half-Fit refuses it, since it searches
/// only lists of blocks from 32 words on.
pub fn half_fit_refuses_what_tlsf_serves()
    ensures needs { (block_need 256 ≡ 34) × (block_need 176 ≡ 24) }
    ensures tlsf_first { Carves tlsf (one_free_block 64) (record { need = 34; owner = 1 }) 0 (used 0 34 1 ∷ free 34 30 ∷ []) }
    ensures half_fit_first { Carves half_fit (one_free_block 64) (record { need = 34; owner = 1 }) 0 (used 0 34 1 ∷ free 34 30 ∷ []) }
    ensures tlsf_second { Carves tlsf (used 0 34 1 ∷ free 34 30 ∷ []) (record { need = 24; owner = 2 }) 34 (used 0 34 1 ∷ used 34 24 2 ∷ free 58 6 ∷ []) }
    ensures half_fit_second { LacksBlock half_fit (used 0 34 1 ∷ free 34 30 ∷ []) 24 }
{}

/// A freed block is coalesced with its free neighbours, and not with a used one: without free
/// neighbours, with one before it, with one behind it, and between two. Last, the counts and the
/// largest free block of such regions.
pub fn free_neighbours_are_joined()
    ensures alone { released (used 0 31 1 ∷ used 31 33 2 ∷ []) 0 ≡ free 0 31 ∷ used 31 33 2 ∷ [] }
    ensures before { released (free 0 31 ∷ used 31 33 2 ∷ []) 31 ≡ one_free_block 64 }
    ensures behind { released (used 0 34 1 ∷ free 34 30 ∷ []) 0 ≡ one_free_block 64 }
    ensures between { released (free 0 20 ∷ used 20 14 1 ∷ free 34 30 ∷ []) 20 ≡ one_free_block 64 }
    ensures counts { (used_blocks (used 0 31 1 ∷ free 31 33 ∷ []) ≡ 1) × (free_blocks (used 0 31 1 ∷ free 31 33 ∷ []) ≡ 1) }
    ensures largest { (largest_free (used 0 31 1 ∷ free 31 33 ∷ []) ≡ 33) × (largest_free (one_free_block 64) ≡ 64) × (largest_free (used 0 64 1 ∷ []) ≡ 0) }
{}
