//! `HalfFitBuckets`: the free lists of Half-Fit (1995), as a rule for the blocks of `tag_blocks`.
ghost use Rattle.block_model.specs.Buckets.{half_fit as half_fit_lists};
ghost use Rattle.block_model.proofs.CallerLemmas.{half_fit_lawful};

use block_model::half_fit;
use tag_blocks::Buckets;

/// The free-list rule of Half-Fit (1995): a list for each power of two, for the blocks of at least
/// that many words and less than twice as many. The search for a block of `need` words begins at
/// the first list in which every block has at least `need` words.
#[derive(Drop)]
pub struct HalfFitBuckets;

impl Buckets for HalfFitBuckets {
    /// How many free lists Half-Fit has, for blocks of up to `2^23` words.
    const COUNT: u32 = half_fit::COUNT;

    ghost COUNT = { 24 };

    ghost rule = { half_fit_lists };

    /// The number of the Half-Fit list for free blocks of `size` words.
    fn bucket(size: u32) -> u32 {
        half_fit::bucket_of(size)
    }

    /// The number of the first Half-Fit list that is searched for `need` words.
    fn search(need: u32) -> u32 {
        half_fit::search_for(need)
    }

    ghost lawful = { half_fit_lawful };
}
