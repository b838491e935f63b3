//! `TlsfBuckets`: the free lists of TLSF (2004), as a rule for the blocks of `tag_blocks`.
ghost use Rattle.block_model.specs.Buckets.{tlsf as tlsf_lists};
ghost use Rattle.block_model.proofs.CallerLemmas.{tlsf_lawful};

use block_model::tlsf;
use tag_blocks::Buckets;

/// The free-list rule of TLSF (2004): a list for each size below 16 words, and 16 lists for each
/// power of two from there on, each for an equal range of sizes. A request is rounded up before the
/// search, so that every block of the first list that is searched is large enough.
#[derive(Drop)]
pub struct TlsfBuckets;

impl Buckets for TlsfBuckets {
    /// How many free lists TLSF has, for blocks of up to `2^23` words.
    const COUNT: u32 = tlsf::COUNT;

    ghost COUNT = { 336 };

    ghost rule = { tlsf_lists };

    /// The number of the TLSF list for free blocks of `size` words.
    fn bucket(size: u32) -> u32 {
        tlsf::bucket_of(size)
    }

    /// The number of the first TLSF list that is searched for `need` words.
    fn search(need: u32) -> u32 {
        tlsf::search_for(need)
    }

    ghost lawful = { tlsf_lawful };
}
