//! The free-list rule of Half-Fit (1995), with one list for each power of two: which list a block
//! is in, and which is searched first.
ghost use Rattle.std.specs.Prelude.{◌≡◌, ◌^◌, ◌<◌, ◌≤◌};
ghost use Rattle.block_model.specs.Buckets.{half_fit_bucket, half_fit_search};

/// How many free lists there are, for blocks of up to `2^23` words.
pub const COUNT: u32 = 24;

/// Returns the number of the Half-Fit list that holds the free blocks of `size` words, at least one. From 2^24 words on
/// the number is `COUNT` or more, which no list has.
pub fn bucket_of(size: u32) -> u32
    requires { 1 ≤ size }
    ensures { result ≡ half_fit_bucket size }
{
    size.ilog2()
}

/// Returns the number of the Half-Fit list that a search for `need` words begins with: the first one in which every
/// block has at least `need` words. For more than 2^23 words the number is `COUNT` or more, which no list has.
pub fn search_for(need: u32) -> u32
    ensures { result ≡ half_fit_search need }
{
    if need <= 1 {
        return 0;
    }
    (need - 1).ilog2() + 1
}
