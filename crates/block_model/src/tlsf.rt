//! The free-list rule of TLSF (2004), with one list for each size below 16 words and 16 for each
//! power of two from there on: which list a block is in, and which list is searched first.
ghost use Rattle.std.specs.Prelude.{◌≡◌, ◌^◌, ◌<◌, ◌≤◌};
ghost use Rattle.block_model.specs.Buckets.{tlsf_bucket, tlsf_rounded, tlsf_search};

/// How many free lists there are, for blocks of up to `2^23` words.
pub const COUNT: u32 = 336;

/// Returns the number of the TLSF list that holds the free blocks of `size` words. `size` must be at most 2^24. For
/// 2^24 the number is `COUNT`, which no list has.
pub fn bucket_of(size: u32) -> u32
    requires { size ≤ 2 ^ 24 }
    ensures { result ≡ tlsf_bucket size }
{
    if size < 16 {
        return size;
    }
    let power = size.ilog2();
    16 + 16 * (power - 4) + ((size - (1 << power)) >> (power - 4))
}

/// Returns the number of the TLSF list that a search for `need` words, at most 2^23, begins with: the first one in
/// which every block has at least `need` words.
pub fn search_for(need: u32) -> u32
    requires { need ≤ 2 ^ 23 }
    ensures { result ≡ tlsf_search need }
{
    bucket_of(rounded_up(need))
}

/// Returns the size whose TLSF list a search for `need` words, at most 2^23, begins with: `need`, raised so far that
/// every block in the list of the result has at least `need` words. The result is at most 2^24.
fn rounded_up(need: u32) -> u32
    requires { need ≤ 2 ^ 23 }
    ensures value { result ≡ tlsf_rounded need }
    ensures within { result ≤ 2 ^ 24 }
{
    if need < 16 {
        return need;
    }
    need + (1 << (need.ilog2() - 4)) - 1
}
