//! What the inner objects of an object are, computed from the object's length: how many parts, the
//! bytes of each, how many inner objects, how many of these need at most a given number of words,
//! and whether the spine fits a page. An object that fits a page is its own inner object; a longer
//! one has a spine and parts. `part_bytes`, at least 1, is the bytes of a whole part, the largest
//! object that fits a page.
ghost use Rattle.std.specs.Prelude.{◌≡◌, ◌<◌, ◌*◌, ◌↔◌, IsTrue, cond, count_by, length, nat_le};
ghost use Rattle.cf_base.specs.Classes.{need};
ghost use Rattle.large_objects.specs.LargeSteps.{FitsSpine};
ghost use Rattle.large_objects.specs.InnerObjects.{inner_lengths, part_count, part_length};

/// The number of parts of at most `part_bytes` bytes into which an object of `bytes` bytes is cut.
#[tactic(auto, using(crate::proofs::Cutting::parts_are))]
pub(crate) fn count_parts(bytes: u32, part_bytes: u32) -> u32
    requires { 0 < part_bytes }
    ensures { result ≡ part_count part_bytes bytes }
{
    bytes.div_ceil(part_bytes)
}

/// The length in bytes of part i, counted from 0, of an object of `bytes` bytes: `part_bytes`, or the rest for the
/// last part.
pub(crate) fn bytes_of_part(bytes: u32, part_bytes: u32, i: u32) -> u32
    requires some { 0 < part_bytes }
    requires below { i < part_count part_bytes bytes }
    ensures { result ≡ part_length part_bytes bytes i }
{
    part_bytes.min(bytes - part_bytes * i)
}

/// Returns true if an object of `bytes` bytes fits a page, or its spine does.
pub(crate) fn has_spine_that_fits(bytes: u32, part_bytes: u32) -> bool
    requires { 0 < part_bytes }
    ensures { IsTrue result ↔ FitsSpine part_bytes bytes }
{
    bytes <= part_bytes || 4 * count_parts(bytes, part_bytes) as u64 <= part_bytes as u64
}

/// The number of inner objects of an object of `bytes` bytes: one if it fits a page, else its parts and one
/// spine.
pub(crate) fn count_inner_objects(bytes: u32, part_bytes: u32) -> u64
    requires { 0 < part_bytes }
    ensures { result ≡ length (inner_lengths part_bytes bytes) }
{
    if bytes <= part_bytes {
        1
    } else {
        1 + count_parts(bytes, part_bytes) as u64
    }
}

/// Returns true if an inner object of `bytes` bytes needs at most `words` words, with its header.
fn is_within(bytes: u32, words: u32) -> bool
    ensures { result ≡ nat_le (need bytes) words }
{
    1 + (bytes as u64).div_ceil(8) <= words as u64
}

/// For counts of inner objects, `count` if `yes` is true, else 0.
fn count_if(count: u32, yes: bool) -> u64
    ensures { result ≡ count * cond yes 1 0 }
{
    if yes { count as u64 } else { 0 }
}

/// The number of the inner objects of an object of `bytes` bytes that need at most `words` words each, with
/// their header. The object or its spine must fit a page.
pub(crate) fn count_inner_objects_within(bytes: u32, part_bytes: u32, words: u32) -> u64
    requires some { 0 < part_bytes }
    requires fits { FitsSpine part_bytes bytes }
    ensures { result ≡ count_by (λ n. nat_le (need n) words) (inner_lengths part_bytes bytes) }
{
    if bytes <= part_bytes {
        return count_if(1, is_within(bytes, words));
    }
    let count = count_parts(bytes, part_bytes);
    let last = bytes - part_bytes * (count - 1);
    let spine = count_if(1, is_within(4 * count, words));
    let whole = count_if(count - 1, is_within(part_bytes, words));
    spine + (whole + count_if(1, is_within(last, words)))
}
