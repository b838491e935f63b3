//! How many pages declared objects need, counted by the slot sizes of a page without a table of them. Objects that
//! with their header are larger than a page aren't counted. The functions require `needs` of at most 64 entries and
//! 65,536 objects in all.
ghost use Rattle.std.specs.Prelude.{◌≡◌, ◌*◌, ◌/◌, ◌<◌, ◌≤◌, ◌^◌, IsTrue, length, map};
ghost use Rattle.cf_base.specs.Classes.{sizes, sizes_from};
ghost use Rattle.cf_base.specs.Limits.{is_page_size};
ghost use Rattle.page_model.specs.Counts.{ceil_div};
ghost use Rattle.quota_model.specs.Admission.{declared_in_all};
ghost use Rattle.sizing.specs.Layout.{declared_between, pages_by_size};

use cf_base::{Layout, need_of};
use quota_model::{Need, pages_for};

/// How many pages all declared objects that fit a page need, with slots of this layout on pages of
/// `page_words` words. The number must be less than 2 ^ 32.
pub(crate) fn pages_of_needs(page_words: u32, layout: Layout, needs: &[Need]) -> u64
    requires page { IsTrue (is_page_size page_words) }
    requires few { length needs.now ≤ 64 }
    requires objects { declared_in_all needs.now ≤ 65536 }
    requires low { pages_by_size page_words 0 (sizes page_words layout) needs.now < 2 ^ 32 }
    ensures { result ≡ pages_by_size page_words 0 (sizes page_words layout) needs.now }
{
    match layout {
        Layout::Words => sum_over_sizes(1, 4, page_words, needs),
        Layout::Blocks => sum_over_sizes(4, 1, page_words / 4, needs),
    }
}

/// How many pages all declared objects that fit a page need, with slots of the sizes from `first` on, each 9/8 of the
/// one before, rounded up, and last `page`. Sizes are counted in units of `unit` words; all three are at least 1, and a
/// page has at most 16,384 words. The number of pages must be less than 2 ^ 32.
fn sum_over_sizes(unit: u32, first: u32, page: u32, needs: &[Need]) -> u64
    requires some { 1 ≤ first }
    requires unit { 1 ≤ unit }
    requires small { unit * page ≤ 16384 }
    requires page { 1 ≤ page }
    requires few { length needs.now ≤ 64 }
    requires objects { declared_in_all needs.now ≤ 65536 }
    requires low { pages_by_size (unit * page) 0 (map (λ s. unit * s) (sizes_from page first page)) needs.now < 2 ^ 32 }
    ensures { result ≡ pages_by_size (unit * page) 0 (map (λ s. unit * s) (sizes_from page first page)) needs.now }
{
    let mut pages = 0;
    let mut below = 0;
    let mut size = first;
    'sizes: while size < page {
        pages += pages_of_size(unit * page, below, unit * size, needs);
        below = unit * size;
        size = (9 * size).div_ceil(8);
    }
    pages + pages_of_size(unit * page, below, unit * page, needs)
}

/// How many pages, with slots of `slot` words, 1 to `page_words`, hold the declared objects that need
/// more than `below` words and at most `slot`.
fn pages_of_size(page_words: u32, below: u32, slot: u32, needs: &[Need]) -> u64
    requires some { 1 ≤ slot }
    requires within { slot ≤ page_words }
    requires few { length needs.now ≤ 64 }
    requires objects { declared_in_all needs.now ≤ 65536 }
    ensures { result ≡ ceil_div (declared_between below slot needs.now) (page_words / slot) }
{
    let slots = (page_words / slot) as u64;
    pages_for(count_between(below, slot, needs), slots)
}

/// How many of the declared objects need more than `below` words and at most `most`.
pub(crate) fn count_between(below: u32, most: u32, needs: &[Need]) -> u64
    requires few { length needs.now ≤ 64 }
    requires objects { declared_in_all needs.now ≤ 65536 }
    ensures count { result ≡ declared_between below most needs.now }
    ensures few { result ≤ 65536 }
{
    needs
        .iter()
        .map(|entry| {
            let words = need_of(entry.bytes);
            if below < words && words <= most {
                entry.count as u64
            } else {
                0
            }
        })
        .sum()
}
