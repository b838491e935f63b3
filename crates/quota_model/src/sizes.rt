//! The slot sizes of a page, in a table of fixed size that needs no allocation; and by such a table
//! the class of an object and the slots of a class on a page.
ghost use Rattle.std.specs.Prelude.{◌≡◌, ◌*◌, ◌≤◌, ◌<◌, IsTrue, length, map, take};
ghost use Rattle.cf_base.specs.Classes.{need, sizes, sizes_from};
ghost use Rattle.cf_base.specs.Limits.{is_page_size};
ghost use Rattle.cf_base.specs.Settings.{profile_of};
ghost use Rattle.cf_base.specs.declared.kind.Layout.TheVariants.{Words};
ghost use Rattle.page_model.specs.Paging.{class_for, slots_of};
ghost use Rattle.quota_model.specs.Refusals.{task_paging};

use cf_base::{Layout, Settings, class_in};

/// The most size classes that a heap has.
pub const CLASSES: usize = 67;

/// Writes into `table`, which has 67 entries, the slot sizes of this layout for pages of `page_words` words: in words,
/// in rising order. Returns how many there are. `page_words` is a power of two from 64 to 16,384.
pub fn fill_sizes(page_words: u32, layout: Layout, table: &mut [u32]) -> usize
    requires room { length table.old ≡ 67 }
    requires page { IsTrue (is_page_size page_words) }
    ensures within { result ≤ 67 }
    ensures sizes { take result table.new ≡ sizes page_words layout }
{
    match layout {
        Layout::Words => fill_rising(1, 4, page_words, table),
        Layout::Blocks => fill_rising(4, 1, page_words / 4, table),
    }
}

/// Writes into `table`, in words, the sizes from `first` up to `page`, each 9/8 of the one before, rounded up; the
/// last is `page`. `first` and `page` count units of `unit` words. Returns how many sizes there are. There must be at
/// most 67, the entries of `table`. `first` and `unit` are at least 1, and a page has at most 16,384 words.
fn fill_rising(unit: u32, first: u32, page: u32, table: &mut [u32]) -> usize
    requires room { length table.old ≡ 67 }
    requires some { 1 ≤ first }
    requires small { unit * page ≤ 16384 }
    requires unit { 1 ≤ unit }
    requires few { length (map (λ s. unit * s) (sizes_from page first page)) ≤ 67 }
    ensures within { result ≤ 67 }
    ensures sizes { take result table.new ≡ map (λ s. unit * s) (sizes_from page first page) }
{
    let mut count = 0;
    let mut size = first;
    'sizes: while size < page {
        table[count] = unit * size;
        count += 1;
        size = (9 * size).div_ceil(8);
    }
    table[count] = unit * page;
    count + 1
}

/// For `admit`, the class of an object of `bytes` bytes, which with its header must fit a page. `slot_sizes` has the
/// words of a slot of each class.
pub(crate) fn class_at(s: &Settings, slot_sizes: &[u32], bytes: u32) -> usize
    requires sized { slot_sizes.now ≡ sizes s.now.page_words Words }
    requires fits { need bytes ≤ s.now.page_words }
    ensures class { result ≡ class_for (task_paging (profile_of s.now)) bytes }
    ensures within { result < length slot_sizes.now }
    ensures few { length slot_sizes.now ≤ 67 }
{
    match class_in(slot_sizes, bytes) {
        Some(class) => class,
        // Not reached, since the object fits a page.
        None => 0,
    }
}

/// For `admit`, how many slots of class `class`, which must exist, a page has. `slot_sizes` has the words of a slot of
/// each class.
pub(crate) fn slots_at(s: &Settings, slot_sizes: &[u32], class: usize) -> u32
    requires sized { slot_sizes.now ≡ sizes s.now.page_words Words }
    requires within { class < length slot_sizes.now }
    ensures slots { result ≡ slots_of (task_paging (profile_of s.now)) class }
    ensures some { 1 ≤ result }
    ensures few { result ≤ 4096 }
{
    s.page_words / slot_sizes[class]
}
