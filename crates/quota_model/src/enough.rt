//! Admission: the test whether a quota of pages is enough for the objects that a task declares, its `needs`.
ghost use Rattle.std.specs.Prelude.{◌≡◌, ◌+◌, ◌-◌, ◌^◌, ◌≤◌, ◌<◌, IfErr, IfOk, Some, length, nat_lt, position};
ghost use Rattle.std.specs.FinMap.{empty};
ghost use Rattle.cf_base.specs.Classes.{need, sizes};
ghost use Rattle.cf_base.specs.Settings.{profile_of};
ghost use Rattle.cf_base.specs.declared.kind.Layout.TheVariants.{Words};
ghost use Rattle.page_model.specs.Counts.{ceil_div};
ghost use Rattle.quota_model.specs.Layout.{IsPast};
ghost use Rattle.quota_model.specs.Admission.{CanBeAsked, IsAdmission, declared_in_all, first_refused_for_space, in_order, pages_needed_by};
ghost use Rattle.quota_model.specs.Refusals.{task_paging};

use crate::sizes::{CLASSES, class_at, fill_sizes, slots_at};
use crate::{Admission, Need};
use cf_base::{Layout, Settings, need_of};

/// Tests whether `quota` pages are enough for a task with the settings `s` that declares `needs`:
/// for each length, how many objects of that length it has at most at one time. There are at most 64
/// entries; those of the same length add up. Each class has the bound 1, whatever bound `s` has.
///
/// The result is `Size` with the first entry, even of count 0, whose length doesn't fit a page with a
/// header of 8 bytes, if there is one. Else it is `Proxies` if the counts sum to more than the proxies.
/// Else it is `Yes` if no malloc is refused for space as long as the task keeps to its needs. If one may
/// be, it is `No`: if the declared objects are allocated in order, malloc number `nth`, counted from 1,
/// is the first that is refused for space.
pub fn admit(s: &Settings, quota: u32, needs: &[Need]) -> Admission
    requires few { length needs.now ≤ 64 }
    ensures { IsAdmission (record { profile = profile_of s.now; quota = quota }) needs.now result }
{
    if let Some(entry) = first_large(s.page_words, needs) {
        return Admission::Size {
            entry: entry as u32,
        };
    }
    if count_in_all(needs) > s.proxies as u64 {
        return Admission::Proxies;
    }
    match pages_within(s, quota, needs) {
        Ok(_) => Admission::Yes,
        Err(nth) => Admission::No { nth },
    }
}

/// The index, from 0 on, of the first declared entry, even of count 0, whose length doesn't fit a page of `page_words`
/// words with a header of 8 bytes; none if there is no such entry.
pub fn first_large(page_words: u32, needs: &[Need]) -> Option<usize>
    ensures { result ≡ position (λ e. nat_lt page_words (need e.bytes)) needs.now }
{
    needs
        .iter()
        .position(|entry| page_words < need_of(entry.bytes))
}

/// How many objects, of any length, all entries of `needs`, at most 64, declare together.
pub fn count_in_all(needs: &[Need]) -> u64
    requires few { length needs.now ≤ 64 }
    ensures { result ≡ declared_in_all needs.now }
{
    needs.iter().map(|entry| entry.count as u64).sum()
}

/// How many pages, with `slots` slots each, `count` objects of one class need: the quotient, rounded up. `slots` is at
/// least 1, and `count` plus `slots` below 2^63.
pub fn pages_for(count: u64, slots: u64) -> u64
    requires some { 1 ≤ slots }
    requires few { count + slots < 2 ^ 63 }
    ensures { result ≡ ceil_div count slots }
{
    (count + (slots - 1)) / slots
}

/// For an admission, returns how many pages all objects need once `more` objects of a class are added. The objects so
/// far need `pages` pages, at most `quota`, and `had` of them are of that class, with `slots` slots to a page, 1 to
/// 4,096. `had` plus `more` is below 2^40, and `quota` below 2^32. If the pages for all exceed `quota`, fails with how
/// many of the added objects still fit.
fn pages_with(quota: u64, pages: u64, had: u64, more: u64, slots: u64) -> Result<u64, u64>
    requires some { 1 ≤ slots }
    requires low { slots ≤ 4096 }
    requires few { had + more < 2 ^ 40 }
    requires range { quota < 2 ^ 32 }
    requires counted { ceil_div had slots ≤ pages }
    requires enough { pages ≤ quota }
    ensures sum { IfOk result (λ sum. sum + ceil_div had slots
        ≡ pages + ceil_div (had + more) slots) }
    ensures within { IfOk result (λ sum. sum ≤ quota) }
    ensures past { IfErr result (λ fit. IsPast quota (pages - ceil_div had slots) had more slots fit) }
{
    let others = pages - pages_for(had, slots);
    let room = (quota - others) * slots;
    if room < had + more {
        return Err(room - had);
    }
    Ok(others + pages_for(had + more, slots))
}

/// For an admission, returns the number of pages that all declared objects need. If it exceeds `quota`, fails with the
/// number, counted from 1, of the first of their mallocs, in order, that is refused for space. The length of each
/// entry, even of count 0, must fit a page with a header, and the proxies be enough for all objects (`CanBeAsked`).
fn pages_within(s: &Settings, quota: u32, needs: &[Need]) -> Result<u32, u32>
    requires asked { CanBeAsked (profile_of s.now) needs.now }
    ensures pages { IfOk result (λ pages. pages ≡ pages_needed_by (task_paging (profile_of s.now)) (in_order needs.now)) }
    ensures within { IfOk result (λ pages. pages ≤ quota) }
    ensures short { IfErr result (λ nth. first_refused_for_space (record { profile = profile_of s.now; quota = quota }) empty 0 (in_order needs.now) ≡ Some nth) }
{
    let mut table = [0; CLASSES];
    let classes = fill_sizes(s.page_words, Layout::Words, &mut table);
    count_pages(s, quota, &table[..classes], needs)
}

/// For an admission, counts the pages that all declared objects need, by the words of a slot of each class
/// (`slot_sizes`). If they exceed `quota`, fails with the number, counted from 1, of the first of their mallocs, in
/// order, that is refused for space. The length of each entry, even of count 0, must fit a page with a header, and the
/// proxies be enough for all objects (`CanBeAsked`).
fn count_pages(s: &Settings, quota: u32, slot_sizes: &[u32], needs: &[Need]) -> Result<u32, u32>
    requires sized { slot_sizes.now ≡ sizes s.now.page_words Words }
    requires asked { CanBeAsked (profile_of s.now) needs.now }
    ensures pages { IfOk result (λ pages. pages ≡ pages_needed_by (task_paging (profile_of s.now)) (in_order needs.now)) }
    ensures within { IfOk result (λ pages. pages ≤ quota) }
    ensures short { IfErr result (λ nth. first_refused_for_space (record { profile = profile_of s.now; quota = quota }) empty 0 (in_order needs.now) ≡ Some nth) }
{
    let mut counts = [0u32; CLASSES];
    let mut pages = 0u64;
    let mut before = 0u32;
    'needs: for entry in needs {
        let class = class_at(s, slot_sizes, entry.bytes);
        let slots = slots_at(s, slot_sizes, class) as u64;
        let had = counts[class];
        match pages_with(quota as u64, pages, had as u64, entry.count as u64, slots) {
            Ok(sum) => pages = sum,
            Err(fit) => return Err(before + fit as u32 + 1),
        }
        counts[class] = had + entry.count;
        before += entry.count;
    }
    Ok(pages as u32)
}
