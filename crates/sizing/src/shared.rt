//! What two modes of a program declare, counted by class: how many objects each has at most, and how many can stay
//! when the program goes from the one to the other. Needs must have at most 64 entries and 65,536 objects in all.
ghost use Rattle.std.specs.Prelude.{ℕ, ◌≡◌, ◌<◌, ◌≤◌, length, slice_index};
ghost use Rattle.page_model.specs.Paging.{IsPaging, classes};
ghost use Rattle.quota_model.specs.Admission.{declared, declared_in_all};
ghost use Rattle.sizing.specs.Certificates.{in_both};
ghost use Rattle.sizing.specs.Checks.{AreCounts, HasFew, common_entry, paging_with};
ghost use Rattle.sizing.specs.Demands.{count_in};

use crate::certificate::{ENTRIES, ModeNeeds};
use crate::count::count_between;
use crate::points::HeapClasses;
use quota_model::{CLASSES, Need};

/// By class: the most live objects of one mode (`before`), those of the mode after it (`after`), and how many can stay
/// when the program goes from the one to the other (`kept`).
#[derive(Drop)]
pub(crate) struct TwoModes {
    pub(crate) before: [u32; CLASSES],
    pub(crate) after: [u32; CLASSES],
    pub(crate) kept: [u32; CLASSES],
}

/// Counts by class the objects that `before` declares, those that `after` declares, and those that both declare: of
/// each length the smaller number.
pub(crate) fn two_modes(heap: &HeapClasses, before: &ModeNeeds, after: &ModeNeeds) -> TwoModes
    requires heap { IsPaging (paging_with 0 heap.now) }
    requires before { HasFew before.now }
    requires after { HasFew after.now }
    ensures { AreCounts (paging_with 0 heap.now) before.now.needs after.now.needs result }
{
    let both = needs_in_both(&before.needs, &after.needs);
    TwoModes {
        before: class_counts(heap, &before.needs),
        after: class_counts(heap, &after.needs),
        kept: class_counts(heap, &both),
    }
}

/// How many objects of each class the needs declare.
pub(crate) fn class_counts(heap: &HeapClasses, needs: &[Need]) -> [u32; CLASSES]
    requires heap { IsPaging (paging_with 0 heap.now) }
    requires few { length needs.now ≤ 64 }
    requires objects { declared_in_all needs.now ≤ 65536 }
    ensures { (c : ℕ) → c < classes (paging_with 0 heap.now) → slice_index result c ≡ count_in (paging_with 0 heap.now) needs.now c }
{
    let mut counts = [0; CLASSES];
    let mut below = 0;
    for c in 0..heap.sizes.len() {
        counts[c] = count_between(below, heap.sizes[c], needs) as u32;
        below = heap.sizes[c];
    }
    counts
}

/// The objects that `needs` and `others` both declare, of each length the smaller of the two numbers: the entries of
/// `needs`, with lower counts.
fn needs_in_both(needs: &[Need; ENTRIES], others: &[Need; ENTRIES]) -> [Need; ENTRIES]
    requires { declared_in_all needs.now ≤ 65536 }
    ensures both { result ≡ in_both needs.now others.now }
    ensures few { declared_in_all result ≤ 65536 }
{
    let mut both = *needs;
    for i in 0..ENTRIES {
        both[i] = entry_in_both(needs, others, i);
    }
    both
}

/// Entry i of `needs_in_both`: entry i of `needs`, but its count is at most what `others` declare of its length, less
/// what the later entries of `needs` declare of that length.
fn entry_in_both(needs: &[Need; ENTRIES], others: &[Need; ENTRIES], i: usize) -> Need
    requires { i < 64 }
    ensures { result ≡ common_entry needs.now others.now i }
{
    let entry = needs[i];
    let more = count_of(others, entry.bytes).saturating_sub(count_of(&needs[i + 1..], entry.bytes));
    Need {
        bytes: entry.bytes,
        count: (entry.count as u64).min(more) as u32,
    }
}

/// How many objects of `bytes` bytes the needs declare.
fn count_of(needs: &[Need], bytes: u32) -> u64
    requires few { length needs.now ≤ 64 }
    ensures { result ≡ declared needs.now bytes }
{
    needs
        .iter()
        .map(|entry| {
            if entry.bytes == bytes {
                entry.count as u64
            } else {
                0
            }
        })
        .sum()
}
