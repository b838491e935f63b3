//! Clears or moves the next words of a pending job's slot; and returns how many of them the next
//! slice does: the quantum, or all words left if they are fewer. These words, and the places to
//! which words move, must lie in the region, which has less than 2^32 words.
ghost use Rattle.std.specs.Prelude.{◌≡◌, ◌+◌, ◌-◌, ◌^◌, ◌<◌, ◌≤◌, length, min};
ghost use Rattle.page_model.specs.Image.{Clears, IsDisjoint, MovesWords};
ghost use Rattle.step_ledger.specs.Counting.{RoseBy};

use region::Region;
use slice_model::JobSlot;
use step_ledger::Steps;

/// The number of words that the next slice of a job clears or moves, if the job has `size` words, of which
/// `done` are done: the quantum, or all words left if they are fewer.
pub fn words_of_slice(size: u32, done: u32, quantum: u32) -> u32
    requires { done ≤ size }
    ensures { result ≡ min quantum (size - done) }
{
    quantum.min(size - done)
}

/// Clears the next `n` words of the job's slot `k`, after the `k.done` words that were cleared before. Costs a
/// step for each.
pub fn clear_next(region: &mut Region, k: JobSlot, n: u32, steps: &mut Steps)
    requires small { length region.old < 2 ^ 32 }
    requires within { k.address + k.done + n ≤ length region.old }
    ensures words { Clears region.old region.new (record { from = k.address + k.done; count = n }) }
    ensures len { length region.new ≡ length region.old }
    ensures steps { RoseBy steps.old steps.new n }
{
    region.clear(k.address + k.done, n, steps);
}

/// Moves the next `n` words of the job's slot `k`, after the `k.done` words that were moved before,
/// to the same places in the slot at `to`, and leaves zeros in their place in slot `k`. These words
/// and their new places must not overlap. Costs a step for each.
pub fn move_next(region: &mut Region, k: JobSlot, to: u32, n: u32, steps: &mut Steps)
    requires small { length region.old < 2 ^ 32 }
    requires source { k.address + k.done + n ≤ length region.old }
    requires target { to + k.done + n ≤ length region.old }
    requires apart { IsDisjoint (k.address + k.done) n (to + k.done) n }
    ensures words { MovesWords region.old region.new (record { from = k.address + k.done; count = n }) (to + k.done) }
    ensures len { length region.new ≡ length region.old }
    ensures steps { RoseBy steps.old steps.new n }
{
    region.move_words(k.address + k.done, to + k.done, n, steps);
}
