//! The schedule of a source or sink in memory: which of its calls fail, and which move fewer bytes than they
//! could. Tests choose it.
ghost use Rattle.std.specs.Prelude.{◌≡◌, ◌≤◌};
ghost use Rattle.cf_io.specs.Schedules.{gone_well, gone_wrong, is_due, count_moved, planned};

use std::marker::Model;

/// Which calls of a source or sink fail, and how many bytes the others move at most. Calls are numbered from
/// 0. `fails` has the numbers of those that fail. `cuts[j]` is the most bytes that call j moves, where 0
/// counts as 1; a call past the end of `cuts` has no limit. `call` is the number of the next call, `faults`
/// how many calls failed; both saturate. `failed` is whether the last call failed.
#[derive(Drop)]
pub struct Schedule {
    cuts: Vec<usize>,
    fails: Vec<u64>,
    call: u64,
    faults: u64,
    failed: bool,
}

impl Model for Schedule {
    ghost use Rattle.cf_io.specs.Schedules.{Schedule as View};

    ghost Value = { View };

    ghost view = { λ s. record { cuts = s.cuts.items; fails = s.fails.items; call = s.call; faults = s.faults; failed = s.failed } };
}

impl Schedule {
    /// A schedule before its first call: the calls in `fails` fail, and `cuts` limits the bytes of
    /// the first calls.
    pub fn new(cuts: Vec<usize>, fails: Vec<u64>) -> Schedule
        ensures { result ≡ planned cuts.items fails.items }
    {
        Schedule {
            cuts,
            fails,
            call: 0,
            faults: 0,
            failed: false,
        }
    }

    /// Whether the next call of the source or sink is one that fails by the schedule.
    pub fn is_due(&self) -> bool
        ensures { result ≡ is_due self.now }
    {
        self.fails.contains(&self.call)
    }

    /// How many bytes the next call of the source or sink moves by the schedule, if n could be
    /// moved: at most its entry in `cuts`, where 0 counts as 1; without an entry all n.
    pub fn count_moved(&self, n: usize) -> usize
        ensures { result ≡ count_moved self.now n }
    {
        match self.cuts.get(self.call as usize) {
            Some(cut) => n.min((*cut).max(1)),
            None => n,
        }
    }

    /// Counts, in the schedule, a call of the source or sink that failed.
    pub fn go_wrong(&mut self)
        ensures grows { self.old.faults ≤ self.new.faults }
        ensures value { self.new ≡ gone_wrong self.old }
    {
        self.call = self.call.saturating_add(1);
        self.faults = self.faults.saturating_add(1);
        self.failed = true;
    }

    /// Counts, in the schedule, a call of the source or sink that did not fail.
    pub fn go_well(&mut self)
        ensures { self.new ≡ gone_well self.old }
    {
        self.call = self.call.saturating_add(1);
        self.failed = false;
    }
}
