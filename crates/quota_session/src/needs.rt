//! `Needs`: the objects that one task declared with `need`, at most 64 entries. An entry is a number of objects
//! of one length in bytes; `admit` tests whether the task's quota is enough for them.
ghost use Rattle.std.specs.Prelude.{◌≡◌, ◌<◌, ◌≤◌, [], IsTrue, length, nat_lt};
ghost use Rattle.quota_model.specs.declared.results.Need.{Need as ANeed};
ghost use Rattle.quota_session.specs.Transcript.{one_need_more};

use quota_model::Need;
use std::marker::Model;

/// The most entries that a task can declare.
const MOST_ENTRIES: usize = 64;

/// The entries that one task declared with `need`: the first `count` of `entries`, at most 64. They
/// are stored in place, so that `need` allocates nothing.
#[derive(Drop)]
pub(crate) struct Needs {
    entries: [Need; MOST_ENTRIES],
    count: usize,
}

impl Model for Needs {
    ghost use Rattle.std.specs.Prelude.{◌≤◌, List, take};
    ghost use Rattle.std.specs.Coded.{coded_list};
    ghost use Rattle.quota_model.specs.contracts.Need as need;
    ghost use Rattle.quota_model.specs.declared.results.Need.{Need as ANeed};

    ghost Value = { List ANeed };

    ghost coded = { coded_list need.the_row.coded };

    ghost view = { λ n. take n.count n.entries };

    ghost invariant = { λ n. n.count ≤ 64 };
}

impl Needs {
    /// A task's needs, without entries.
    pub(crate) fn new() -> Needs
        ensures { result ≡ [] }
    {
        Needs {
            entries: [Need { bytes: 0, count: 0 }; MOST_ENTRIES],
            count: 0,
        }
    }

    /// A task's declared entries, the oldest first.
    pub(crate) fn entries(&self) -> &[Need]
        ensures value { result.now ≡ self.now }
        ensures few { length self.now ≤ 64 }
    {
        &self.entries[..self.count]
    }

    /// Adds an entry after those that a task declared, and returns true; if there are 64 already,
    /// changes nothing and returns false.
    pub(crate) fn push(&mut self, entry: Need) -> bool
        ensures room { result ≡ nat_lt (length self.old) 64 }
        ensures value { self.new ≡ one_need_more self.old entry }
    {
        if self.count == MOST_ENTRIES {
            return false;
        }
        self.entries[self.count] = entry;
        self.count += 1;
        true
    }
}
