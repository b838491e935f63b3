//! What a session knows of its script so far: the live ids, and the counters that command `steps` prints.
ghost use Rattle.std.specs.Prelude.{◌≡◌, IfOk};
ghost use Rattle.cf_session.specs.Records.{session_of};
ghost use Rattle.run_model.specs.Sessions.{fresh_session};

use cf_base::OutOfMemory;
use id_table::{Counters, IdTable};
use std::alloc::Global;

/// The records of a session. `ids` maps each live id to its handle. `counters` has the step bound
/// of the last malloc, free or resize, how many objects moved into freed slots, and the words of
/// these slots.
#[derive(Drop)]
pub(crate) struct Records {
    pub(crate) ids: IdTable,
    pub(crate) counters: Counters,
}

impl Records {
    /// A session's records in which no id is live. Allocates the table of all ids; fails only if memory runs out.
    pub(crate) fn new(alloc: Global) -> Result<Records, OutOfMemory>
        ensures { IfOk result (λ r. session_of r ≡ fresh_session) }
    {
        Ok(Records {
            ids: IdTable::new(alloc)?,
            counters: Counters::new(),
        })
    }
}
