//! What a session stores of its sixteen tasks: the ids and the declared needs of each, and the present task,
//! for which commands that name no task act.
ghost use Rattle.std.specs.Prelude.{◌≡◌, IfOk, [], replicate};
ghost use Rattle.std.specs.FinMap as map;
ghost use Rattle.quota_session.specs.Layout.{tasks_session};
ghost use Rattle.quota_session.specs.QuotaRun.{first_session};

use crate::needs::Needs;
use cf_base::OutOfMemory;
use id_table::IdTable;
use std::alloc::Global;

/// The number of tasks.
pub(crate) const TASKS: u32 = 16;

/// For each task, by its number, the table of its live ids with their handles, and the needs that its `need`
/// lines declared; and the number of the present task, 0 to 15.
#[derive(Drop)]
pub(crate) struct Records {
    pub(crate) ids: Vec<IdTable>,
    pub(crate) needs: Vec<Needs>,
    pub(crate) present: u32,
}

impl Records {
    /// Records in which no id is live, no need is declared, and task 0 is present. Allocates all memory of a
    /// session, and fails with `OutOfMemory` if an allocation fails.
    pub(crate) fn new(alloc: Global) -> Result<Records, OutOfMemory>
        ensures { IfOk result (λ r. tasks_session r ≡ first_session) }
    {
        let ids = first_ids(alloc)?;
        let needs = first_needs(alloc)?;
        Ok(Records {
            ids,
            needs,
            present: 0,
        })
    }
}

/// Sixteen id tables without a live id, one for each task; `OutOfMemory` if an allocation fails.
fn first_ids(alloc: Global) -> Result<Vec<IdTable>, OutOfMemory>
    ensures { IfOk result (λ ids. ids.items ≡ replicate 16 map.empty) }
{
    let Ok(mut all) = Vec::with_capacity(alloc, TASKS as usize) else {
        return Err(OutOfMemory);
    };
    for _i in 0..TASKS {
        let ids = IdTable::new(alloc)?;
        let Ok(()) = all.push(ids) else {
            return Err(OutOfMemory);
        };
    }
    Ok(all)
}

/// Sixteen empty lists of needs, one for each task; `OutOfMemory` if the allocation fails.
fn first_needs(alloc: Global) -> Result<Vec<Needs>, OutOfMemory>
    ensures { IfOk result (λ needs. needs.items ≡ replicate 16 []) }
{
    let Ok(mut all) = Vec::with_capacity(alloc, TASKS as usize) else {
        return Err(OutOfMemory);
    };
    for _i in 0..TASKS {
        let Ok(()) = all.push(Needs::new()) else {
            return Err(OutOfMemory);
        };
    }
    Ok(all)
}
