//! Opening every manager of a list with the same settings, for mode `compare`.
ghost use Rattle.std.specs.Prelude.{OnOk, OnErr};
ghost use Rattle.cf_model.specs.Loops.{Opens, Pairwise, Stops};
ghost use Rattle.cf_model.specs.Ordered.{KeepsPromise};
ghost use Rattle.cf_model.specs.Steps.{IsClosed};

use crate::manager::Manager;
use cf_base::{OutOfMemory, Settings};

/// Opens each manager, in order, with these settings. At `OutOfMemory` the manager that could not
/// open is closed, those before it are open and empty, and those after it are unchanged. A manager
/// that promised an order promises one afterwards, open or closed.
pub fn open_all<H: Manager>(managers: &mut Vec<H>, s: &Settings) -> Result<(), OutOfMemory>
    ensures ok { OnOk result (Pairwise (λ old new. Opens s.now (H.state old) (H.state new)) managers.old.items managers.new.items) }
    ensures err { OnErr result (Stops (λ old new. Opens s.now (H.state old) (H.state new))
        (λ old new. IsClosed (H.state old) (H.state new)) managers.old.items managers.new.items) }
    ensures promise { Pairwise (λ old new. KeepsPromise (H.state old) (H.state new)) managers.old.items managers.new.items }
{
    for i in 0..managers.len() {
        open_one(&mut managers[i], s)?;
    }
    Ok(())
}

/// Opens one manager with these settings. At `OutOfMemory` it is closed. If it promised an order,
/// it promises one afterwards, open or closed.
fn open_one<H: Manager>(manager: &mut H, s: &Settings) -> Result<(), OutOfMemory>
    ensures ok { OnOk result (Opens s.now (H.state manager.old) (H.state manager.new)) }
    ensures err { OnErr result (IsClosed (H.state manager.old) (H.state manager.new)) }
    ensures promise { KeepsPromise (H.state manager.old) (H.state manager.new) }
{
    manager.open_heap(s)
}
