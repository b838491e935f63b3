//! Reads the handles of a long object's parts from its spine.
ghost use Rattle.std.specs.Prelude.{◌≡◌, ◌+◌, ◌*◌, ◌^◌, ◌≤◌};
ghost use Rattle.step_ledger.specs.Counting.{RoseAtMost};
ghost use Rattle.page_model.specs.Held.{objects};
ghost use Rattle.large_objects.specs.InnerCalls.{HasInner, IsReadyInner};
ghost use Rattle.large_objects.specs.Large.{named};
ghost use Rattle.large_objects.specs.LargeCosts.{ByCosts, handle_steps};

use crate::inner_calls::read_inner;
use cf_base::Handle;
use cf_model::Manager;
use step_ledger::Steps;

/// Returns the handle of part i, counted from 0, of the long object whose spine is `spine`. Reads
/// it from the spine's bytes: four from byte 4 i on, the least significant first. The manager must
/// be ready (`IsReadyInner`), the spine live, and the count of steps at most 2 ^ 63.
pub(crate) fn part_handle<H: Manager>(inner: &H, spine: Handle, i: u32, steps: &mut Steps) -> Handle
    requires ready { IsReadyInner (H.state inner.now) }
    requires has { HasInner (H.state inner.now) spine.0 (4 * i) 4 }
    requires low { steps.old ≤ 2 ^ 63 }
    ensures value { result.0 ≡ named (objects (H.state inner.now).held) spine.0 i }
    ensures few { RoseAtMost steps.old steps.new 68 }
    ensures steps { ByCosts (H.state inner.now) H.most (λ c. steps.new ≡ steps.old + handle_steps c i) }
{
    let mut bytes = [0; 4];
    read_inner(inner, spine, 4 * i, &mut bytes, steps);
    Handle(u32::from_le_bytes(bytes))
}
