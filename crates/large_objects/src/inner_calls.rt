//! Calls that the manager under a heap of long objects (the inner manager, with its inner objects)
//! can't refuse: each function requires that there is room, or that the inner object is live and
//! has the bytes, that the manager is ready (`IsReadyInner`), and a count of steps of at most
//! 2 ^ 63. Clause `few` of each bounds its steps for every manager. Clause `steps` has the
//! exact steps of a read or write, and a closer bound for a malloc or free: from the manager's own
//! bounds, if it has some, and from the order, if it promises one.
ghost use Rattle.std.specs.Prelude.{◌≡◌, ℕ, ◌+◌, ◌^◌, ◌≤◌, List, Some, length, take, drop};
ghost use Rattle.std.specs.FinMap.{get};
ghost use Rattle.step_ledger.specs.Counting.{RoseAtMost};
ghost use Rattle.page_model.specs.Held.{objects};
ghost use Rattle.cf_model.specs.State.{paging_in};
ghost use Rattle.large_objects.specs.InnerCalls.{FreesInner, MakesOneInner, HasInner, HasInnerRoom, IsReadyInner, WritesInner};
ghost use Rattle.large_objects.specs.LargeCosts.{ByCosts, inner_free_steps, inner_malloc_steps};

use cf_base::Handle;
use cf_model::Manager;
use step_ledger::Steps;

/// Makes an inner object of `bytes` zero bytes, for which the inner manager has room, and returns
/// its handle.
pub(crate) fn make_inner<H: Manager>(inner: &mut H, bytes: u32, steps: &mut Steps) -> Handle
    requires ready { IsReadyInner (H.state inner.old) }
    requires room { HasInnerRoom (H.state inner.old) bytes }
    requires low { steps.old ≤ 2 ^ 63 }
    ensures step { MakesOneInner (H.state inner.old) result.0 bytes (H.state inner.new) }
    ensures few { RoseAtMost steps.old steps.new 64 }
    ensures steps { ByCosts (H.state inner.old) H.most (λ c. RoseAtMost steps.old steps.new
        (inner_malloc_steps c (paging_in (H.state inner.old)) bytes)) }
{
    match inner.malloc(bytes, steps) {
        Ok(object) => object,
        Err(_) => unreachable!(),
    }
}

/// Writes `bytes` into the live inner object `object`, from its byte `at` on.
pub(crate) fn write_inner<H: Manager>(
    inner: &mut H,
    object: Handle,
    at: u32,
    bytes: &[u8],
    steps: &mut Steps,
)
    requires ready { IsReadyInner (H.state inner.old) }
    requires has { HasInner (H.state inner.old) object.0 at (length bytes.now) }
    requires low { steps.old ≤ 2 ^ 63 }
    ensures step { WritesInner (H.state inner.old) object.0 at bytes.now (H.state inner.new) }
    ensures few { RoseAtMost steps.old steps.new (64 + length bytes.now) }
    ensures steps { ByCosts (H.state inner.old) H.most (λ c. steps.new ≡ steps.old + c.access at (length bytes.now)) }
{
    let _ = inner.write(object, at, bytes, steps);
}

/// Fills `out` with bytes of the live inner object `object`, from its byte `at` on.
pub(crate) fn read_inner<H: Manager>(
    inner: &H,
    object: Handle,
    at: u32,
    out: &mut [u8],
    steps: &mut Steps,
)
    requires ready { IsReadyInner (H.state inner.now) }
    requires has { HasInner (H.state inner.now) object.0 at (length out.old) }
    requires low { steps.old ≤ 2 ^ 63 }
    ensures value { (v : List ℕ) → get (objects (H.state inner.now).held) object.0 ≡ Some v → out.new ≡ take (length out.old) (drop at v) }
    ensures few { RoseAtMost steps.old steps.new (64 + length out.old) }
    ensures steps { ByCosts (H.state inner.now) H.most (λ c. steps.new ≡ steps.old + c.access at (length out.old)) }
{
    let _ = inner.read(object, at, out, steps);
}

/// Frees the live inner object `object`.
pub(crate) fn release_inner<H: Manager>(inner: &mut H, object: Handle, steps: &mut Steps)
    requires ready { IsReadyInner (H.state inner.old) }
    requires live { HasInner (H.state inner.old) object.0 0 0 }
    requires low { steps.old ≤ 2 ^ 63 }
    ensures step { FreesInner (H.state inner.old) object.0 (H.state inner.new) }
    ensures few { RoseAtMost steps.old steps.new (2 ^ 25) }
    ensures steps { ByCosts (H.state inner.old) H.most (λ c. (v : List ℕ) → get (objects (H.state inner.old).held) object.0 ≡ Some v
        → RoseAtMost steps.old steps.new (inner_free_steps c (paging_in (H.state inner.old)) (length v))) }
{
    let _ = inner.free(object, steps);
}
