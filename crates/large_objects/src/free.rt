//! Frees the inner objects of an object: the object itself if it fits a page, else its parts and then its
//! spine. `part_bytes`, at least 1, is the bytes of a whole part, the largest object that fits a page.
//! Each function requires that the manager is ready (`IsReadyInner`), that these inner objects are live, and
//! a count of steps of at most 2 ^ 62 (for one part, 2 ^ 63 - 68).
ghost use Rattle.std.specs.Prelude.{◌≡◌, ℕ, ◌+◌, ◌*◌, ◌<◌, ◌≤◌, ◌^◌, List, Some, length};
ghost use Rattle.std.specs.FinMap.{get};
ghost use Rattle.step_ledger.specs.Counting.{RoseAtMost};
ghost use Rattle.page_model.specs.Held.{objects};
ghost use Rattle.cf_model.specs.State.{paging_in};
ghost use Rattle.large_objects.specs.InnerCalls.{FreesInner, HasInner, IsReadyInner};
ghost use Rattle.large_objects.specs.Large.{named};
ghost use Rattle.large_objects.specs.LargeCosts.{ByCosts, handle_steps, inner_free_steps, object_free_steps, parts_free_steps};
ghost use Rattle.large_objects.specs.InnerObjects.{part_count};
ghost use Rattle.large_objects.specs.Shrinking.{HasInnerObjects, HasParts, ReleasesInner, ReleasesLong, Shrinks};

use crate::cut::count_parts;
use crate::inner_calls::release_inner;
use crate::spine::part_handle;
use cf_base::Handle;
use cf_model::Manager;
use step_ledger::Steps;

/// Frees all inner objects of the object h of `bytes` bytes: the object itself if it fits a page, else its
/// parts and then its spine.
pub(crate) fn release<H: Manager>(
    inner: &mut H,
    h: Handle,
    bytes: u32,
    part_bytes: u32,
    steps: &mut Steps,
)
    requires some { 0 < part_bytes }
    requires ready { IsReadyInner (H.state inner.old) }
    requires has { HasInnerObjects part_bytes bytes (H.state inner.old) h.0 }
    requires low { steps.old ≤ 2 ^ 62 }
    ensures step { ReleasesInner part_bytes bytes (H.state inner.old) h.0 (H.state inner.new) }
    ensures steps { ByCosts (H.state inner.old) H.most (λ c. RoseAtMost steps.old steps.new
        (object_free_steps c (paging_in (H.state inner.old)) part_bytes bytes)) }
{
    if bytes <= part_bytes {
        release_inner(inner, h, steps);
    } else {
        release_long(inner, h, bytes, part_bytes, steps);
    }
}

/// Frees the parts of an object of `bytes` bytes, which is longer than a page, and then its spine.
fn release_long<H: Manager>(
    inner: &mut H,
    spine: Handle,
    bytes: u32,
    part_bytes: u32,
    steps: &mut Steps,
)
    requires some { 0 < part_bytes }
    requires ready { IsReadyInner (H.state inner.old) }
    requires has { HasParts part_bytes bytes (objects (H.state inner.old).held) spine.0 }
    requires long { part_bytes < bytes }
    requires low { steps.old ≤ 2 ^ 62 }
    ensures step { ReleasesLong part_bytes bytes (H.state inner.old) spine.0 (H.state inner.new) }
    ensures steps { ByCosts (H.state inner.old) H.most (λ c. RoseAtMost steps.old steps.new
        (object_free_steps c (paging_in (H.state inner.old)) part_bytes bytes)) }
{
    release_parts(inner, spine, bytes, part_bytes, steps);
    release_inner(inner, spine, steps);
}

/// Frees all parts of an object of `bytes` bytes, which is longer than a page. Its spine stays, and
/// still holds the handles of the parts.
fn release_parts<H: Manager>(
    inner: &mut H,
    spine: Handle,
    bytes: u32,
    part_bytes: u32,
    steps: &mut Steps,
)
    requires some { 0 < part_bytes }
    requires ready { IsReadyInner (H.state inner.old) }
    requires has { HasParts part_bytes bytes (objects (H.state inner.old).held) spine.0 }
    requires long { part_bytes < bytes }
    requires low { steps.old ≤ 2 ^ 62 }
    ensures step { Shrinks part_bytes bytes (H.state inner.old) spine.0 (part_count part_bytes bytes) (H.state inner.new) }
    ensures few { RoseAtMost steps.old steps.new (2 ^ 62) }
    ensures steps { ByCosts (H.state inner.old) H.most (λ c. RoseAtMost steps.old steps.new
        (parts_free_steps c (paging_in (H.state inner.old)) part_bytes bytes)) }
{
    for i in 0..count_parts(bytes, part_bytes) {
        release_part(inner, spine, i, steps);
    }
}

/// Frees part i, counted from 0, of the long object whose spine is `spine`. Reads the part's handle
/// from the spine.
fn release_part<H: Manager>(inner: &mut H, spine: Handle, i: u32, steps: &mut Steps)
    requires ready { IsReadyInner (H.state inner.old) }
    requires has { HasInner (H.state inner.old) spine.0 (4 * i) 4 }
    requires live { HasInner (H.state inner.old) (named (objects (H.state inner.old).held) spine.0 i) 0 0 }
    requires low { steps.old + 68 ≤ 2 ^ 63 }
    ensures step { FreesInner (H.state inner.old) (named (objects (H.state inner.old).held) spine.0 i) (H.state inner.new) }
    ensures few { RoseAtMost steps.old steps.new (2 ^ 26) }
    ensures steps { ByCosts (H.state inner.old) H.most (λ c. (v : List ℕ)
        → get (objects (H.state inner.old).held) (named (objects (H.state inner.old).held) spine.0 i) ≡ Some v
        → RoseAtMost steps.old steps.new (handle_steps c i + inner_free_steps c (paging_in (H.state inner.old)) (length v))) }
{
    let part = part_handle(inner, spine, i, steps);
    release_inner(inner, part, steps);
}
