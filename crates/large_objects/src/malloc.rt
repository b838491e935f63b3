//! Makes the inner objects of a new object: one if it fits a page, else a spine and its parts. `part_bytes`,
//! at least 1, is the bytes of a whole part, the largest object that fits a page. Each function requires
//! that the manager is ready (`IsReadyInner`) and has room, and a count of steps of at most 2 ^ 62 (for one
//! part, 2 ^ 63 - 64).
ghost use Rattle.std.specs.Prelude.{◌≡◌, ◌+◌, ◌*◌, ◌<◌, ◌≤◌, ◌^◌};
ghost use Rattle.step_ledger.specs.Counting.{RoseAtMost};
ghost use Rattle.cf_model.specs.State.{paging_in};
ghost use Rattle.large_objects.specs.Growing.{GrowsInner, HasObjectRoom, MakesInner, NamesPart};
ghost use Rattle.large_objects.specs.InnerCalls.{HasInner, HasInnerRoom, IsReadyInner};
ghost use Rattle.large_objects.specs.InnerObjects.{part_count};
ghost use Rattle.large_objects.specs.LargeCosts.{ByCosts, handle_steps, inner_malloc_steps, object_malloc_steps};

use crate::cut::{bytes_of_part, count_parts};
use crate::inner_calls::{make_inner, write_inner};
use cf_base::Handle;
use cf_model::Manager;
use step_ledger::Steps;

/// Makes a long or short object of `bytes` zero bytes, for which the manager has room, and returns its handle. The
/// object is one inner object if it fits a page, else a spine and its parts.
pub(crate) fn make<H: Manager>(
    inner: &mut H,
    bytes: u32,
    part_bytes: u32,
    steps: &mut Steps,
) -> Handle
    requires some { 0 < part_bytes }
    requires room { HasObjectRoom part_bytes bytes (H.state inner.old) }
    requires low { steps.old ≤ 2 ^ 62 }
    ensures step { MakesInner part_bytes bytes (H.state inner.old) result.0 (H.state inner.new) }
    ensures steps { ByCosts (H.state inner.old) H.most (λ c. RoseAtMost steps.old steps.new
        (object_malloc_steps c (paging_in (H.state inner.old)) part_bytes bytes)) }
{
    if bytes <= part_bytes {
        return make_inner(inner, bytes, steps);
    }
    make_long(inner, bytes, part_bytes, steps)
}

/// Makes the spine and the parts of an object of `bytes` zero bytes, which is longer than a page,
/// and returns the spine's handle. The manager must have room for them.
fn make_long<H: Manager>(inner: &mut H, bytes: u32, part_bytes: u32, steps: &mut Steps) -> Handle
    requires some { 0 < part_bytes }
    requires long { part_bytes < bytes }
    requires room { HasObjectRoom part_bytes bytes (H.state inner.old) }
    requires low { steps.old ≤ 2 ^ 62 }
    ensures step { GrowsInner part_bytes bytes (H.state inner.old) result.0 (part_count part_bytes bytes) (H.state inner.new) }
    ensures steps { ByCosts (H.state inner.old) H.most (λ c. RoseAtMost steps.old steps.new
        (object_malloc_steps c (paging_in (H.state inner.old)) part_bytes bytes)) }
{
    let count = count_parts(bytes, part_bytes);
    let spine = make_inner(inner, 4 * count, steps);
    for i in 0..count {
        make_part(inner, spine, i, bytes_of_part(bytes, part_bytes, i), steps);
    }
    spine
}

/// Makes a part of `bytes` zero bytes, and writes its handle into place i of the live spine: the
/// four bytes from byte 4 i on, which the spine must have.
fn make_part<H: Manager>(inner: &mut H, spine: Handle, i: u32, bytes: u32, steps: &mut Steps)
    requires ready { IsReadyInner (H.state inner.old) }
    requires room { HasInnerRoom (H.state inner.old) bytes }
    requires has { HasInner (H.state inner.old) spine.0 (4 * i) 4 }
    requires fits { 4 * i < 2 ^ 32 }
    requires low { steps.old + 64 ≤ 2 ^ 63 }
    ensures step { NamesPart (H.state inner.old) spine.0 i bytes (H.state inner.new) }
    ensures few { RoseAtMost steps.old steps.new 132 }
    ensures steps { ByCosts (H.state inner.old) H.most (λ c. RoseAtMost steps.old steps.new
        (inner_malloc_steps c (paging_in (H.state inner.old)) bytes + handle_steps c i)) }
{
    let part = make_inner(inner, bytes, steps);
    write_inner(inner, spine, 4 * i, &part.0.to_le_bytes(), steps);
}
