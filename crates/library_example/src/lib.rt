//! Examples of callers in Rattle. This file: callers of managers; the contracts of `store` and
//! `read_and_free` are proved from those of `Manager` alone. `control_loop`: a caller of the sliced
//! heap.
#![tactic(auto)]

mod control_loop;

ghost use Rattle.std.specs.Prelude.{◌≡◌, [], ◌∷◌, IsTrue, IfErr, IfOk, IfSome, OnOk};
ghost use Rattle.std.specs.FinMap as map;
ghost use Rattle.page_model.specs.Held.{objects};
ghost use Rattle.cf_model.specs.Steps.{IsRefusedBy, StaysOpen};
ghost use Rattle.library_example.specs.Stored.{ReadsStart, HoldsOne, padded_to_176};

use cf_base::{AccessFault, Handle, Refusal, Settings};
use cf_model::Manager;
pub use control_loop::{Missed, next_frame};
use moving_heap::MovingHeap;
use std::alloc::Global;
use step_ledger::Meter;

/// An example: opens a moving heap of two pages of 512 bytes, with bound k = 1 and eight proxies,
/// and makes one object of 176 bytes, the bytes ca fe (hexadecimal) and then zeros. Returns the
/// heap and the object's handle, or `None` if out of memory.
pub fn first_object(rt: &HostRuntime, alloc: Global) -> Option<(MovingHeap, Handle)>
    ensures { IfSome result (λ r. HoldsOne r.0.state r.1.0 (0xca ∷ 0xfe ∷ [])) }
{
    let settings = Settings::check(2, 512, 1, 8).ok()?;
    let mut heap = MovingHeap::closed(alloc);
    heap.open_heap(&settings).ok()?;
    let object = store(&mut heap, b"\xca\xfe", &mut Meter::new(rt)).ok()?;
    Some((heap, object))
}

/// An example: makes an object of 176 bytes on any open manager, and writes `bytes` as its first
/// two; the others are zeros. Returns the object's handle, or the refusal of the malloc. Resets the
/// meter before each call.
pub fn store<M: Manager>(
    heap: &mut M,
    bytes: &[u8; 2],
    meter: &mut Meter,
) -> Result<Handle, Refusal>
    requires { IsTrue (M.state heap.old).is_open }
    ensures made { IfOk result (λ h. objects (M.state heap.new).held ≡ map.insert (objects (M.state heap.old).held) h.0 (padded_to_176 bytes.now)) }
    ensures refused { IfErr result (λ cause. IsRefusedBy (M.state heap.old) 176 cause) }
    ensures same { StaysOpen (M.state heap.old) (M.state heap.new) }
{
    meter.lap();
    let object = heap.malloc(176, meter.steps())?;
    meter.lap();
    let _ = heap.write(object, 0, bytes, meter.steps());
    Ok(object)
}

/// An example: reads the first two bytes of an object of any open manager, frees the object, and
/// returns the bytes. Fails if the handle is not live or the object has fewer than two bytes; then
/// the manager is unchanged (`refused`). Resets the meter before each call.
pub fn read_and_free<M: Manager>(
    heap: &mut M,
    object: Handle,
    meter: &mut Meter,
) -> Result<[u8; 2], AccessFault>
    requires { IsTrue (M.state heap.old).is_open }
    ensures read { ReadsStart (M.state heap.old) object.0 result }
    ensures freed { OnOk result (objects (M.state heap.new).held ≡ map.remove (objects (M.state heap.old).held) object.0) }
    ensures refused { IfErr result (λ cause. M.state heap.new ≡ M.state heap.old) }
    ensures same { StaysOpen (M.state heap.old) (M.state heap.new) }
{
    let mut bytes = [0; 2];
    meter.lap();
    heap.read(object, 0, &mut bytes, meter.steps())?;
    meter.lap();
    let _ = heap.free(object, meter.steps());
    Ok(bytes)
}
