//! Makes the calls of a script on a manager: the heaps `c` (moving), `n` (non-moving), `t` (TLSF) and `h`
//! (Half-Fit). Each call of the manager is in a function that is not inlined, so that a profile shows it, and
//! resets the meter first. Such a function requires that the manager is open.
ghost use Rattle.std.specs.Prelude.{IsTrue};

use crate::generated;
use crate::script::{Line, Table};
use cf_base::Handle;
use cf_model::Manager;
use step_ledger::Meter;

/// For a profiler, makes an object of `bytes` bytes, and returns its handle; `None` if the manager refuses.
#[inline(never)]
fn malloc_call<H: Manager>(heap: &mut H, bytes: u32, meter: &mut Meter) -> Option<Handle>
    requires { IsTrue (H.state heap.old).is_open }
{
    meter.lap();
    heap.malloc(bytes, meter.steps()).ok()
}

/// For a profiler, frees the object h, and returns whether that succeeded.
#[inline(never)]
fn free_call<H: Manager>(heap: &mut H, h: Handle, meter: &mut Meter) -> bool
    requires { IsTrue (H.state heap.old).is_open }
{
    meter.lap();
    heap.free(h, meter.steps()).is_ok()
}

/// For a profiler, gives the object h the length `bytes`, and returns whether that succeeded.
#[inline(never)]
fn resize_call<H: Manager>(heap: &mut H, h: Handle, bytes: u32, meter: &mut Meter) -> bool
    requires { IsTrue (H.state heap.old).is_open }
{
    meter.lap();
    heap.resize(h, bytes, meter.steps()).is_ok()
}

/// For a profiler, writes these bytes into the object h from byte `at` on, and returns whether that succeeded.
#[inline(never)]
fn write_call<H: Manager>(heap: &mut H, h: Handle, at: u32, bytes: &[u8], meter: &mut Meter) -> bool
    requires { IsTrue (H.state heap.old).is_open }
{
    meter.lap();
    heap.write(h, at, bytes, meter.steps()).is_ok()
}

/// For a profiler, fills `out` from the object h from byte `at` on, and returns whether that succeeded.
#[inline(never)]
fn read_call<H: Manager>(heap: &H, h: Handle, at: u32, out: &mut [u8], meter: &mut Meter) -> bool
    requires { IsTrue (H.state heap.now).is_open }
{
    meter.lap();
    heap.read(h, at, out, meter.steps()).is_ok()
}

/// For a profiler, makes the call of a line, and returns whether it succeeded: false for a letter that is no call of a
/// manager, or if the heap is closed. `table` has the handle of each ID, which a malloc sets, and the bytes that are
/// written or read.
pub(crate) fn apply<H: Manager>(
    heap: &mut H,
    line: Line,
    table: &mut Table,
    meter: &mut Meter,
) -> bool {
    if !heap.is_open() {
        return false;
    }
    let h = table.handle(line.id);
    match line.op {
        b'm' => match malloc_call(heap, line.first, meter) {
            Some(made) => {
                table.name(line.id, made);
                true
            }
            None => false,
        },
        b'f' => free_call(heap, h, meter),
        b'z' => resize_call(heap, h, line.first, meter),
        b'w' => write_call(heap, h, line.first, table.bytes(line.second), meter),
        b'r' => read_call(heap, h, line.first, table.bytes(line.second), meter),
        b'g' => generated::calls(heap, line.first, table, meter),
        _ => false,
    }
}
