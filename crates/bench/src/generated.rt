//! Runs the first commands of the generator with seed 1 (line `g` of the profiler's script) on a manager,
//! without a session and without printing replies. The manager must be open. Each command resets the
//! meter first.
ghost use Rattle.std.specs.Prelude.{IsTrue};

use crate::script::{NONE, Table};
use cf_model::Manager;
use script_reader::{CommandRef, Generator};
use step_ledger::Meter;

/// For a profiler, runs one generated command: a malloc, free, write, or read of 8 bytes. The manager stays open.
/// Returns whether the command succeeded. A command fails if the manager refuses it; a malloc also if its id has a
/// handle in `table`, each other one if its id has none. A malloc that succeeds sets the id's handle, and a free
/// removes the handle, even if the free fails.
fn call<H: Manager>(heap: &mut H, c: CommandRef, table: &mut Table, meter: &mut Meter) -> bool
    requires { IsTrue (H.state heap.old).is_open }
    ensures { IsTrue (H.state heap.new).is_open }
{
    meter.lap();
    let steps = meter.steps();
    match c {
        CommandRef::Malloc { id, bytes } => {
            let id = u32::from(id);
            if table.handle(id).0 != NONE {
                return false;
            }
            match heap.malloc(bytes, steps) {
                Ok(h) => {
                    table.name(id, h);
                    true
                }
                Err(_) => false,
            }
        }
        CommandRef::Free { id } => {
            let h = table.handle(u32::from(id));
            table.name(u32::from(id), cf_base::Handle(NONE));
            h.0 != NONE && heap.free(h, steps).is_ok()
        }
        CommandRef::Write { id, at, bytes } => {
            let h = table.handle(u32::from(id));
            h.0 != NONE && heap.write(h, at, bytes, steps).is_ok()
        }
        CommandRef::Read { id, at, len: _ } => {
            let h = table.handle(u32::from(id));
            let mut out = [0; 8];
            h.0 != NONE && heap.read(h, at, &mut out, steps).is_ok()
        }
        _ => false,
    }
}

/// For a profiler, runs the first `count` commands of the generator with seed 1, and returns whether any succeeded. Not
/// inlined, so that a profile shows it.
#[inline(never)]
pub(crate) fn calls<H: Manager>(
    heap: &mut H,
    count: u32,
    table: &mut Table,
    meter: &mut Meter,
) -> bool
    requires { IsTrue (H.state heap.old).is_open }
{
    let mut generator = Generator::new(1);
    let mut bytes = [0; 8];
    let mut served = false;
    for i in 0..count {
        let command = generator.next_ref(&mut bytes);
        served = call(heap, command, table, meter) || served;
    }
    served
}
