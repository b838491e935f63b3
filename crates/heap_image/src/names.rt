//! `Names`: a `Namer` (which makes, writes and frees objects by ids) for a program that has no
//! session of a script.
ghost use Rattle.std.specs.Prelude.{◌≡◌, IfOk};
ghost use Rattle.id_table.specs.Sessions.{fresh_session};

use cf_base::{Handle, OutOfMemory};
use cf_model::{FREE_BOUND, MALLOC_BOUND, Manager};
use id_table::{Counters, IdTable, Namer};
use std::alloc::Global;
use std::marker::Model;
use std::rt::Memory;
use step_ledger::Meter;

/// The live ids of a program's objects with their handles, counters (the step bound of the last
/// malloc or free, the moves, and the words moved), and the meter that owns the count of steps.
#[derive(Drop)]
pub struct Names {
    ids: IdTable,
    counters: Counters,
    meter: Meter,
}

impl Model for Names {
    ghost use Rattle.id_table.specs.Sessions.{SessionState, session_code};

    ghost Value = { SessionState };

    ghost coded = { session_code };

    ghost view = { λ n. record {
      ids = n.ids;
      bound = n.counters.bound;
      moves = n.counters.moves;
      words = n.counters.words;
    } };
}

impl Names {
    /// Names without a live id; `memory` makes the meter. Allocates the table of all 65,536 ids;
    /// fails only if memory runs out.
    pub fn new(memory: Memory, alloc: Global) -> Result<Names, OutOfMemory>
        ensures { IfOk result (λ names. names ≡ fresh_session) }
    {
        Ok(Names {
            ids: IdTable::new(alloc)?,
            counters: Counters::new(),
            meter: Meter::for_library(memory),
        })
    }
}

impl Namer for Names {
    ghost state = { λ names. names };

    /// `Names`: the handle of the object that an id names; none if the id isn't live.
    fn handle(&self, id: u16) -> Option<Handle> {
        self.ids.handle(id)
    }

    /// `Names`: makes an object of `bytes` zero bytes for an id that isn't live. Returns false, and
    /// makes none, if the manager refuses. Counts the steps from 0; sets the step bound.
    fn malloc<H: Manager>(&mut self, heap: &mut H, id: u16, bytes: u32) -> bool {
        self.meter.lap();
        self.counters.bound = MALLOC_BOUND;
        match heap.malloc(bytes, self.meter.steps()) {
            Ok(h) => {
                self.ids.bind(id, h);
                true
            }
            Err(_) => false,
        }
    }

    /// `Names`: writes `bytes` into the object of a live id, from byte `at` on. Counts the steps
    /// from 0.
    fn write<H: Manager>(&mut self, heap: &mut H, id: u16, at: u32, bytes: &[u8]) {
        let Some(h) = self.ids.handle(id) else {
            unreachable!();
        };
        self.meter.lap();
        match heap.write(h, at, bytes, self.meter.steps()) {
            Ok(()) => {}
            Err(_) => unreachable!(),
        }
    }

    /// `Names`: frees the object of a live id, and counts the object that the free moves, if any.
    /// Counts the steps from 0; sets the step bound.
    fn free<H: Manager>(&mut self, heap: &mut H, id: u16) {
        let Some(h) = self.ids.handle(id) else {
            unreachable!();
        };
        self.meter.lap();
        let Ok(freed) = heap.free(h, self.meter.steps()) else {
            unreachable!();
        };
        self.ids.unbind(id);
        self.counters.bound = FREE_BOUND + 2 * freed.slot_words as u64;
        self.counters.count_move(freed.moved, freed.slot_words);
    }
}
