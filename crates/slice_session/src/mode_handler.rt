//! The mode handler of mode `slice`: a session over a sliced heap, and the quantum with which it
//! opens the heap.
ghost use Rattle.std.specs.Prelude.{◌≡◌, ℕ, IfOk};
ghost use Rattle.std.specs.FinMap as map;
ghost use Rattle.slice_session.specs.Playing.{IsQuantum, SlicePlay, slice_play, slices};

use crate::session::SliceSession;
use cf_base::{Failed, OutOfMemory, Settings};
use cf_io::{Sink, put_all};
use script_loop::{ModeHandler, OpenFault};
use script_reader::CommandRef;
use sliced_heap::SlicedHeap;
use std::alloc::Global;
use std::rt::Memory;
use step_ledger::Meter;

/// The handler of mode `slice`: a session over a sliced heap, with the quantum of the heap and the meter of
/// the steps.
#[derive(Drop)]
pub struct SliceHandler {
    pub session: SliceSession,
    /// The quantum with which the `heap` line opens the heap: the most words of one slice of a job.
    pub quantum: u32,
    meter: Meter,
}

impl SliceHandler {
    /// A handler with a new session, in which no id is live, for a heap with slices of at most `quantum`
    /// words (1 to 16,384). Allocates the table of all 65,536 ids, and fails with `OutOfMemory` if there is
    /// no memory for it.
    pub fn start(memory: Memory, alloc: Global, quantum: u32) -> Result<SliceHandler, OutOfMemory>
        requires { IsQuantum quantum }
        ensures session { IfOk result (λ p. p.session ≡ map.empty) }
        ensures quantum { IfOk result (λ p. p.quantum ≡ quantum) }
    {
        Ok(SliceHandler {
            session: SliceSession::start(alloc)?,
            quantum,
            meter: Meter::for_library(memory),
        })
    }
}

impl ModeHandler<SlicedHeap> for SliceHandler {
    ghost State = { SlicePlay };

    ghost Plan = { ℕ };

    ghost state = { λ mode_handler heap. slice_play mode_handler.session mode_handler.quantum heap };

    ghost semantics = { slices };

    /// Opens the sliced heap with the handler's quantum and the settings of the `heap` line, but
    /// always with the bound 1, and writes the reply `ok`. Fails with `OutOfMemory` if an
    /// allocation fails, and with `Failed` if the sink fails.
    fn open<K: Sink>(
        &mut self,
        heap: &mut SlicedHeap,
        settings: &Settings,
        sink: &mut K,
    ) -> Result<(), OpenFault> {
        heap.open_heap(settings, self.quantum)?;
        put_all(sink, b"ok\n")?;
        Ok(())
    }

    /// Does the command on the sliced heap, with its steps counted from 0, and writes its reply.
    /// Fails if the sink fails: the command has taken effect.
    fn answer<K: Sink>(
        &mut self,
        heap: &mut SlicedHeap,
        command: CommandRef,
        sink: &mut K,
    ) -> Result<(), Failed> {
        self.meter.lap();
        self.session
            .apply_ref(heap, command, sink, self.meter.steps())?;
        Ok(())
    }
}
