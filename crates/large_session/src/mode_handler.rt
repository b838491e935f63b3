//! The mode handler of mode `large`, which runs a script on a heap of long objects.
ghost use Rattle.std.specs.Prelude.{◌≡◌, IfOk};
ghost use Rattle.std.specs.FinMap as map;
ghost use Rattle.cf_base.specs.declared.kind.Kind.{Kind};
ghost use Rattle.large_session.specs.LargeRun.{LargeRun, large_run};
ghost use Rattle.large_session.specs.Playing.{large_heap};

use crate::session::LargeSession;
use cf_base::{Failed, OutOfMemory, Settings};
use cf_io::{Line, Sink, put_all};
use cf_model::Manager;
use large_objects::LargeHeap;
use script_loop::{ModeHandler, OpenFault};
use script_reader::CommandRef;
use std::alloc::Global;
use std::rt::Memory;
use step_ledger::Meter;

/// The mode handler of mode `large`: a session over long objects, the line in which it builds
/// replies, and the meter that owns the count of steps.
#[derive(Drop)]
pub struct LargeHandler {
    pub session: LargeSession,
    line: Line,
    meter: Meter,
}

impl LargeHandler {
    /// A handler of mode `large` with a new session, in which no id is live. Allocates the table of all 65,536 ids, and
    /// fails with `OutOfMemory` if there is no memory for it.
    pub fn start(memory: Memory, alloc: Global) -> Result<LargeHandler, OutOfMemory>
        ensures { IfOk result (λ p. p.session ≡ map.empty) }
    {
        Ok(LargeHandler {
            session: LargeSession::start(alloc)?,
            line: Line::new(),
            meter: Meter::for_library(memory),
        })
    }
}

impl<H: Manager> ModeHandler<LargeHeap<H>> for LargeHandler {
    ghost State = { LargeRun };

    ghost Plan = { Kind };

    ghost state = { λ mode_handler heap. large_run mode_handler.session heap };

    ghost semantics = { large_heap };

    /// Opens the heap of long objects with the settings of the `heap` line, but always with the
    /// bound 1, and writes the reply `ok`. Fails with `OutOfMemory` if an allocation fails, and
    /// with `Failed` if the sink fails.
    fn open<K: Sink>(
        &mut self,
        heap: &mut LargeHeap<H>,
        settings: &Settings,
        sink: &mut K,
    ) -> Result<(), OpenFault> {
        let settings = Settings {
            pages: settings.pages,
            page_words: settings.page_words,
            k: 1,
            proxies: settings.proxies,
        };
        heap.open_heap(&settings)?;
        put_all(sink, b"ok\n")?;
        Ok(())
    }

    /// Does the command on the heap of long objects and writes its reply. Fails if the sink fails:
    /// the command has taken effect.
    fn answer<K: Sink>(
        &mut self,
        heap: &mut LargeHeap<H>,
        command: CommandRef,
        sink: &mut K,
    ) -> Result<(), Failed> {
        self.session
            .apply_ref(heap, command, &mut self.line, sink, &mut self.meter)?;
        Ok(())
    }
}
