//! The mode handler of mode `quota`: a session over the heap that sixteen tasks share, with the settings of the
//! `heap` line.
ghost use Rattle.std.specs.Prelude.{◌≡◌, ⊤, IfOk, None, option_map};
ghost use Rattle.cf_base.specs.Settings.{profile_of};
ghost use Rattle.quota_session.specs.Playing.{quota_tasks};
ghost use Rattle.quota_session.specs.QuotaRun.{QuotaRun, first_session, quota_run};

use crate::session::QuotaSession;
use cf_base::{Failed, OutOfMemory, Settings};
use cf_io::{Sink, put_all};
use quota_heap::QuotaHeap;
use script_loop::{ModeHandler, OpenFault};
use script_reader::CommandRef;
use std::alloc::Global;
use std::rt::Memory;
use step_ledger::Meter;

/// The handler of mode `quota`: a session over sixteen tasks, with the settings of the `heap` line
/// and the meter of the steps.
#[derive(Drop)]
pub struct QuotaHandler {
    pub session: QuotaSession,
    /// The settings of the `heap` line, but always with the bound 1; none before that line.
    pub settings: Option<Settings>,
    meter: Meter,
}

impl QuotaHandler {
    /// A handler of mode `quota` with a new session and without settings. Allocates all memory of the session, and
    /// fails with `OutOfMemory` if an allocation fails.
    pub fn start(memory: Memory, alloc: Global) -> Result<QuotaHandler, OutOfMemory>
        ensures session { IfOk result (λ p. p.session ≡ first_session) }
        ensures settings { IfOk result (λ p. p.settings ≡ None) }
    {
        Ok(QuotaHandler {
            session: QuotaSession::start(alloc)?,
            settings: None,
            meter: Meter::for_library(memory),
        })
    }
}

impl ModeHandler<QuotaHeap> for QuotaHandler {
    ghost State = { QuotaRun };

    ghost Plan = { ⊤ };

    ghost state = { λ mode_handler heap. quota_run (option_map profile_of mode_handler.settings) mode_handler.session heap };

    ghost semantics = { quota_tasks };

    /// Opens the heap of tasks with the settings of the `heap` line, but always with the bound 1,
    /// stores these settings, and writes the reply `ok`. Fails with `OutOfMemory` if an allocation
    /// fails, and with `Failed` if the sink fails.
    fn open<K: Sink>(
        &mut self,
        heap: &mut QuotaHeap,
        settings: &Settings,
        sink: &mut K,
    ) -> Result<(), OpenFault> {
        let settings = Settings {
            pages: settings.pages,
            page_words: settings.page_words,
            k: 1,
            proxies: settings.proxies,
        };
        heap.open_heap(&settings)?;
        self.settings = Some(settings);
        put_all(sink, b"ok\n")?;
        Ok(())
    }

    /// Does the command on the heap of tasks, which was opened before, with its steps counted from
    /// 0, and writes its reply. Fails if the sink fails: the command has taken effect.
    fn answer<K: Sink>(
        &mut self,
        heap: &mut QuotaHeap,
        command: CommandRef,
        sink: &mut K,
    ) -> Result<(), Failed> {
        let Some(settings) = self.settings else {
            unreachable!();
        };
        self.meter.lap();
        self.session
            .apply_ref(heap, &settings, command, sink, self.meter.steps())?;
        Ok(())
    }
}
