//! The mode handler of mode `run`: a session over one manager.
ghost use Rattle.std.specs.Prelude.{Bool};
ghost use Rattle.run_model.specs.Terms.{Kind, RunState};
ghost use Rattle.cf_session.specs.Apply.{run_at};
ghost use Rattle.script_loop.specs.OneManager.{one_manager};

use crate::mode_handler::{ModeHandler, OpenFault};
use cf_base::{Failed, Settings};
use cf_io::{Sink, put_all};
use cf_model::Manager;
use cf_session::Session;
use script_reader::CommandRef;

// The plan is the manager's kind, and whether it promises an order.
impl<H: Manager> ModeHandler<H> for Session {
    ghost State = { RunState };

    ghost Plan = { Kind × Bool };

    ghost state = { λ session heap. run_at session (H.state heap) };

    ghost semantics = { one_manager };

    fn open<K: Sink>(
        &mut self,
        heap: &mut H,
        settings: &Settings,
        sink: &mut K,
    ) -> Result<(), OpenFault> {
        heap.open_heap(settings)?;
        put_all(sink, b"ok\n")?;
        Ok(())
    }

    fn answer<K: Sink>(
        &mut self,
        heap: &mut H,
        command: CommandRef,
        sink: &mut K,
    ) -> Result<(), Failed> {
        self.apply_ref(heap, command, b"", sink)?;
        Ok(())
    }
}
