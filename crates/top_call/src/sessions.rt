//! The mode handler of many managers: it opens them all at the `heap` line, and does each command on all.
ghost use Rattle.std.specs.Prelude.{◌≡◌, Bool, IfOk, List, map};
ghost use Rattle.cf_base.specs.declared.kind.Kind.{Kind as TheKind};
ghost use Rattle.top_call.specs.SideBySide.{AreFresh, SideBySide, side_by_side_at, many_managers};

use crate::answer::answer_each;
use crate::open_reply::put_opened;
use cf_base::{Failed, OutOfMemory, Settings};
use cf_io::Sink;
use cf_model::{Manager, open_all};
use cf_session::Session;
use script_loop::{ModeHandler, OpenFault};
use script_reader::CommandRef;
use std::alloc::Global;
use std::rt::Memory;

/// A session for each of many managers: the session with index i runs on the manager with index i.
#[derive(Drop)]
pub struct Sessions {
    pub each: Vec<Session>,
}

impl Sessions {
    /// For mode `compare`, `count` new sessions, in which no id is live. Allocates the table of 65,536 ids of each, and
    /// fails with `OutOfMemory` if an allocation fails.
    pub fn start(memory: Memory, alloc: Global, count: usize) -> Result<Sessions, OutOfMemory>
        ensures { IfOk result (λ s. AreFresh count s.each.items) }
    {
        let mut each = Vec::new(alloc);
        for _i in 0..count {
            let session = Session::for_library(memory, alloc)?;
            match each.push(session) {
                Ok(()) => {}
                Err(_) => return Err(OutOfMemory),
            }
        }
        Ok(Sessions { each })
    }
}

// `Plan`, which no item of a script changes: each manager's kind, and whether it promises an order.
impl<H: Manager> ModeHandler<Vec<H>> for Sessions {
    ghost State = { SideBySide };

    ghost Plan = { List TheKind × List Bool };

    ghost state = { λ sessions heaps. side_by_side_at sessions.each.items (map (λ m. H.state m) heaps.items) };

    ghost semantics = { many_managers };

    /// In mode `compare`, opens all managers in order with the settings of the `heap` line, and
    /// writes a line with `ok` for each. Fails with `OutOfMemory` if a manager can't be opened: then
    /// nothing is written, and the managers after it are unchanged. Fails with `Failed` if the sink
    /// fails: then all managers are open, and a prefix of the lines was written.
    fn open<K: Sink>(
        &mut self,
        heap: &mut Vec<H>,
        settings: &Settings,
        sink: &mut K,
    ) -> Result<(), OpenFault> {
        open_all(heap, settings)?;
        put_opened(heap, sink)?;
        Ok(())
    }

    /// In mode `compare`, does the command on each manager in order and writes their replies. Fails
    /// if the sink fails: the managers after the one whose reply was cut have not done the command.
    fn answer<K: Sink>(
        &mut self,
        heap: &mut Vec<H>,
        command: CommandRef,
        sink: &mut K,
    ) -> Result<(), Failed> {
        answer_each(&mut self.each, heap, command, sink)
    }
}
