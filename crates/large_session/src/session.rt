//! A session over a heap of long objects: it maps a script's ids to handles, does each command, and writes
//! its reply.
ghost use Rattle.std.specs.Prelude.{◌≡◌, ◌<◌, [], IsTrue, IfOk, length};
ghost use Rattle.std.specs.FinMap as map;
ghost use Rattle.run_model.specs.Terms.{IsWellFormed, owned_command, SinkFailsIf};
ghost use Rattle.cf_session.specs.Apply.{outcome_in};
ghost use Rattle.script_loop.specs.Applying.{Applies, BuildsReply};
ghost use Rattle.id_table.specs.Ties.{AreTiedTo};
ghost use Rattle.large_session.specs.LargeRun.{IsGoingLarge, LargeStep, large_moment, large_run};
ghost use Rattle.large_session.specs.Playing.{large_heap};
ghost use Rattle.large_session.specs.Speaking.{IsOneLine};
ghost use Rattle.std.specs.Result.{is_err};

use crate::commands::{free, malloc, read, write};
use cf_base::{CHUNK, Failed, OutOfMemory};
use cf_io::{Line, Sink, put_line};
use cf_model::Manager;
use cf_session::{Outcome, Short, ended, push_short};
use frag_report::{frag_line, walk_lines};
use id_table::IdTable;
use large_objects::LargeHeap;
use script_reader::{Command, CommandRef};
use std::alloc::Global;
use std::marker::Model;
use step_ledger::Meter;

/// The live ids of a script with the handles that they name in one heap of long objects, and a
/// buffer.
#[derive(Drop)]
pub struct LargeSession {
    ids: IdTable,
    /// The buffer for the bytes of a read.
    buffer: [u8; CHUNK],
}

impl Model for LargeSession {
    ghost use Rattle.id_table.specs.Ids.{Ids, ids_code};

    ghost Value = { Ids };

    ghost coded = { ids_code };

    ghost view = { λ s. s.ids };
}

impl LargeSession {
    /// A new session over long objects, in which no id is live. Allocates the table of all 65,536 ids, and fails with
    /// `OutOfMemory` if there is no memory for it.
    pub fn start(alloc: Global) -> Result<LargeSession, OutOfMemory>
        ensures { IfOk result (λ s. s ≡ map.empty) }
    {
        Ok(LargeSession {
            ids: IdTable::new(alloc)?,
            buffer: [0; CHUNK],
        })
    }

    /// Does the well-formed command `c` on the open heap of long objects, whose objects the live ids
    /// name, builds each line of its reply in `line`, writes the reply to the sink `out`, and
    /// returns the outcome of the reply. `meter` counts steps. If the sink fails, the result is
    /// `Failed`: the command has taken effect, and a prefix of its reply was written.
    pub fn apply<H: Manager, K: Sink>(
        &mut self,
        heap: &mut LargeHeap<H>,
        c: &Command,
        line: &mut Line,
        out: &mut K,
        meter: &mut Meter,
    ) -> Result<Outcome, Failed>
        requires open { IsTrue heap.old.is_open }
        requires tied { AreTiedTo self.old heap.old.objects }
        requires formed { IsWellFormed c.now }
        ensures step { Applies large_heap (large_moment self.old heap.old (K.state out.old).written) c.now result
            (large_moment self.new heap.new (K.state out.new).written) }
        ensures going { IsGoingLarge (large_run self.new heap.new) }
        ensures sink { SinkFailsIf (is_err result) (K.state out.old) (K.state out.new) }
    {
        self.apply_ref(heap, c.as_ref(), line, out, meter)
    }

    /// The same as `LargeSession::apply`, for a command whose bytes are borrowed.
    pub fn apply_ref<H: Manager, K: Sink>(
        &mut self,
        heap: &mut LargeHeap<H>,
        c: CommandRef,
        line: &mut Line,
        out: &mut K,
        meter: &mut Meter,
    ) -> Result<Outcome, Failed>
        requires open { IsTrue heap.old.is_open }
        requires tied { AreTiedTo self.old heap.old.objects }
        requires formed { IsWellFormed (owned_command c) }
        ensures step { Applies large_heap (large_moment self.old heap.old (K.state out.old).written) (owned_command c.entry) result
            (large_moment self.new heap.new (K.state out.new).written) }
        ensures going { IsGoingLarge (large_run self.new heap.new) }
        ensures sink { SinkFailsIf (is_err result) (K.state out.old) (K.state out.new) }
    {
        // For its contract: an open heap keeps its rules.
        let _open = heap.is_open();
        match c {
            CommandRef::Walk => {
                let written = walk_lines(heap.inner(), b"", line, out, meter.steps());
                ended(written, Outcome::Other)
            }
            CommandRef::Frag => {
                let written = frag_line(heap.inner(), b"", line, out, meter.steps());
                ended(written, Outcome::Other)
            }
            _ => {
                let outcome = build_reply(&mut self.ids, heap, c, &mut self.buffer, line, meter);
                ended(put_line(line, out), outcome)
            }
        }
    }
}

/// Does a command other than `walk` and `frag` on long objects, builds the text of its reply in
/// `line`, and returns the outcome of the reply. The run must be in progress (`IsGoingLarge`) and the
/// command well-formed. `buffer`, of 4,096 bytes, gets the bytes of a read. Any command but `m`, `f`,
/// `w` and `r` gets the reply `none`.
fn build_reply<H: Manager>(
    ids: &mut IdTable,
    heap: &mut LargeHeap<H>,
    c: CommandRef,
    buffer: &mut [u8],
    line: &mut Line,
    meter: &mut Meter,
) -> Outcome
    requires going { IsGoingLarge (large_run ids.old heap.old) }
    requires formed { IsWellFormed (owned_command c) }
    requires one { IsOneLine (owned_command c) }
    requires buffer { length buffer.old ≡ 4096 }
    ensures speaks { BuildsReply LargeStep (large_run ids.old heap.old) (owned_command c.entry) (large_run ids.new heap.new) line.new }
    ensures outcome { result ≡ outcome_in line.new }
{
    line.clear();
    match c {
        CommandRef::Malloc { id, bytes } => {
            push_short(line, malloc(ids, heap, id, bytes, meter))
        }
        CommandRef::Free { id } => push_short(line, free(ids, heap, id, meter)),
        CommandRef::Write { id, at, bytes } => {
            push_short(line, write(ids, heap, id, at, bytes, meter))
        }
        CommandRef::Read { id, at, len } => {
            read(ids, heap, id, at, &mut buffer[..len as usize], line, meter)
        }
        _ => push_short(line, Short::Lacking),
    }
}
