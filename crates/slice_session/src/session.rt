//! A session over a sliced heap: it maps a script's ids to handles, does each command, and writes its reply.
ghost use Rattle.std.specs.Prelude.{◌≡◌, ◌<◌, ◌≤◌, [], IsTrue, IfOk, length};
ghost use Rattle.std.specs.FinMap as map;
ghost use Rattle.run_model.specs.Terms.{IsWellFormed, objects, owned_command, SinkFailsIf};
ghost use Rattle.cf_io.specs.Lines.{line_capacity};
ghost use Rattle.cf_session.specs.Apply.{outcome_in};
ghost use Rattle.script_loop.specs.Semantics.{snapshot};
ghost use Rattle.step_ledger.specs.Counting.{RoseAtMost};
ghost use Rattle.script_loop.specs.Applying.{Applies, BuildsReply};
ghost use Rattle.id_table.specs.Ties.{AreTiedTo};
ghost use Rattle.slice_session.specs.SliceRun.{IsGoingSliced, SliceStep, most_steps, slice_run};
ghost use Rattle.slice_session.specs.Playing.{sliced};
ghost use Rattle.std.specs.Result.{is_err};

use crate::commands::{free, malloc, peek, read, step, write};
use cf_base::{CHUNK, Failed, OutOfMemory};
use cf_io::{Line, Sink, put_line};
use cf_session::{Outcome, Short, ended, push_short};
use id_table::IdTable;
use script_reader::{Command, CommandRef};
use sliced_heap::SlicedHeap;
use std::alloc::Global;
use std::marker::Model;
use step_ledger::{Meter, Steps};

/// The live ids of a script with the handles that they name in one sliced heap, and the buffers for
/// replies.
#[derive(Drop)]
pub struct SliceSession {
    ids: IdTable,
    /// The line in which a reply is built.
    line: Line,
    /// The buffer for the bytes of a read.
    buffer: [u8; CHUNK],
}

impl Model for SliceSession {
    ghost use Rattle.id_table.specs.Ids.{Ids, ids_code};

    ghost Value = { Ids };

    ghost coded = { ids_code };

    ghost view = { λ s. s.ids };
}

impl SliceSession {
    /// A new session over a sliced heap, in which no id is live. Allocates the table of all 65,536 ids, and fails with
    /// `OutOfMemory` if there is no memory for it.
    pub fn start(alloc: Global) -> Result<SliceSession, OutOfMemory>
        ensures { IfOk result (λ s. s ≡ map.empty) }
    {
        Ok(SliceSession {
            ids: IdTable::new(alloc)?,
            line: Line::new(),
            buffer: [0; CHUNK],
        })
    }

    /// Resets the ledger of `meter` to 0, does the command c on the open sliced heap, with at most
    /// `most_steps` steps, and writes its reply to the sink `out`. The live ids must name the
    /// heap's live objects, each once (`AreTiedTo`), and the fields of c must be in the ranges of
    /// the grammar (`IsWellFormed`). Returns the reply's outcome. If the sink fails, the result is
    /// `Failed`: the command has taken effect, and a prefix of its reply was written.
    pub fn apply<K: Sink>(
        &mut self,
        heap: &mut SlicedHeap,
        c: &Command,
        out: &mut K,
        meter: &mut Meter,
    ) -> Result<Outcome, Failed>
        requires open { IsTrue heap.old.is_open }
        requires tied { AreTiedTo self.old (objects heap.old.held) }
        requires formed { IsWellFormed c.now }
        ensures step { Applies sliced (snapshot (slice_run self.old heap.old) (K.state out.old).written) c.now result
            (snapshot (slice_run self.new heap.new) (K.state out.new).written) }
        ensures going { IsGoingSliced (slice_run self.new heap.new) }
        ensures steps { meter.new ≤ most_steps heap.old.quantum c.now }
        ensures sink { SinkFailsIf (is_err result) (K.state out.old) (K.state out.new) }
    {
        meter.lap();
        self.apply_ref(heap, c.as_ref(), out, meter.steps())
    }

    /// Does the command c, whose bytes are borrowed, and writes its reply, as `SliceSession::apply`
    /// does. But it doesn't reset the ledger `steps`: it adds to it, at most `most_steps` of the
    /// command.
    pub fn apply_ref<K: Sink>(
        &mut self,
        heap: &mut SlicedHeap,
        c: CommandRef,
        out: &mut K,
        steps: &mut Steps,
    ) -> Result<Outcome, Failed>
        requires open { IsTrue heap.old.is_open }
        requires tied { AreTiedTo self.old (objects heap.old.held) }
        requires formed { IsWellFormed (owned_command c) }
        ensures step { Applies sliced (snapshot (slice_run self.old heap.old) (K.state out.old).written) (owned_command c.entry) result
            (snapshot (slice_run self.new heap.new) (K.state out.new).written) }
        ensures going { IsGoingSliced (slice_run self.new heap.new) }
        ensures steps { RoseAtMost steps.old steps.new (most_steps heap.old.quantum (owned_command c.entry)) }
        ensures sink { SinkFailsIf (is_err result) (K.state out.old) (K.state out.new) }
    {
        // For its contract: an open heap keeps its rules.
        let _open = heap.is_open();
        let line = &mut self.line;
        let outcome = build_reply(&mut self.ids, heap, c, &mut self.buffer, line, steps);
        ended(put_line(line, out), outcome)
    }
}

/// Does the command c on the sliced heap and builds the text of its reply in `line`, but writes it
/// to no sink. The heap, the ids and c must be as `SliceSession::apply` requires. `buffer`, of 4,096
/// bytes, gets the bytes of a read. Returns the reply's outcome. The reply to a command that mode
/// `slice` doesn't have is `none`. Adds at most `most_steps` of c to the ledger `steps`.
fn build_reply(
    ids: &mut IdTable,
    heap: &mut SlicedHeap,
    c: CommandRef,
    buffer: &mut [u8],
    line: &mut Line,
    steps: &mut Steps,
) -> Outcome
    requires going { IsGoingSliced (slice_run ids.old heap.old) }
    requires formed { IsWellFormed (owned_command c) }
    requires buffer { length buffer.old ≡ 4096 }
    ensures speaks { BuildsReply SliceStep (slice_run ids.old heap.old) (owned_command c.entry) (slice_run ids.new heap.new) line.new }
    ensures outcome { result ≡ outcome_in line.new }
    ensures steps { RoseAtMost steps.old steps.new (most_steps heap.old.quantum (owned_command c.entry)) }
{
    line.clear();
    match c {
        CommandRef::Malloc { id, bytes } => {
            push_short(line, malloc(ids, heap, id, bytes, steps))
        }
        CommandRef::Free { id } => push_short(line, free(ids, heap, id, steps)),
        CommandRef::Slice => step(ids, heap, line, steps),
        CommandRef::Write { id, at, bytes } => {
            push_short(line, write(ids, heap, id, at, bytes, steps))
        }
        CommandRef::Read { id, at, len } => {
            read(ids, heap, id, at, &mut buffer[..len as usize], line, steps)
        }
        CommandRef::Peek { word } => peek(heap, word, line, steps),
        _ => push_short(line, Short::Lacking),
    }
}
