//! `Session`: does the commands of a script on one manager and writes their replies. Each line
//! begins with the lead (in mode `compare` the kind's name and a space, else empty). It also shows
//! how many objects and words frees and resizes moved, and the handle of an id.
ghost use Rattle.std.specs.Prelude.{◌≡◌, ◌≤◌, IsTrue, IfOk, length};
ghost use Rattle.std.specs.FinMap as map;
ghost use Rattle.run_model.specs.Terms.{AreTied, fresh_session, IsGoing, IsWellFormed, KeepsRules, owned_command, SinkFailsIf};
ghost use Rattle.cf_model.specs.Steps.{number_of};
ghost use Rattle.cf_session.specs.Apply.{AppliesOneManager, moment_at, run_at};
ghost use Rattle.id_table.specs.Ids.{AreWithin};
ghost use Rattle.std.specs.Result.{is_err};

use crate::dispatch::answer;
use crate::outcome::Outcome;
use crate::records::Records;
use cf_base::{CHUNK, Failed, Handle, OutOfMemory};
use cf_io::{Line, Sink};
use cf_model::Manager;
use script_reader::{Command, CommandRef};
use std::alloc::Global;
use std::marker::Model;
use std::rt::Memory;
use step_ledger::Meter;

/// The most bytes of the reply to a read: a lead of 8, `=`, two digits for each of 4,096 bytes, and
/// a line feed.
const MOST_TEXT: usize = 8_202;

/// The live ids of a script with their handles, the counters that command `steps` prints, the meter that owns
/// the count of steps, and buffers for replies. The manager itself is an argument of each call.
#[derive(Drop)]
pub struct Session {
    meter: Meter,
    records: Records,
    line: Line,
    /// The bytes that a read returns.
    buffer: [u8; CHUNK],
    /// The line of the reply to a read.
    text: [u8; MOST_TEXT],
}

impl Model for Session {
    ghost use Rattle.cf_session.specs.Records.{session_of};
    ghost use Rattle.run_model.specs.Sessions.{SessionState, session_code};

    ghost Value = { SessionState };

    ghost coded = { session_code };

    ghost view = { λ s. session_of s.records };
}

impl Session {
    /// A `Session` in which no id is live. The runtime value `rt` makes its meter. Allocates the table of
    /// all 65,536 ids; fails only if memory runs out.
    pub fn start(rt: &HostRuntime, alloc: Global) -> Result<Session, OutOfMemory>
        ensures { IfOk result (λ s. s ≡ fresh_session) }
    {
        Session::for_library(rt.memory(), alloc)
    }

    /// A `Session` in which no id is live, for code without a runtime value, as in a library for C:
    /// `memory` makes its meter. Allocates as `start` does; fails only if memory runs out.
    pub fn for_library(memory: Memory, alloc: Global) -> Result<Session, OutOfMemory>
        ensures { IfOk result (λ s. s ≡ fresh_session) }
    {
        Ok(Session {
            meter: Meter::for_library(memory),
            records: Records::new(alloc)?,
            line: Line::new(),
            buffer: [0; CHUNK],
            text: [0; MOST_TEXT],
        })
    }

    /// `Session`: resets the meter, does command `c` on the heap and writes its reply to `out`;
    /// each line begins with `lead` and is passed to the sink as a whole. Returns the outcome of
    /// the reply. If the sink fails, the result is `Failed`: the command has taken effect, and a
    /// prefix of its reply was written. The heap must be open, its objects those that the ids name,
    /// and with pages its cost within the session's step bound (`AreTied`); so it is afterwards. The
    /// fields of `c` must be in the ranges of the grammar, and the lead has at most 8 bytes.
    pub fn apply<H: Manager, K: Sink>(
        &mut self,
        heap: &mut H,
        c: &Command,
        lead: &[u8],
        out: &mut K,
    ) -> Result<Outcome, Failed>
        requires open { IsTrue (H.state heap.old).is_open }
        requires tied { AreTied self.old (H.state heap.old) }
        requires formed { IsWellFormed c.now }
        requires lead { length lead.now ≤ 8 }
        ensures step { AppliesOneManager (moment_at self.old (H.state heap.old) (K.state out.old).written)
            (record { command = c.now; lead = lead.now })
            result (moment_at self.new (H.state heap.new) (K.state out.new).written) }
        ensures tied { AreTied self.new (H.state heap.new) }
        ensures open { IsTrue (H.state heap.new).is_open }
        ensures rules { KeepsRules (H.state heap.new) }
        ensures sink { SinkFailsIf (is_err result) (K.state out.old) (K.state out.new) }
    {
        // For its contract: an open heap keeps its rules.
        let _open = heap.is_open();
        self.apply_ref(heap, c.as_ref(), lead, out)
    }

    /// Does the command `c` as `Session::apply` does, but `c` borrows the bytes of a write. The run
    /// must be in progress (`IsGoing`), as it is afterwards, the fields of `c` in the ranges of the
    /// grammar, and the lead has at most 8 bytes.
    pub fn apply_ref<H: Manager, K: Sink>(
        &mut self,
        heap: &mut H,
        c: CommandRef,
        lead: &[u8],
        out: &mut K,
    ) -> Result<Outcome, Failed>
        requires going { IsGoing (run_at self.old (H.state heap.old)) }
        requires formed { IsWellFormed (owned_command c) }
        requires lead { length lead.now ≤ 8 }
        ensures step { AppliesOneManager (moment_at self.old (H.state heap.old) (K.state out.old).written)
            (record { command = owned_command c.entry; lead = lead.now })
            result (moment_at self.new (H.state heap.new) (K.state out.new).written) }
        ensures going { IsGoing (run_at self.new (H.state heap.new)) }
        ensures sink { SinkFailsIf (is_err result) (K.state out.old) (K.state out.new) }
    {
        self.meter.lap();
        answer(
            &mut self.records,
            heap,
            c,
            lead,
            &mut self.buffer,
            &mut self.text,
            &mut self.line,
            out,
            self.meter.steps(),
        )
    }

    /// In a session, how many frees and resizes moved another object into the slot that became
    /// free; saturates at `2^64 - 1`.
    pub fn moves(&self) -> u64
        ensures { result ≡ self.now.moves }
    {
        self.records.counters.moves
    }

    /// In a session, the words of all slots into which a free or a resize moved another object;
    /// saturates at `2^64 - 1`.
    pub fn words(&self) -> u64
        ensures { result ≡ self.now.words }
    {
        self.records.counters.words
    }

    /// The handle of the object that an id of the session names; none if the id isn't live.
    pub fn handle(&self, id: u16) -> Option<Handle>
        ensures found { number_of result ≡ map.get self.now.ids id }
        ensures within { AreWithin self.now.ids }
    {
        self.records.ids.handle(id)
    }
}
