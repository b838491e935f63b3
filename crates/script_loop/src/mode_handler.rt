//! The trait `ModeHandler`: the script loop calls `open` of its handler for the `heap` line, and `answer`
//! for each later command. The trait also names the handler's states and its semantics, for contracts.
//! `OpenFault` is the error of `open`.
ghost use Rattle.std.specs.Prelude.{◌≡◌, OnOk};
ghost use Rattle.run_model.specs.Terms.{IsWellFormed, owned_command, SinkFailsIf};
ghost use Rattle.script_loop.specs.declared.mode_handler.OpenFault.TheVariants as fault;
ghost use Rattle.script_loop.specs.Semantics.{AnswersBy, OpensBy, Semantics, snapshot, is_cut_reply};
ghost use Rattle.std.specs.Result.{is_err};

use cf_base::{Failed, OutOfMemory, Settings};
use cf_io::Sink;
use script_reader::CommandRef;

/// Why the reply to a `heap` line wasn't written whole.
#[derive(Clone, Copy, Debug, Drop, PartialEq, Eq)]
pub enum OpenFault {
    /// The sink failed. The line has taken effect, and a prefix of its reply was written.
    Failed,
    /// An allocation failed, and nothing was written.
    OutOfMemory,
}

impl From<Failed> for OpenFault {
    ghost from_gives = { λ _ made. made ≡ fault.Failed };

    /// The fault of an opening for a failed sink: `OpenFault::Failed`.
    fn from(_failed: Failed) -> OpenFault {
        OpenFault::Failed
    }
}

impl From<OutOfMemory> for OpenFault {
    ghost from_gives = { λ _ made. made ≡ fault.OutOfMemory };

    /// The fault of an opening for a failed allocation: `OpenFault::OutOfMemory`.
    fn from(_error: OutOfMemory) -> OpenFault {
        OpenFault::OutOfMemory
    }
}

/// A mode handler: it answers the `heap` line and commands of a script on a heap, which is one
/// manager, a list of managers, or another heap. Each mode that reads a script has one, and
/// `play_script` is the loop that calls it.
pub trait ModeHandler<H> {
    /// The type of the states of a run: what contracts see of the handler and its heap together.
    ghost State: { Type 0 };

    /// The type of the plan, the part of a state that no item changes.
    ghost Plan: { Type 0 };

    /// The state of a run, from the handler and its heap.
    ghost state: { Self → H → State };

    /// Which reply each item may get, and to which state it leads.
    ghost semantics: { Semantics State Plan };

    /// `ModeHandler`: answers the `heap` line, the first item of a script: opens the heap with these settings and
    /// writes the reply. If that fails, `OpenFault` shows why the reply wasn't written whole. The state must be fresh
    /// (`is_fresh` of the semantics).
    fn open<K: Sink>(
        &mut self,
        heap: &mut H,
        settings: &Settings,
        sink: &mut K,
    ) -> Result<(), OpenFault>
        requires { semantics.is_fresh (state self.old heap.old) }
        ensures opens { OpensBy semantics (snapshot (state self.old heap.old) (K.state sink.old).written) settings.now
            result (snapshot (state self.new heap.new) (K.state sink.new).written) }
        ensures going { OnOk result (semantics.is_going (state self.new heap.new)) }
        ensures plan { semantics.plan (state self.new heap.new) ≡ semantics.plan (state self.old heap.old) }
        ensures sink { SinkFailsIf (is_cut_reply result) (K.state sink.old) (K.state sink.new) };

    /// `ModeHandler`: does a command on the open heap and writes its reply. If the sink fails, the command has taken
    /// effect, and a prefix of its reply was written. The run must be in progress (`is_going`), and is so afterwards;
    /// the command must be well formed (`IsWellFormed`).
    fn answer<K: Sink>(
        &mut self,
        heap: &mut H,
        command: CommandRef,
        sink: &mut K,
    ) -> Result<(), Failed>
        requires going { semantics.is_going (state self.old heap.old) }
        requires formed { IsWellFormed (owned_command command) }
        ensures step { AnswersBy semantics (snapshot (state self.old heap.old) (K.state sink.old).written) (owned_command command.entry)
            result (snapshot (state self.new heap.new) (K.state sink.new).written) }
        ensures going { semantics.is_going (state self.new heap.new) }
        ensures plan { semantics.plan (state self.new heap.new) ≡ semantics.plan (state self.old heap.old) }
        ensures sink { SinkFailsIf (is_err result) (K.state sink.old) (K.state sink.new) };
}
