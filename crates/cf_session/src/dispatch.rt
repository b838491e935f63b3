//! `answer`, the one match over all commands: does a command on the heap and writes its reply. Each
//! line begins with the lead (in mode `compare` the kind's name and a space, else empty).
ghost use Rattle.std.specs.Prelude.{◌≡◌, ◌^◌, ◌≤◌, length};
ghost use Rattle.cf_base.specs.declared.numbers.TheConstants.{CHUNK};
ghost use Rattle.run_model.specs.Terms.{IsGoing, IsWellFormed, owned_command, SinkFailsIf};
ghost use Rattle.cf_session.specs.Apply.{AppliesOneManager, moment_at};
ghost use Rattle.cf_session.specs.Records.{run_with, session_of};
ghost use Rattle.std.specs.Result.{is_err};

use crate::changes::{free, malloc, resize, set_bound, write};
use crate::outcome::Outcome;
use crate::queries::{block, build_steps_line, peek, place, read};
use crate::records::Records;
use crate::reply::{ended, put_reply, put_short_line};
use crate::short::Short;
use cf_base::Failed;
use cf_io::{Line, Sink};
use cf_model::Manager;
use frag_report::{frag_line, walk_lines};
use script_reader::CommandRef;
use step_ledger::Steps;

/// For a `Session`, does command `c` and writes its reply to `out`; a command of another mode gets
/// `none`. Each line is passed to the sink as a whole. Returns the outcome of the reply. If the
/// sink fails, the result is `Failed`: the command has taken effect, and a prefix of its reply was
/// written. `line`, `buffer` and `text` are scratch: `line` for a line of any reply, and, for `r`
/// alone, `buffer` of 4,096 bytes for the bytes read and `text` of 8,202 bytes for the line that
/// shows them. The run must be in progress (`IsGoing`), the fields of `c` in the ranges of the
/// grammar, the lead at most 8 bytes, and the count of `steps` at most 2^63.
// All commands are in one match: if the compiler knows a caller's command, it inlines that branch alone.
pub(crate) fn answer<H: Manager, K: Sink>(
    records: &mut Records,
    heap: &mut H,
    c: CommandRef,
    lead: &[u8],
    buffer: &mut [u8],
    text: &mut [u8],
    line: &mut Line,
    out: &mut K,
    steps: &mut Steps,
) -> Result<Outcome, Failed>
    requires going { IsGoing (run_with records.old (H.state heap.old)) }
    requires formed { IsWellFormed (owned_command c) }
    requires lead { length lead.now ≤ 8 }
    requires buffer { length buffer.old ≡ CHUNK }
    requires text { length text.old ≡ 8202 }
    requires room { steps.old ≤ 2 ^ 63 }
    ensures step { AppliesOneManager (moment_at (session_of records.old) (H.state heap.old) (K.state out.old).written)
        (record { command = owned_command c.entry; lead = lead.now })
        result (moment_at (session_of records.new) (H.state heap.new) (K.state out.new).written) }
    ensures sink { SinkFailsIf (is_err result) (K.state out.old) (K.state out.new) }
{
    match c {
        CommandRef::Malloc { id, bytes } => {
            put_short_line(malloc(records, heap, id, bytes, steps), lead, line, out)
        }
        CommandRef::Free { id } => put_short_line(free(records, heap, id, steps), lead, line, out),
        CommandRef::Write { id, at, bytes } => {
            put_short_line(write(records, heap, id, at, bytes, steps), lead, line, out)
        }
        CommandRef::Read { id, at, len } => {
            read(
                records, heap, id, at, len, buffer, text, lead, line, out, steps,
            )
        }
        CommandRef::Resize { id, bytes } => {
            put_short_line(resize(records, heap, id, bytes, steps), lead, line, out)
        }
        CommandRef::Bound { slot_words, k } => {
            put_short_line(set_bound(records, heap, slot_words, k), lead, line, out)
        }
        CommandRef::Place { id } => put_reply(
            place(records, heap, id, lead, line, steps),
            lead,
            line,
            out,
        ),
        CommandRef::Block { id, i } => {
            put_reply(
                block(records, heap, id, i, lead, line, steps),
                lead,
                line,
                out,
            )
        }
        CommandRef::Peek { word } => put_reply(
            peek(heap, word, lead, line, steps),
            lead,
            line,
            out,
        ),
        CommandRef::Steps => put_reply(
            build_steps_line(records, heap, lead, line),
            lead,
            line,
            out,
        ),
        CommandRef::Walk => ended(walk_lines(heap, lead, line, out, steps), Outcome::Other),
        CommandRef::Frag => ended(frag_line(heap, lead, line, out, steps), Outcome::Other),
        _ => put_short_line(Short::Lacking, lead, line, out),
    }
}
