//! Feeds a chunk to the reader (`answer_chunk`), after each `feed` passes the `heap` line and each
//! command that is whole to the mode handler (`answer_pending_items`), and writes the reply to a
//! bad line (`put_bad_line`). An error is the status with which the script ends. `BadScript`: a
//! line was bad, and its number was written. `WriteFault`: the sink failed; the last item has taken
//! effect, and a prefix of its reply was written. `OutOfMemory`: an allocation failed at the `heap`
//! line.
ghost use Rattle.std.specs.Prelude.{◌≡◌, ◌≤◌, ◌+◌, [], length, false, None};
ghost use Rattle.cf_io.specs.Feeds.{SinkFailsIf};
ghost use Rattle.script_reader.specs.Reading.{MOST_FED};
ghost use Rattle.script_loop.specs.AnswersSoFar.{AnswersItems, IsWaiting, PrintsBadLine};
ghost use Rattle.script_loop.specs.ScriptOutcome.{fails_to_write, is_write_fault};
ghost use Rattle.script_loop.specs.Progress.{IsReady, playing, progress};

use crate::mode_handler::{ModeHandler, OpenFault};
use cf_base::Status;
use cf_io::{Line, Sink, push_field, put_line};
use script_reader::{NextRef, PayloadBuffer, Reader};

/// Writes the reply `bad line` with `number`, that of the bad line (the first line is 1), and
/// returns `BadScript`, or `WriteFault` if the sink failed.
fn put_bad_line<K: Sink>(number: u32, sink: &mut K) -> Status
    ensures names { PrintsBadLine (K.state sink.old).written number result (K.state sink.new).written }
    ensures sink { SinkFailsIf (is_write_fault result) (K.state sink.old) (K.state sink.new) }
{
    let mut line = Line::new();
    push_field(&mut line, b"bad line ", number as u64);
    match put_line(&mut line, sink) {
        Ok(()) => Status::BadScript,
        Err(_) => Status::WriteFault,
    }
}

/// Passes the `heap` line and each command that the reader holds whole to the mode handler, which
/// does it on the heap and writes the reply. Returns when the reader needs more bytes or the script
/// has ended. Fails at a bad line, to which it writes the reply itself, if the sink fails, and if
/// an allocation fails at the `heap` line. The reader must not have met a bad line before, and the
/// state of the run must fit the reader's stage (`IsReady`). `payload` is scratch, for the bytes of
/// a write.
pub fn answer_pending_items<H, A: ModeHandler<H>, K: Sink>(
    reader: &mut Reader,
    mode_handler: &mut A,
    heap: &mut H,
    sink: &mut K,
    payload: &mut PayloadBuffer,
) -> Result<(), Status>
    requires going { reader.old.stopped ≡ None }
    requires ready { IsReady A.semantics (playing reader.old (A.state mode_handler.old heap.old)) }
    ensures goes { AnswersItems A.semantics (progress (playing reader.old (A.state mode_handler.old heap.old)) (K.state sink.old).written) [] result
        (progress (playing reader.new (A.state mode_handler.new heap.new)) (K.state sink.new).written) }
    ensures sink { SinkFailsIf (fails_to_write result) (K.state sink.old) (K.state sink.new) }
{
    'replies: loop {
        let mut next = NextRef::NeedMore;
        reader.read_next(payload, &mut next);
        match next {
            NextRef::Start(settings) => match mode_handler.open(heap, &settings, sink) {
                Ok(()) => {}
                Err(OpenFault::Failed) => return Err(Status::WriteFault),
                Err(OpenFault::OutOfMemory) => return Err(Status::OutOfMemory),
            },
            NextRef::Command(command) => match mode_handler.answer(heap, command, sink) {
                Ok(()) => {}
                Err(_) => return Err(Status::WriteFault),
            },
            NextRef::NeedMore | NextRef::End => return Ok(()),
            NextRef::Bad { line } => return Err(put_bad_line(line, sink)),
        }
    }
}

/// Feeds the chunk to the reader, and passes the items that the chunk completes to the mode
/// handler. Fails as `answer_pending_items` does. The reader must need more bytes (`IsWaiting`), of
/// which at most `2^32 - 1` may be fed in all, and must not have been told the end. The state of
/// the run must fit the reader's stage (`IsReady`). `payload` is scratch, for the bytes of a write.
pub fn answer_chunk<H, A: ModeHandler<H>, K: Sink>(
    reader: &mut Reader,
    mode_handler: &mut A,
    heap: &mut H,
    sink: &mut K,
    payload: &mut PayloadBuffer,
    chunk: &[u8],
) -> Result<(), Status>
    requires waiting { IsWaiting reader.old }
    requires open { reader.old.ended ≡ false }
    requires few { reader.old.fed + length chunk.now ≤ MOST_FED }
    requires ready { IsReady A.semantics (playing reader.old (A.state mode_handler.old heap.old)) }
    ensures goes { AnswersItems A.semantics (progress (playing reader.old (A.state mode_handler.old heap.old)) (K.state sink.old).written) chunk.now result
        (progress (playing reader.new (A.state mode_handler.new heap.new)) (K.state sink.new).written) }
    ensures sink { SinkFailsIf (fails_to_write result) (K.state sink.old) (K.state sink.new) }
{
    let mut at = 0;
    'feeds: while at < chunk.len() {
        at += reader.feed(&chunk[at..]);
        match answer_pending_items(reader, mode_handler, heap, sink, payload) {
            Ok(()) => {}
            Err(status) => return Err(status),
        }
    }
    Ok(())
}
