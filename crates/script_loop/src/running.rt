//! `play_script`, the loop of every mode that reads a script, and `Script::turn`, one turn of it, which takes one
//! chunk.
ghost use Rattle.std.specs.Prelude.{◌≡◌, ◌≤◌, ◌+◌};
ghost use Rattle.cf_io.specs.Feeds.{one_more, SinkFailsIf, SourceFailsIf};
ghost use Rattle.script_reader.specs.Reading.{fresh};
ghost use Rattle.script_loop.specs.ScriptOutcome.{MOST_BYTES, Plays, fails_to_read, fails_to_write};
ghost use Rattle.script_loop.specs.LoopTurn.{AwaitsChunk, TakesTurn, between, left_in, reading_in};

use crate::answering::{answer_chunk, answer_pending_items};
use crate::mode_handler::ModeHandler;
use cf_base::{CHUNK, Status};
use cf_io::{Sink, Source};
use script_reader::{PayloadBuffer, Reader};

/// The most bytes of a script.
pub const LIMIT: usize = 268_435_455;

/// A script between two chunks: its reader, a buffer for the bytes of a write, and `left`, how many
/// more bytes may be taken before the script has `LIMIT` bytes.
#[derive(Drop)]
pub struct Script {
    reader: Reader,
    payload: PayloadBuffer,
    left: usize,
}

impl Script {
    /// For the loop, a script before its first chunk.
    pub fn new() -> Script
        ensures reading { reading_in result ≡ fresh }
        ensures left { left_in result ≡ MOST_BYTES }
    {
        Script {
            reader: Reader::new(),
            payload: PayloadBuffer::new(),
            left: LIMIT,
        }
    }

    /// One turn of the loop: takes one chunk, lets `mode_handler` answer each item whose line is
    /// complete, and returns true. Call it on a new script with a fresh state of handler and heap,
    /// or after a turn that returned true. Returns false if the source has ended; then no byte was
    /// taken. An error is the status with which the script ends: at a bad line, if the source or the
    /// sink fails, if an allocation fails at the `heap` line, and if the chunk passes the limit (its
    /// items within the limit are answered first).
    pub fn turn<H, A: ModeHandler<H>, S: Source, K: Sink>(
        &mut self,
        mode_handler: &mut A,
        heap: &mut H,
        source: &mut S,
        sink: &mut K,
    ) -> Result<bool, Status>
        requires { AwaitsChunk A.semantics (between self.old (A.state mode_handler.old heap.old) (K.state sink.old).written (S.state source.old).rest (S.state source.old).given) }
        ensures once { (S.state source.new).calls ≡ one_more (S.state source.old).calls }
        ensures few { (S.state source.new).given ≤ (S.state source.old).given + CHUNK }
        ensures turn { TakesTurn A.semantics
            (between self.old (A.state mode_handler.old heap.old) (K.state sink.old).written (S.state source.old).rest (S.state source.old).given) result
            (between self.new (A.state mode_handler.new heap.new) (K.state sink.new).written (S.state source.new).rest (S.state source.new).given) }
        ensures source { SourceFailsIf (fails_to_read result) (S.state source.old) (S.state source.new) }
        ensures sink { SinkFailsIf (fails_to_write result) (K.state sink.old) (K.state sink.new) }
    {
        let mut buffer = [0; CHUNK];
        let n = match source.take(&mut buffer) {
            Ok(n) => n,
            Err(_) => return Err(Status::ReadFault),
        };
        if n == 0 {
            return Ok(false);
        }
        let within = n.min(self.left);
        match answer_chunk(
            &mut self.reader,
            mode_handler,
            heap,
            sink,
            &mut self.payload,
            &buffer[..within],
        ) {
            Ok(()) => {}
            Err(status) => return Err(status),
        }
        if n > self.left {
            return Err(Status::TooLong);
        }
        self.left -= n;
        Ok(true)
    }
}

/// Runs a script: takes chunks from the source until it ends, and lets the mode handler answer each
/// whole line before the next chunk, and a last line without line feed at the end. It stops earlier
/// at a bad line, if the source or the sink fails, if an allocation fails at the `heap` line, and
/// past 268,435,455 bytes. The status shows how the script ended (`IsStatusRow`). The state of
/// handler and heap must be fresh (`is_fresh` of the semantics).
pub fn play_script<H, A: ModeHandler<H>, S: Source, K: Sink>(
    mode_handler: &mut A,
    heap: &mut H,
    source: &mut S,
    sink: &mut K,
) -> Status
    requires { A.semantics.is_fresh (A.state mode_handler.old heap.old) }
    ensures { Plays A.semantics (A.state mode_handler.old heap.old)
        (S.state source.old) (K.state sink.old) result (S.state source.new) (K.state sink.new)
        (A.state mode_handler.new heap.new) }
{
    let mut script = Script::new();
    'turns: loop {
        match script.turn(mode_handler, heap, source, sink) {
            Ok(true) => {}
            Ok(false) => break,
            Err(status) => return status,
        }
    }
    script.reader.finish();
    match answer_pending_items(
        &mut script.reader,
        mode_handler,
        heap,
        sink,
        &mut script.payload,
    ) {
        Ok(()) => Status::Done,
        Err(status) => status,
    }
}
