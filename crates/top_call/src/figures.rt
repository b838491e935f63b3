//! The numbers that mode `bench` prints, and the line in which it prints them.
ghost use Rattle.std.specs.Prelude.{◌≡◌, []};
ghost use Rattle.top_call.specs.Bench.{IsTextWritten, bench_line};
ghost use Rattle.run_model.specs.Terms.{led, said, SinkFailsIf};
ghost use Rattle.script_loop.specs.ScriptOutcome.{is_write_fault};

use cf_base::Status;
use cf_io::{Line, Sink, push_field, put_line};

/// The numbers of a bench: the commands applied, and how many of their replies were good (`ok` or
/// the bytes of a read) and how many were refusals (`refused`). At the end: the live objects
/// (`live`), the pages or blocks in use (`pages`), and the number of moves of objects since the
/// opening (`moves`).
#[derive(Clone, Copy, Debug, PartialEq, Eq)]
pub struct BenchFigures {
    pub commands: u64,
    pub ok: u64,
    pub refused: u64,
    pub live: u32,
    pub pages: u32,
    pub moves: u64,
}

impl BenchFigures {
    /// In mode `bench`, writes the line of the numbers. Returns `Done`; or `WriteFault` if the sink
    /// failed, and then a prefix of the line was written.
    pub(crate) fn put<K: Sink>(&self, sink: &mut K) -> Status
        ensures written { IsTextWritten result (K.state sink.old).written (led [] (said (bench_line self.now))) (K.state sink.new).written }
        ensures sink { SinkFailsIf (is_write_fault result) (K.state sink.old) (K.state sink.new) }
    {
        let mut line = Line::new();
        push_field(&mut line, b"bench commands ", self.commands);
        push_field(&mut line, b" ok ", self.ok);
        push_field(&mut line, b" refused ", self.refused);
        push_field(&mut line, b" live ", self.live as u64);
        push_field(&mut line, b" pages ", self.pages as u64);
        push_field(&mut line, b" moves ", self.moves);
        match put_line(&mut line, sink) {
            Ok(()) => Status::Done,
            Err(_) => Status::WriteFault,
        }
    }
}
