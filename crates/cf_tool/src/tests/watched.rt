//! A source and a sink that note their calls in one log. The log says whether the replies to each chunk were
//! written before the next chunk was read, and whether a call followed one that failed.
ghost use Rattle.std.specs.Prelude.{◌≡◌};

use cf_base::Failed;
use cf_io::{Sink, Source};
use std::cell::Cell;

/// What the source and the sink of one call of `cf_main` have done so far.
#[derive(Drop)]
pub struct Log {
    /// The number of line feeds that the sink took.
    lines: Cell<u64>,
    /// Whether a call of the source or the sink has failed.
    failed: Cell<bool>,
    /// The number of calls of the source and the sink after the first that failed.
    after: Cell<u64>,
    /// Whether the source was called when the sink had taken fewer or more lines than the chunks before
    /// must get.
    early: Cell<bool>,
}

impl Log {
    /// Returns a log without calls.
    pub fn new() -> Log {
        Log {
            lines: Cell::new(0),
            failed: Cell::new(false),
            after: Cell::new(0),
            early: Cell::new(false),
        }
    }

    /// Returns whether no call of the source or the sink came after one that failed.
    pub fn ends_at_a_fault(&self) -> bool {
        self.after.get() == 0
    }

    /// Returns whether at each call of the source exactly the replies to all chunks before it were written.
    pub fn is_in_turn(&self) -> bool {
        !self.early.get()
    }

    /// Counts a call of the source or the sink if one before it failed.
    fn note_call(&self) {
        if self.failed.get() {
            self.after.set(self.after.get().saturating_add(1));
        }
    }
}

/// A source that takes its chunks from an inner source, and notes its calls in the log. `taken` counts its
/// calls; each of its chunks must get `replies` lines of output.
#[derive(Drop)]
pub struct WatchedSource<'a, S> {
    pub source: S,
    pub log: &'a Log,
    pub taken: u64,
    pub replies: u64,
}

impl<'a, S: Source> Source for WatchedSource<'a, S> {
    ghost state = { λ w. S.state w.source };

    /// `WatchedSource`: takes a chunk from the inner source, and returns its result. Notes the call, whether
    /// the call fails, and whether the sink has taken other than `replies` lines for each earlier call.
    fn take(&mut self, buf: &mut [u8]) -> Result<usize, Failed> {
        self.log.note_call();
        if self.log.lines.get() != self.taken.saturating_mul(self.replies) {
            self.log.early.set(true);
        }
        self.taken = self.taken.saturating_add(1);
        let result = self.source.take(buf);
        if result.is_err() {
            self.log.failed.set(true);
        }
        result
    }
}

/// A sink that passes its bytes to an inner sink, and notes its calls, and the lines taken, in the log.
#[derive(Drop)]
pub struct WatchedSink<'a, K> {
    pub sink: K,
    pub log: &'a Log,
}

impl<'a, K: Sink> Sink for WatchedSink<'a, K> {
    ghost state = { λ w. K.state w.sink };

    /// `WatchedSink`: passes the bytes to the inner sink, and returns its result. Notes the call, and how many
    /// line feeds the inner sink took, or that the call failed.
    fn put(&mut self, bytes: &[u8]) -> Result<usize, Failed> {
        self.log.note_call();
        let result = self.sink.put(bytes);
        match result {
            Ok(n) => {
                let lines = bytes[..n].iter().filter(|byte| **byte == b'\n').count() as u64;
                self.log
                    .lines
                    .set(self.log.lines.get().saturating_add(lines));
            }
            Err(_) => self.log.failed.set(true),
        }
        result
    }
}
