//! The source over a reader of std, for instance standard input, and the sink over a writer of std,
//! for instance standard output. Their calls are counted as the traits `Source` and `Sink` say.
ghost use Rattle.std.specs.Prelude.{◌≡◌, ◌<◌, ◌≤◌, false, None, length, take, IfOk, IfSome};
ghost use Rattle.std.specs.Io.KnownBytes.{Appends};
ghost use Rattle.cf_io.specs.Devices.{ReadsFrom, WritesTo, reader_of, sink_seen, source_seen, writer_of};
ghost use Rattle.cf_io.specs.Feeds.{PutsSome, Takes};

use crate::sink::Sink;
use crate::source::Source;
use cf_base::Failed;
use std::io::{Read, Write};

/// A source that reads from a reader of std. `given` counts the bytes that the source returned,
/// `calls` its calls, and `faults` those that failed; all three saturate. `failed` is whether the
/// last call failed. A call fails if and only if the reader does. The bytes left are not
/// observable.
#[derive(Drop)]
pub struct StdSource<T> {
    reader: T,
    given: u64,
    calls: u64,
    faults: u64,
    failed: bool,
}

impl<T> StdSource<T> {
    /// A source over this reader, before its first call.
    pub fn new(reader: T) -> StdSource<T>
        ensures reader { reader_of result ≡ reader }
        ensures state { source_seen result ≡ record { rest = None; given = 0; calls = 0; faults = 0; last_failed = false } }
    {
        StdSource {
            reader,
            given: 0,
            calls: 0,
            faults: 0,
            failed: false,
        }
    }
}

impl<T: Read> Source for StdSource<T> {
    ghost state = { source_seen };

    /// `StdSource`: reads once from the reader into `buf`. Returns how many bytes it read, or
    /// `Failed` if the reader fails.
    fn take(&mut self, buf: &mut [u8]) -> Result<usize, Failed>
        ensures bytes { ReadsFrom T.remaining self.old result self.new buf.new }
        ensures takes { Takes (source_seen self.old) result buf.new (source_seen self.new) }
    {
        self.calls = self.calls.saturating_add(1);
        match self.reader.read(buf) {
            Ok(n) => {
                self.given = self.given.saturating_add(n as u64);
                self.failed = false;
                Ok(n)
            }
            Err(_) => {
                self.faults = self.faults.saturating_add(1);
                self.failed = true;
                Err(Failed)
            }
        }
    }
}

/// A sink that writes to a writer of std, and flushes after each write. A call fails if the write or the
/// flush fails, or if there are bytes and the writer takes none. `faults` counts these calls and saturates;
/// `failed` is whether the last call failed. The bytes written are not observable.
#[derive(Drop)]
pub struct StdSink<T> {
    writer: T,
    faults: u64,
    failed: bool,
}

impl<T> StdSink<T> {
    /// A sink over this writer, before its first call.
    pub fn new(writer: T) -> StdSink<T>
        ensures writer { writer_of result ≡ writer }
        ensures state { sink_seen result ≡ record { written = None; faults = 0; last_failed = false } }
    {
        StdSink {
            writer,
            faults: 0,
            failed: false,
        }
    }
}

/// For `StdSink`, makes one write of the bytes, then flushes. Returns how many bytes the writer
/// took; `None` if the write or the flush fails, or if there are bytes and the writer takes none.
fn write_and_flush<T: Write>(writer: &mut T, bytes: &[u8]) -> Option<usize>
    ensures within { IfSome result (λ n. n ≤ length bytes.now) }
    ensures some { 0 < length bytes.now → IfSome result (λ n. 0 < n) }
    ensures bytes { IfSome result (λ n. Appends (T.contents writer.old) (T.contents writer.new) (take n bytes.now)) }
{
    match writer.write(bytes) {
        Ok(n) if n > 0 || bytes.len() == 0 => match writer.flush() {
            Ok(()) => Some(n),
            Err(_) => None,
        },
        _ => None,
    }
}

impl<T: Write> Sink for StdSink<T> {
    ghost state = { sink_seen };

    /// `StdSink`: writes the bytes once, then flushes. Returns how many bytes the writer took.
    /// Fails if the write or the flush fails, or if there are bytes and the writer takes none.
    fn put(&mut self, bytes: &[u8]) -> Result<usize, Failed>
        ensures bytes { IfOk result (λ n. WritesTo T.contents self.old (take n bytes.now) self.new) }
        ensures puts { PutsSome (sink_seen self.old) bytes.now result (sink_seen self.new) }
    {
        match write_and_flush(&mut self.writer, bytes) {
            Some(n) => {
                self.failed = false;
                Ok(n)
            }
            None => {
                self.faults = self.faults.saturating_add(1);
                self.failed = true;
                Err(Failed)
            }
        }
    }
}
