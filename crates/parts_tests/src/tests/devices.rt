//! Tests of `cf_io`: sources and sinks with their failures and short calls, and the line that a reply is written
//! into.
use cf_base::Failed;
use cf_io::{Full, Line, MemSink, NullSink, Sink, Source, StdSink, StdSource, put_all};
use std::io;
use std::io::{Read, Write};
use std::process::Abort;
use std::test::Fail;

/// Calls `take` once for each entry of `wanted`: `room`, `answer` and `held`. The buffer of the call is the first
/// `room` bytes, at most four, of an array of four, which are all `.` before the call. Tests that the call returns
/// `answer`, and that the array is `held` after the call.
fn takes_each<S: Source + Drop>(
    rt: &impl Abort,
    mut source: S,
    wanted: &[(usize, Result<usize, Failed>, &[u8])],
) {
    for (room, answer, held) in wanted {
        let mut buf = [b'.'; 4];
        assert_eq!(rt; source.take(&mut buf[..(*room).min(4)]), *answer);
        assert_eq!(rt; buf.as_slice(), *held);
    }
}

/// Calls `put` once for each entry of `wanted`, with its bytes, and tests that the call returns its result.
fn puts_each<K: Sink>(rt: &impl Abort, sink: &mut K, wanted: &[(&[u8], Result<usize, Failed>)]) {
    for (bytes, answer) in wanted {
        assert_eq!(rt; sink.put(bytes), *answer);
    }
}

// A `MemSink` with room for two bytes writes two of three, and fails when no room is left; a call without
// bytes doesn't fail. `NullSink` accepts all bytes.
#[test]
fn sinks_take_what_they_have_room_for(rt: HostRuntime) -> Result<(), Fail> {
    let alloc = rt.alloc();
    let small = MemSink::new(alloc, 2, Vec::new(alloc), Vec::new(alloc));
    let mut small = small.expect(&rt, "room for two");
    puts_each(
        &rt,
        &mut small,
        &[(b"ok\n", Ok(2)), (b"\n", Err(Failed)), (b"", Ok(0))],
    );
    assert_eq!(rt; small.written(), b"ok".as_slice());
    puts_each(&rt, &mut NullSink, &[(b"any", Ok(3)), (b"", Ok(0))]);
    Ok(())
}

/// A reader and writer of std for tests, which reads and writes nothing. Each call claims at most `moves` bytes. If
/// `breaks`, the first read or write fails, and unless `flushes` the first flush does. No later one fails, so that a
/// second try would show.
#[derive(Drop)]
struct Pipe {
    moves: usize,
    breaks: bool,
    flushes: bool,
}

impl Pipe {
    /// Returns how many of `len` bytes a read or a write claims, at most `moves`. If `breaks`, fails instead, and sets
    /// `breaks` to false.
    fn turn(&mut self, len: usize) -> io::Result<usize> {
        if self.breaks {
            self.breaks = false;
            return Err(io::Error::from(io::ErrorKind::BrokenPipe));
        }
        Ok(self.moves.min(len))
    }
}

impl Read for Pipe {
    // Claims bytes, or fails, as `turn` says; the buffer stays unchanged.
    fn read(&mut self, buf: &mut [u8]) -> io::Result<usize> {
        Ok(self.turn(buf.len())?.min(buf.len()))
    }
}

impl Write for Pipe {
    // Claims bytes, or fails, as `turn` says; the bytes are dropped.
    fn write(&mut self, buf: &[u8]) -> io::Result<usize> {
        Ok(self.turn(buf.len())?.min(buf.len()))
    }

    // Fails the first time unless `flushes`.
    fn flush(&mut self) -> io::Result<()> {
        if self.flushes {
            return Ok(());
        }
        self.flushes = true;
        Err(io::Error::from(io::ErrorKind::BrokenPipe))
    }
}

// Each row has the three fields of a `Pipe`, and the results of `StdSource` and of `StdSink` over it. The
// source fails if the reader does. The sink also fails if the writer takes none of the bytes, or if the
// flush fails. Neither tries a second time. Over a vector the sink appends all bytes.
#[test]
fn devices_of_std_fail_as_their_reader_or_writer_does(rt: HostRuntime) -> Result<(), Fail> {
    for (moves, breaks, flushes, taken, put) in [
        (2, false, true, Ok(2), Ok(2)),
        (0, false, true, Ok(0), Err(Failed)),
        (2, false, false, Ok(2), Err(Failed)),
        (2, true, true, Err(Failed), Err(Failed)),
    ] {
        let pipe = || Pipe {
            moves,
            breaks,
            flushes,
        };
        takes_each(&rt, StdSource::new(pipe()), &[(4, taken, b"....")]);
        puts_each(&rt, &mut StdSink::new(pipe()), &[(b"abc", put)]);
    }
    let mut text = Vec::new(rt.alloc());
    assert_eq!(rt; put_all(&mut StdSink::new(&mut text), b"ok\n"), Ok(()));
    assert_eq!(rt; text.as_slice(), b"ok\n".as_slice());
    Ok(())
}

/// Appends to the line a text, the largest number, a second text, two bytes in hex, and a word in hex. Fails if one of
/// these doesn't fit.
fn pushed(line: &mut Line) -> Result<(), Full> {
    line.push(b"last ")?;
    line.push_number(18_446_744_073_709_551_615)?;
    line.push(b" =")?;
    line.push_hex(b"\xa1\x0b")?;
    line.push_word(0xb_0000_00ab)
}

// Each push of `Line` appends what it must. A push that would pass 9,000 bytes fails with `Full` and
// appends nothing: after 8,998 bytes neither three bytes fit nor the four digits of two, but the two digits
// of one do.
#[test]
fn a_line_is_full_past_nine_thousand_bytes(rt: HostRuntime) -> Result<(), Fail> {
    let mut line = Line::new();
    let want = b"last 18446744073709551615 =a10b0000000b000000ab";
    assert_eq!(rt; pushed(&mut line), Ok(()));
    assert_eq!(rt; line.bytes(), want.as_slice());
    line.clear();
    assert_eq!(rt; line.push(&[b'#'; 8_998]), Ok(()));
    assert_eq!(rt; line.push(b"abc"), Err(Full));
    assert_eq!(rt; line.push_hex(b"ab"), Err(Full));
    assert_eq!(rt; line.push_hex(b"\x0f"), Ok(()));
    assert_eq!(rt; line.bytes().len(), 9_000);
    Ok(())
}
