//! Tests of modes `slice`, `quota`, `large`, `save` and `load`: each call of the source, then each call of the
//! sink, fails in turn, and no call follows it. In each mode with replies, `run` and `compare` too, a line is
//! answered before the next one is read.

use super::faults::MOVE;
use super::watched::{Log, WatchedSink, WatchedSource};
use super::{ROOM, closed_managers, command_line};
use cf_base::{Kind, Status};
use cf_io::{MemSink, MemSource};
use std::test::Fail;
use top_call::cf_main;

/// How a mode is tried: the arguments, the input, and the output if no call fails. The last field is true if each
/// line of the input gets one line of output; it is false if the output is written at the end.
type Case = (&'static [&'static str], &'static [u8], &'static [u8], bool);

/// An image of a heap with the three bytes `abc` under the id 7.
const IMAGE: &[u8] = b"CFI1\x01\0\0\0\0\x02\0\0\x04\0\0\0\x01\0\0\0\x07\0\x03\0\0\0abc";

/// A script that makes what `IMAGE` has, as mode `load` prints it.
const IMAGED: &[u8] = b"heap 1 512 1 4\nm 7 3\nw 7 0 616263\n";

/// A case for each of five modes. `checks/documents/replies.md` explains the replies of such scripts.
const CASES: [Case; 5] = [
    (
        &["slice", "--quantum", "8"],
        b"heap 2 512 1 8\nm 1 176\nm 2 176\nm 3 176\nm 4 176\nw 2 0 a1\nf 1\nf 3\ns\ns\nf 3\nr 2 0 1\nm 6 504\n",
        b"ok\nok\nok\nok\nok\nok\nok\nbusy\nleft 7\nleft 0\nok\n=a1\nbusy\n",
        true,
    ),
    (
        &["quota"],
        b"heap 3 512 1 8\nquota 0 2\nquota 1 1\nquota 2 1\nt 0\nm 1 504\nm 2 504\nm 3 504\nt 1\nm 1 504\nm 2 8\n",
        b"ok\nok\nok\nrefused sum\nok\nok\nok\nrefused space\nok\nok\nrefused space\n",
        true,
    ),
    (
        &["large"],
        b"heap 4 512 1 16\nm 1 1000\nm 2 505\nm 3 505\nw 1 500 0102030405060708\nr 1 500 8\nr 1 996 5\nf 1\nm 3 505\n",
        b"ok\nok\nok\nrefused space\nok\n=0102030405060708\nrange\nok\nok\n",
        true,
    ),
    (&["save"], IMAGED, IMAGE, false),
    (&["load"], IMAGE, IMAGED, false),
];

/// How a call ended: its status, the sink with what was written, and whether no call of source or sink came
/// after one that failed (`stopped`).
#[derive(Drop)]
struct Ended {
    status: Status,
    sink: MemSink,
    stopped: bool,
}

/// Runs a case on a source that returns at most 7 bytes a call and a sink that takes at most 5. Call number `take`
/// of the source and call number `put` of the sink fail, both counted from 0. Returns how the call of `cf_main`
/// ended.
fn played(rt: &HostRuntime, case: &Case, take: u64, put: u64) -> Result<Ended, Fail> {
    let alloc = rt.alloc();
    let (words, read, _, _) = *case;
    let (chunks, parts) = (vec![in alloc; 7; 64]?, vec![in alloc; 5; 128]?);
    let log = Log::new();
    let mut source = WatchedSource {
        source: MemSource::new(read.to_vec(alloc)?, chunks, vec![in alloc; take; 1]?),
        log: &log,
        taken: 0,
        replies: 0,
    };
    let fails = vec![in alloc; put; 1]?;
    let mut sink = WatchedSink {
        sink: MemSink::new(alloc, ROOM, parts, fails).map_err(|_| "room")?,
        log: &log,
    };
    let mut managers = closed_managers(rt, [Kind::NonMoving].as_slice())?;
    let line = command_line(rt, words)?;
    let status = cf_main(
        rt,
        alloc,
        line.as_slice(),
        &mut source,
        &mut sink,
        &mut managers,
    );
    let stopped = log.ends_at_a_fault();
    Ok(Ended {
        status,
        sink: sink.sink,
        stopped,
    })
}

/// The number of a call that is never made: with it as `take` or `put` of `played`, no call of the
/// source or of the sink fails.
const NEVER: u64 = u64::MAX;

/// Returns the first `count` lines of a text; the whole text if it has fewer.
fn first_lines(text: &[u8], count: usize) -> &[u8] {
    let mut left = count;
    for (i, byte) in text.iter().enumerate() {
        if left == 0 {
            return text.get(..i).unwrap_or(text);
        }
        if *byte == b'\n' {
            left -= 1;
        }
    }
    text
}

/// Returns how many lines of `read` end within its first `bytes` bytes.
fn lines_within(read: &[u8], bytes: usize) -> usize {
    read.get(..bytes)
        .unwrap_or(read)
        .iter()
        .filter(|byte| **byte == b'\n')
        .count()
}

/// Returns what must be written if this call of the source fails, and each call before it returned 7 bytes: the
/// replies to the whole lines read by then; in modes `save` and `load` nothing.
fn written_at(case: &Case, call: u64) -> &'static [u8] {
    let (_, read, text, by_line) = *case;
    if by_line {
        first_lines(text, lines_within(read, 7 * (call as usize).min(1_000)))
    } else {
        b""
    }
}

/// Lets call 0, 1, and so on of the source fail, in a run each, until a run makes no such call and ends with
/// `Done`. Returns the number of calls that failed, `None` if a run has a wrong outcome or 64 calls fail. Each run
/// must end at its fault with `ReadFault`, and have written what `written_at` says.
fn read_faults(rt: &HostRuntime, case: &Case) -> Result<Option<u64>, Fail> {
    for call in 0..64u64 {
        let ended = played(rt, case, call, NEVER)?;
        if ended.status == Status::Done {
            return Ok(Some(call));
        }
        if ended.status != Status::ReadFault
            || !ended.stopped
            || ended.sink.written() != written_at(case, call)
        {
            return Ok(None);
        }
    }
    Ok(None)
}

/// Lets call 0, 1, and so on of the sink fail, in a run each, until a run makes no such call and
/// ends with `Done`. Returns the number of calls that failed, `None` if a run has a wrong outcome
/// or 128 calls fail. Each run must end at its fault with `WriteFault`, and leave a longer prefix of
/// the text than the run before; the last run must write the whole text.
fn write_faults(rt: &HostRuntime, case: &Case) -> Result<Option<u64>, Fail> {
    let (_, _, text, _) = *case;
    let mut shorter = 0;
    for call in 0..128u64 {
        let ended = played(rt, case, NEVER, call)?;
        let written = ended.sink.written();
        if ended.status == Status::Done {
            return Ok(if written == text { Some(call) } else { None });
        }
        let longer = call == 0 || written.len() > shorter;
        if ended.status != Status::WriteFault
            || !ended.stopped
            || !longer
            || !text.starts_with(written)
        {
            return Ok(None);
        }
        shorter = written.len();
    }
    Ok(None)
}

/// Each call of the source and of the sink fails in turn, and ends the run. The source returns 7 bytes a call, so
/// a script of n bytes takes n / 7 calls, rounded up, and one more that finds the end. In modes `save` and `load`
/// the calls are not counted.
#[test]
fn each_fault_ends_the_run_in_the_other_modes(rt: HostRuntime) -> Result<(), Fail> {
    for case in CASES {
        let (words, read, _, by_line) = case;
        let takes = read_faults(&rt, &case)?;
        let puts = write_faults(&rt, &case)?;
        assert!(rt;
            takes.is_some() && puts.is_some(),
            "{words:?}: {takes:?} {puts:?}"
        );
        if by_line {
            assert_eq!(rt;
                takes,
                Some((read.len().div_ceil(7) as u64).saturating_add(1)),
                "{words:?}"
            );
        }
    }
    Ok(())
}

/// Returns the lengths in bytes of the lines of a script, each with its line feed.
fn line_lengths(rt: &HostRuntime, script: &[u8]) -> Result<Vec<usize>, Fail> {
    let mut lengths = Vec::new(rt.alloc());
    let mut begin = 0;
    for (i, byte) in script.iter().enumerate() {
        if *byte == b'\n' {
            lengths.push(i.saturating_add(1).saturating_sub(begin))?;
            begin = i.saturating_add(1);
        }
    }
    Ok(lengths)
}

/// Runs `cf_main` with the arguments `words` and closed managers of these kinds, on a script that arrives line
/// by line. Returns whether each line gets `replies` lines of output before the next line is read, and the script
/// is run to its end.
fn is_in_turn(
    rt: &HostRuntime,
    words: &[&str],
    script: &[u8],
    replies: u64,
    kinds: &[Kind],
) -> Result<bool, Fail> {
    let alloc = rt.alloc();
    let log = Log::new();
    let lengths = line_lengths(rt, script)?;
    let lines = lengths.len() as u64;
    let mut source = WatchedSource {
        source: MemSource::new(script.to_vec(alloc)?, lengths, Vec::new(alloc)),
        log: &log,
        taken: 0,
        replies,
    };
    let mut sink = WatchedSink {
        sink: MemSink::new(alloc, ROOM, Vec::new(alloc), Vec::new(alloc)).map_err(|_| "room")?,
        log: &log,
    };
    let mut managers = closed_managers(rt, kinds)?;
    let line = command_line(rt, words)?;
    let status = cf_main(
        rt,
        alloc,
        line.as_slice(),
        &mut source,
        &mut sink,
        &mut managers,
    );
    // One call for each line, and one that finds the end.
    Ok(status == Status::Done && log.is_in_turn() && source.taken == lines.saturating_add(1))
}

/// In each mode with replies, the reply to a line is written before the next line is read.
#[test]
fn each_line_is_answered_before_the_next_is_taken(rt: HostRuntime) -> Result<(), Fail> {
    let four = [Kind::Moving, Kind::NonMoving, Kind::Tlsf, Kind::HalfFit];
    assert!(rt; is_in_turn(&rt, &[], MOVE, 1, four.as_slice())?);
    assert!(rt; is_in_turn(&rt, &["compare"], MOVE, 4, four.as_slice())?);
    for case in CASES {
        let (words, read, _, by_line) = case;
        if by_line {
            assert!(rt;
                is_in_turn(&rt, words, read, 1, [].as_slice())?,
                "{words:?}"
            );
        }
    }
    Ok(())
}
