//! Tests of modes `run` and `compare` with managers of each kind. While the script `MOVE` runs, one call of the
//! source or of the sink fails; each call has its turn. A test compares the status, the output and the managers
//! with what the lines done before the fault lead to.

use super::{ROOM, answer_on, closed_managers};
use cf_base::{Handle, Kind, Status};
use cf_io::{MemSink, MemSource};
use cf_model::{Boxed, Manager};
use std::alloc::{AllocError, Global};
use std::test::Fail;
use step_ledger::Meter;

/// A script with a free (`f 3`) that, on a manager with pages, moves another object into the freed slot and leaves
/// that object's page free.
pub const MOVE: &[u8] =
    b"heap 2 512 1 8\nm 1 176\nm 2 176\nm 3 176\nm 4 176\nm 5 176\nw 2 0 a1b2\nf 1\nq 2\nq 3\nf 3\nq 2\nm 6 504\nr 2 0 2\n";

/// What `MOVE` prints on the moving manager.
pub const MOVED: &[u8] =
    b"ok\nok\nok\nok\nok\nrefused space\nok\nok\nat 23\nat 64\nok\nat 64\nok\n=a1b2\n";

/// What these tests call the state of an open manager: the number of its live objects, and the address in words
/// of the object with handle 1 (id 2), if that object is live.
type ManagerState = (u32, Option<u32>);

/// The state of a manager after 0, 1, and so on up to 14 lines of `MOVE`; `None` while it is closed.
type StatesByLine = [Option<ManagerState>; 15];

/// The states of the moving manager. The line `f 3` moves the object with handle 1 from word 23 to word 64.
const MOVING: StatesByLine = [
    None,
    Some((0, None)),
    Some((1, None)),
    Some((2, Some(23))),
    Some((3, Some(23))),
    Some((4, Some(23))),
    Some((4, Some(23))),
    Some((4, Some(23))),
    Some((3, Some(23))),
    Some((3, Some(23))),
    Some((3, Some(23))),
    Some((2, Some(64))),
    Some((2, Some(64))),
    Some((3, Some(64))),
    Some((3, Some(64))),
];

/// The states of the non-moving manager, in which the objects of 176 bytes have slots of 24 words. The line `f 3`
/// moves the object with handle 1 from word 24 to word 64.
const NON_MOVING: StatesByLine = [
    None,
    Some((0, None)),
    Some((1, None)),
    Some((2, Some(24))),
    Some((3, Some(24))),
    Some((4, Some(24))),
    Some((4, Some(24))),
    Some((4, Some(24))),
    Some((3, Some(24))),
    Some((3, Some(24))),
    Some((3, Some(24))),
    Some((2, Some(64))),
    Some((2, Some(64))),
    Some((3, Some(64))),
    Some((3, Some(64))),
];

/// The states of a manager with blocks, which moves no object. Five blocks of 24 words fit the region of 128
/// words, and the last malloc, of a whole page, is refused.
const BLOCKS: StatesByLine = [
    None,
    Some((0, None)),
    Some((1, None)),
    Some((2, Some(24))),
    Some((3, Some(24))),
    Some((4, Some(24))),
    Some((5, Some(24))),
    Some((5, Some(24))),
    Some((4, Some(24))),
    Some((4, Some(24))),
    Some((4, Some(24))),
    Some((3, Some(24))),
    Some((3, Some(24))),
    Some((3, Some(24))),
    Some((3, Some(24))),
];

/// One way to run `MOVE`, and what it leads to if no call fails: the arguments (`words`), the kinds of the
/// managers, the whole output (`text`), and in `stands` the states of each manager. `calls` is the number of calls
/// in which a sink that takes at most 5 bytes a call gets the whole output.
#[derive(Clone, Copy)]
struct Answers {
    words: &'static [&'static str],
    kinds: &'static [Kind],
    text: &'static [u8],
    stands: &'static [StatesByLine],
    calls: u64,
}

/// The ways to run `MOVE`: mode `run` on each of the four kinds, and mode `compare` on all of them.
const ANSWERS: [Answers; 5] = [
    Answers {
        words: &[],
        kinds: &[Kind::Moving],
        text: MOVED,
        stands: &[MOVING],
        calls: 20,
    },
    Answers {
        words: &["--manager", "nm"],
        kinds: &[Kind::NonMoving],
        text: b"ok\nok\nok\nok\nok\nrefused space\nok\nok\nat 24\nat 64\nok\nat 64\nok\n=a1b2\n",
        stands: &[NON_MOVING],
        calls: 20,
    },
    Answers {
        words: &["--manager", "tlsf"],
        kinds: &[Kind::Tlsf],
        text: b"ok\nok\nok\nok\nok\nok\nok\nok\nat 24\nat 48\nok\nat 24\nrefused space\n=a1b2\n",
        stands: &[BLOCKS],
        calls: 20,
    },
    Answers {
        words: &["--manager", "half"],
        kinds: &[Kind::HalfFit],
        text: b"ok\nok\nok\nok\nok\nok\nok\nok\nat 24\nat 48\nok\nat 24\nrefused space\n=a1b2\n",
        stands: &[BLOCKS],
        calls: 20,
    },
    Answers {
        words: &["compare"],
        kinds: &[Kind::Moving, Kind::NonMoving, Kind::Tlsf, Kind::HalfFit],
        text: b"cf ok\nnm ok\ntlsf ok\nhalf ok\ncf ok\nnm ok\ntlsf ok\nhalf ok\ncf ok\nnm ok\ntlsf ok\nhalf ok\ncf ok\nnm ok\ntlsf ok\nhalf ok\ncf ok\nnm ok\ntlsf ok\nhalf ok\ncf refused space\nnm refused space\ntlsf ok\nhalf ok\ncf ok\nnm ok\ntlsf ok\nhalf ok\ncf ok\nnm ok\ntlsf ok\nhalf ok\ncf at 23\nnm at 24\ntlsf at 24\nhalf at 24\ncf at 64\nnm at 64\ntlsf at 48\nhalf at 48\ncf ok\nnm ok\ntlsf ok\nhalf ok\ncf at 64\nnm at 64\ntlsf at 24\nhalf at 24\ncf ok\nnm ok\ntlsf refused space\nhalf refused space\ncf =a1b2\nnm =a1b2\ntlsf =a1b2\nhalf =a1b2\n",
        stands: &[MOVING, NON_MOVING, BLOCKS, BLOCKS],
        calls: 128,
    },
];

/// For each call of a source that returns `MOVE`, 7 bytes a call: how many whole lines were returned before it.
const LINES: [usize; 16] = [0, 0, 0, 1, 2, 3, 4, 5, 6, 6, 8, 9, 11, 12, 13, 14];

/// Returns the state of a manager; `None` if it is closed.
fn state_of_manager(rt: &HostRuntime, manager: &Boxed) -> Option<ManagerState> {
    let mut meter = Meter::new(rt);
    if manager.is_open() {
        let live = manager.totals(meter.steps()).live;
        Some((live, manager.place(Handle(1), meter.steps())))
    } else {
        None
    }
}

/// A call that fails, and the outcome. If a call of the source fails, `take` is its number; if a call of the
/// sink fails, `put` is its number. Both count from 0. Each call of the source that doesn't fail returns 7
/// bytes, or fewer at the end, and each such call of the sink takes at most 5. `written` counts the bytes
/// written, and `lines` the lines that have taken effect. If a call of the sink fails, the reply that it cuts is
/// that of manager number `cut`, counted from 0; on the managers after it one line less has taken effect, unless
/// the line is the `heap` line. If no call of the sink fails, `cut` is 4, past the last manager.
#[derive(Clone, Copy, Debug)]
struct Fault {
    take: Option<u64>,
    put: Option<u64>,
    status: Status,
    written: usize,
    lines: usize,
    cut: usize,
}

/// Returns the list of the calls that fail, for a source or a sink: the number `call` alone; the empty list at
/// `None`.
fn failing(alloc: Global, call: Option<u64>) -> Result<Vec<u64>, AllocError> {
    let mut fails = Vec::new(alloc);
    if let Some(call) = call {
        fails.push(call)?;
    }
    Ok(fails)
}

/// Returns whether each manager has its state of `answers.stands` after `fault.lines` lines, or after one line less
/// if it comes after manager number `fault.cut`. The `heap` line opens all managers before the first reply, so this
/// line has taken effect on each.
fn have_states(rt: &HostRuntime, answers: &Answers, managers: &Vec<Boxed>, fault: &Fault) -> bool {
    for (i, manager) in managers.iter().enumerate() {
        let late = i > fault.cut && fault.lines > 1;
        let lines = fault.lines.saturating_sub(late as usize);
        let Some(wanted) = answers.stands.get(i).and_then(|stands| stands.get(lines)) else {
            return false;
        };
        if state_of_manager(rt, manager) != *wanted {
            return false;
        }
    }
    true
}

/// Runs the script `MOVE` in the way of `answers`, while the call of the source or of the sink that `fault` names
/// fails. Returns whether the status is that of `fault`, the output is the first `fault.written` bytes of
/// `answers.text`, and the managers have their states (`have_states`).
fn leaves_so(rt: &HostRuntime, answers: &Answers, fault: &Fault) -> Result<bool, Fail> {
    let alloc = rt.alloc();
    let (chunks, parts) = (vec![in alloc; 7; 16]?, vec![in alloc; 5; 128]?);
    let mut source = MemSource::new(MOVE.to_vec(alloc)?, chunks, failing(alloc, fault.take)?);
    let fails = failing(alloc, fault.put)?;
    let mut sink = MemSink::new(alloc, ROOM, parts, fails).map_err(|_| "room")?;
    let mut managers = closed_managers(rt, answers.kinds)?;
    let status = answer_on(rt, answers.words, &mut managers, &mut source, &mut sink)?;
    let text = answers.text.get(..fault.written).ok_or("a shorter text")?;
    Ok(
        status == fault.status
            && sink.written() == text
            && have_states(rt, answers, &managers, fault),
    )
}

/// Returns the length in bytes of the first `count` lines of a text; of the whole text if it has fewer.
fn length_of_lines(text: &[u8], count: usize) -> usize {
    let mut left = count;
    for (i, byte) in text.iter().enumerate() {
        if left == 0 {
            return i;
        }
        if *byte == b'\n' {
            left -= 1;
        }
    }
    text.len()
}

/// Returns the `Fault` whose calls `take` and `put` are past the last calls that are made, so that no call fails and
/// the script runs to its end.
fn whole(answers: &Answers, take: Option<u64>, put: Option<u64>) -> Fault {
    Fault {
        take,
        put,
        status: Status::Done,
        written: answers.text.len(),
        lines: 14,
        cut: 4,
    }
}

/// If a call of the source fails, the output is the replies to the whole lines read before it.
#[test]
fn a_read_fault_leaves_the_replies_of_the_whole_lines(rt: HostRuntime) -> Result<(), Fail> {
    for answers in ANSWERS {
        let mut call: u64 = 0;
        for lines in LINES {
            let replies = lines.saturating_mul(answers.kinds.len());
            let fault = Fault {
                take: Some(call),
                put: None,
                status: Status::ReadFault,
                written: length_of_lines(answers.text, replies),
                lines,
                cut: 4,
            };
            assert!(rt; leaves_so(&rt, &answers, &fault)?, "{fault:?}");
            call = call.saturating_add(1);
        }
        let whole = whole(&answers, Some(call), None);
        assert!(rt; leaves_so(&rt, &answers, &whole)?, "{whole:?}");
    }
    Ok(())
}

/// If a call of the sink fails, what the calls before it took is written, and no more. The line whose reply
/// was cut has taken effect on the managers up to the one whose reply it was; the `heap` line on all of them.
#[test]
fn a_write_fault_leaves_a_prefix_of_the_text(rt: HostRuntime) -> Result<(), Fail> {
    for answers in ANSWERS {
        let count = answers.kinds.len().max(1);
        let (mut call, mut reply, mut begin): (u64, usize, usize) = (0, 0, 0);
        for (i, byte) in answers.text.iter().enumerate() {
            if i.saturating_sub(begin) % 5 == 0 {
                let fault = Fault {
                    take: None,
                    put: Some(call),
                    status: Status::WriteFault,
                    written: i,
                    lines: (reply / count).saturating_add(1),
                    cut: reply % count,
                };
                assert!(rt; leaves_so(&rt, &answers, &fault)?, "{fault:?}");
                call = call.saturating_add(1);
            }
            if *byte == b'\n' {
                reply = reply.saturating_add(1);
                begin = i.saturating_add(1);
            }
        }
        assert_eq!(rt; call, answers.calls);
        let whole = whole(&answers, None, Some(call));
        assert!(rt; leaves_so(&rt, &answers, &whole)?, "{whole:?}");
    }
    Ok(())
}
