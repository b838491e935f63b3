//! Tests with managers that the caller passes in: what modes `run`, `compare` and `bench` print,
//! how many live objects these managers have afterwards, and what a sink that fails in mode
//! `compare` leaves.

use super::faults::{MOVE, MOVED};
use super::{OutputOn, answer_with, answered_on, failing_sink};
use cf_base::{Kind, Status};
use cf_io::SureSource;
use std::test::Fail;

/// A call of `cf_main`: what it shows, the arguments, the kinds of the managers passed in, which are closed,
/// the script, and then the status that it must return and the text that it must print.
#[derive(Clone, Copy)]
struct Case {
    shows: &'static str,
    words: &'static [&'static str],
    managers: &'static [Kind],
    script: &'static [u8],
    status: Status,
    text: &'static [u8],
    /// The number of live objects of each manager afterwards; `None` if it is still closed.
    live: &'static [Option<u32>],
}

/// Calls in modes `run`, `compare` and `bench`.
static CASES: [Case; 8] = [
    Case {
        shows: "the first of the kind answers, and no other one is touched",
        words: &[],
        managers: &[Kind::NonMoving, Kind::Moving, Kind::Moving],
        script: MOVE,
        status: Status::Done,
        text: MOVED,
        live: &[None, Some(3), None],
    },
    Case {
        shows: "a manager is made if none of the kind is passed in",
        words: &["run", "--manager", "nm"],
        managers: &[Kind::Moving],
        script: b"heap 1 512 1 4\nm 1 8\nb 1 0\n",
        status: Status::Done,
        text: b"ok\nok\nblock 0\n",
        live: &[None],
    },
    Case {
        shows: "no manager is passed in",
        words: &[],
        managers: &[],
        script: MOVE,
        status: Status::Done,
        text: MOVED,
        live: &[],
    },
    Case {
        shows: "a script that opens no heap",
        words: &["compare"],
        managers: &[Kind::Moving, Kind::NonMoving],
        script: b"# nothing\n",
        status: Status::Done,
        text: b"",
        live: &[None, None],
    },
    Case {
        shows: "a move on each of two managers",
        words: &["compare", "--manager", "nm"],
        managers: &[Kind::NonMoving, Kind::Moving],
        script: b"heap 2 512 1 8\nm 1 176\nm 2 176\nm 3 176\nm 4 176\nm 5 176\nw 2 0 a1b2\nf 1\nq 2\nf 3\nq 2\nr 2 0 2\nx\n",
        status: Status::BadScript,
        text: b"nm ok\ncf ok\nnm ok\ncf ok\nnm ok\ncf ok\nnm ok\ncf ok\nnm ok\ncf ok\nnm refused space\ncf refused space\nnm ok\ncf ok\nnm ok\ncf ok\nnm at 24\ncf at 23\nnm ok\ncf ok\nnm at 64\ncf at 64\nnm =a1b2\ncf =a1b2\nbad line 13\n",
        live: &[Some(2), Some(2)],
    },
    Case {
        shows: "compare prints nothing if no manager is passed in",
        words: &["compare"],
        managers: &[],
        script: MOVE,
        status: Status::Done,
        text: b"",
        live: &[],
    },
    Case {
        shows: "refused words touch no manager",
        words: &["compare", "again"],
        managers: &[Kind::Moving],
        script: MOVE,
        status: Status::Words,
        text: b"",
        live: &[None],
    },
    Case {
        shows: "a bench of the moving manager reads nothing and touches no manager",
        words: &["bench", "--seed", "0", "--count", "4"],
        managers: &[Kind::Moving, Kind::NonMoving],
        script: MOVE,
        status: Status::Done,
        text: b"bench commands 4 ok 1 refused 0 live 1 pages 1 moves 0\n",
        live: &[None, None],
    },
];

/// Runs a case. Returns whether it has the status, the output and the live objects that it names.
fn is_answered_so(rt: &HostRuntime, case: &Case) -> Result<bool, Fail> {
    let got = answered_on(rt, case.words, case.managers, case.script)?;
    Ok(got.is(case.status, case.text, case.live))
}

/// Returns the field `shows` of the first case whose outcome is not the one that it names; empty if each case has
/// the outcome that it names.
fn first_other(rt: &HostRuntime, cases: &[Case]) -> Result<&'static str, Fail> {
    for case in cases {
        if !is_answered_so(rt, case)? {
            return Ok(case.shows);
        }
    }
    Ok("")
}

/// Each call of `CASES` has its status and output, and leaves the managers with the live objects that it names.
#[test]
fn a_mode_answers_on_the_managers_that_it_names(rt: HostRuntime) -> Result<(), Fail> {
    assert_eq!(rt; first_other(&rt, CASES.as_slice())?, "");
    Ok(())
}

/// For the script of `answered_until`, a `heap` line, a malloc and a bad line, on two managers side by side: the
/// number of the sink's call that fails, counted from 0, what was written by then, and how many live objects each
/// manager has. The `heap` line opens all managers before its first reply.
const CUTS: [(u64, &'static [u8], [Option<u32>; 2]); 5] = [
    (0, b"", [Some(0), Some(0)]),
    (1, b"cf ok\n", [Some(0), Some(0)]),
    (2, b"cf ok\nnm ok\n", [Some(1), Some(0)]),
    (3, b"cf ok\nnm ok\ncf ok\n", [Some(1), Some(1)]),
    (4, b"cf ok\nnm ok\ncf ok\nnm ok\n", [Some(1), Some(1)]),
];

/// Runs a script of a `heap` line, a malloc and a bad line on two managers side by side, while this call of the
/// sink fails. Returns what the run leaves and writes.
fn answered_until(rt: &HostRuntime, call: u64) -> Result<OutputOn, Fail> {
    let mut sink = failing_sink(rt, call)?;
    let mut source = SureSource::new(b"heap 1 512 1 4\nm 1 8\nx\n".to_vec(rt.alloc())?);
    let kinds = [Kind::Moving, Kind::NonMoving];
    let left = answer_with(rt, &["compare"], &kinds, &mut source, &mut sink)?;
    Ok(OutputOn { left, sink })
}

/// Returns whether, if this call of the sink fails in `answered_until`, the status is `WriteFault`, this text is
/// written and the managers have these numbers of live objects.
fn is_cut_so(rt: &HostRuntime, call: u64, text: &[u8], live: &[Option<u32>]) -> Result<bool, Fail> {
    let got = answered_until(rt, call)?;
    Ok(got.is(Status::WriteFault, text, live))
}

/// If the sink fails in mode `compare`, the managers up to the one whose reply was cut have done the command, and
/// the others have done it only if it is the `heap` line.
#[test]
fn a_cut_stops_between_two_managers(rt: HostRuntime) -> Result<(), Fail> {
    for (call, text, live) in CUTS {
        assert!(rt; is_cut_so(&rt, call, text, live.as_slice())?, "call {call}");
    }
    Ok(())
}
