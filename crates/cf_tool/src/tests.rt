//! Tests of what no script on the built program can show: managers that the caller of `cf_main`
//! passes in, sources and sinks that fail at a given call, the memory that heaps ask for, and the
//! choice that arguments make. `checks/documents` and `checks/one_output` test the replies. This
//! file has the helpers that its modules share, and a test of a script without end.
mod arguments;
mod faults;
mod managers;
mod opening;
mod own_faults;
mod requested;
mod watched;

use cf_base::{Kind, Status};
use cf_io::{LoopSource, MemSink, Source, SureSource};
use cf_model::{Boxed, Manager};
use half_fit_heap::HalfFitHeap;
use moving_heap::MovingHeap;
use nonmoving_heap::NonMovingHeap;
use std::alloc::AllocError;
use std::test::Fail;
use step_ledger::Meter;
use tlsf_heap::TlsfHeap;
use top_call::cf_main;

/// How many bytes a sink of these tests has room for, more than any of these tests writes.
const ROOM: usize = 65_536;

/// Returns the arguments of a command line: the program's name, then these words.
fn command_line(rt: &HostRuntime, words: &[&str]) -> Result<Vec<String>, AllocError> {
    let alloc = rt.alloc();
    let mut line = Vec::new(alloc);
    line.push(String::from_str(alloc, "cf_tool")?)?;
    for word in words {
        line.push(String::from_str(alloc, word)?)?;
    }
    Ok(line)
}

/// Returns a sink whose every call takes all bytes that it is passed.
fn plain_sink(rt: &HostRuntime) -> Result<MemSink, Fail> {
    let alloc = rt.alloc();
    let sink = MemSink::new(alloc, ROOM, Vec::new(alloc), Vec::new(alloc)).map_err(|_| "room")?;
    Ok(sink)
}

/// Returns a sink whose call number `call`, counted from 0, fails. All its other calls take all bytes that they
/// are passed.
fn failing_sink(rt: &HostRuntime, call: u64) -> Result<MemSink, Fail> {
    let alloc = rt.alloc();
    let fails = vec![in alloc; call; 1]?;
    let sink = MemSink::new(alloc, ROOM, Vec::new(alloc), fails).map_err(|_| "room")?;
    Ok(sink)
}

/// What a call of `cf_main` leaves: its status, and for each manager passed in the number of live objects,
/// `None` if it is closed.
#[derive(Drop)]
struct Left {
    status: Status,
    live: Vec<Option<u32>>,
}

/// Returns closed managers of these kinds, each in a box.
fn closed_managers(rt: &HostRuntime, kinds: &[Kind]) -> Result<Vec<Boxed>, AllocError> {
    let alloc = rt.alloc();
    let mut managers = Vec::new(alloc);
    for kind in kinds {
        let inner: Box<dyn Manager> = match kind {
            Kind::Moving => Box::new(alloc, MovingHeap::closed(alloc))?,
            Kind::NonMoving => Box::new(alloc, NonMovingHeap::closed(alloc))?,
            Kind::Tlsf => Box::new(alloc, TlsfHeap::closed(alloc))?,
            Kind::HalfFit => Box::new(alloc, HalfFitHeap::closed(alloc))?,
        };
        managers.push(Boxed { inner })?;
    }
    Ok(managers)
}

/// Runs `cf_main` with these arguments on these managers, and returns its status.
fn answer_on<S: Source>(
    rt: &HostRuntime,
    words: &[&str],
    managers: &mut Vec<Boxed>,
    source: &mut S,
    sink: &mut MemSink,
) -> Result<Status, AllocError> {
    let words = command_line(rt, words)?;
    Ok(cf_main(rt, rt.alloc(), words.as_slice(), source, sink, managers))
}

/// Runs `cf_main` with these arguments on closed managers of these kinds, and returns what it leaves.
fn answer_with<S: Source>(
    rt: &HostRuntime,
    words: &[&str],
    kinds: &[Kind],
    source: &mut S,
    sink: &mut MemSink,
) -> Result<Left, Fail> {
    let mut managers = closed_managers(rt, kinds)?;
    let status = answer_on(rt, words, &mut managers, source, sink)?;
    let mut live = Vec::new(rt.alloc());
    let mut meter = Meter::new(rt);
    for manager in &managers {
        live.push(if manager.is_open() {
            Some(manager.totals(meter.steps()).live)
        } else {
            None
        })?;
    }
    Ok(Left { status, live })
}

/// What a call of `cf_main` on closed managers leaves, and its sink with what was written.
#[derive(Drop)]
struct OutputOn {
    left: Left,
    sink: MemSink,
}

impl OutputOn {
    /// Returns whether the call returned this status, wrote this text, and left these numbers of live
    /// objects.
    fn is(&self, status: Status, text: &[u8], live: &[Option<u32>]) -> bool {
        self.left.status == status
            && self.sink.written() == text
            && self.left.live.as_slice() == live
    }
}

/// Runs `cf_main` with these arguments on this script and closed managers of these kinds, and
/// returns what it leaves and writes.
fn answered_on(
    rt: &HostRuntime,
    words: &[&str],
    kinds: &[Kind],
    script: &[u8],
) -> Result<OutputOn, Fail> {
    let mut source = SureSource::new(script.to_vec(rt.alloc())?);
    let mut sink = plain_sink(rt)?;
    let left = answer_with(rt, words, kinds, &mut source, &mut sink)?;
    Ok(OutputOn { left, sink })
}

/// Runs `cf_main` without arguments or managers on a source that repeats a comment line without
/// end, and returns what it leaves and writes.
fn answered_without_end(rt: &HostRuntime) -> Result<OutputOn, Fail> {
    let mut line = vec![in rt.alloc(); b'#'; 8_999]?;
    line.push(b'\n')?;
    let mut source = LoopSource::new(line);
    let mut sink = plain_sink(rt)?;
    let left = answer_with(rt, &[], &[], &mut source, &mut sink)?;
    Ok(OutputOn { left, sink })
}

/// A script may have at most 268,435,455 bytes. A script without end leads to the status `TooLong` and to no
/// output.
#[test]
fn a_script_with_no_end_is_too_long(rt: HostRuntime) -> Result<(), Fail> {
    let got = answered_without_end(&rt)?;
    assert!(rt; got.is(Status::TooLong, b"", &[]));
    Ok(())
}
