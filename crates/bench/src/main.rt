//! A program that makes calls on heaps without sessions, so that a profiler can count the instructions of each
//! call; docs/SPEED.md has the commands. The calls that are measured are in functions that are not inlined, so
//! that a profile shows them.
//!
//! Standard input is a script. Each line has 24 bytes: a letter, three numbers of 5, 7 and 7 digits with a
//! space before each, and a line feed. A number that isn't named below is read and not used.
//!
//! The first line opens a heap. Its letter is the kind of heap; its numbers are the pages, the bytes of
//! a page, and the bound k (for `s` the quantum in words; for `l` k is 1). The heap has 65,536 proxies (for `s` 256).
//!
//! - `c`, `n`, `t`, `h`: the moving, the non-moving, the TLSF and the Half-Fit manager.
//! - `l`: long objects over the moving manager.
//! - `s`: the sliced heap.
//!
//! The other lines are calls; a call that the heap doesn't have fails. ID is the script's number for an
//! object, below 65,536.
//!
//! - `m ID BYTES`, `f ID`, `z ID BYTES`: makes, frees, resizes an object.
//! - `w ID AT BYTES`, `r ID AT BYTES`: writes, reads BYTES bytes, 1,000,000 at most.
//! - `g 0 COUNT`: the first COUNT commands of the generator with seed 1; succeeds if one of them does.
//! - `s`: one call of `step` of the sliced heap, which does a slice of its pending job.
//! - `d 0 COUNT`: COUNT mallocs, frees and steps of the sliced heap, drawn at random.
#![tactic(auto)]

mod generated;
mod long;
mod manager;
mod script;
mod sliced;

use cf_base::Settings;
use cf_io::{Sink, Source, StdSink, StdSource};
use cf_model::Manager;
use half_fit_heap::HalfFitHeap;
use moving_heap::MovingHeap;
use nonmoving_heap::NonMovingHeap;
use script::{Line, Table};
use std::process::ExitCode;
use step_ledger::Meter;
use tlsf_heap::TlsfHeap;

/// For a profiler, reads all bytes of standard input; `None` if reading fails or memory runs out.
fn all_input(rt: &HostRuntime) -> Option<Vec<u8>> {
    let mut source = StdSource::new(rt.stdin());
    let mut text = Vec::new(rt.alloc());
    let mut chunk = [0; 4_096];
    for _turn in 0..u64::MAX {
        let n = source.take(&mut chunk).ok()?;
        if n == 0 {
            return Some(text);
        }
        text.extend_from_slice(&chunk[..n]).ok()?;
    }
    None
}

/// For a profiler, opens a closed manager with the settings and makes the calls, the script's lines after the first.
/// `table` has the handle of each ID. Returns the number of calls that succeeded, or `None` if a line is
/// bad or memory runs out.
fn on_manager<H: Manager>(
    mut heap: H,
    settings: &Settings,
    calls: &[u8],
    table: &mut Table,
    meter: &mut Meter,
) -> Option<u64> {
    heap.open_heap(settings).ok()?;
    let mut served = 0u64;
    for text in calls.chunks(script::LINE) {
        let line = Line::read(text)?;
        if manager::apply(&mut heap, line, table, meter) {
            served = served.saturating_add(1);
        }
    }
    Some(served)
}

/// For a profiler, opens the heap that the first line of the script `text` names, and makes the
/// calls of the other lines. Returns the number of calls that succeeded, or `None` if the script is
/// bad or memory runs out.
fn on_heap(rt: &HostRuntime, text: &[u8]) -> Option<u64> {
    let first = Line::read(text.get(..script::LINE)?)?;
    let calls = text.get(script::LINE..)?;
    let alloc = rt.alloc();
    let mut table = Table::new(alloc)?;
    let mut meter = Meter::new(rt);
    if first.op == b's' {
        return sliced::run(alloc, first, calls, &mut table, &mut meter);
    }
    let settings = Settings::check(first.id, first.first, first.second, 65_536).ok()?;
    match first.op {
        b'c' => on_manager(
            MovingHeap::closed(alloc),
            &settings,
            calls,
            &mut table,
            &mut meter,
        ),
        b'n' => on_manager(
            NonMovingHeap::closed(alloc),
            &settings,
            calls,
            &mut table,
            &mut meter,
        ),
        b't' => on_manager(
            TlsfHeap::closed(alloc),
            &settings,
            calls,
            &mut table,
            &mut meter,
        ),
        b'h' => on_manager(
            HalfFitHeap::closed(alloc),
            &settings,
            calls,
            &mut table,
            &mut meter,
        ),
        b'l' => long::run(alloc, &settings, calls, &mut table, &mut meter),
        _ => None,
    }
}

/// Runs the script of standard input and prints `served N`, where N is the number of calls that succeeded. Exits with
/// 0; with 3 if the script is bad or can't be read or memory runs out, and with 5 if printing fails.
fn main(rt: HostRuntime) -> ExitCode {
    let served = match all_input(&rt) {
        Some(text) => on_heap(&rt, text.as_slice()),
        None => None,
    };
    match served {
        Some(count) => {
            let mut sink = StdSink::new(rt.stdout());
            let mut reply = cf_io::Line::new();
            cf_io::push_field(&mut reply, b"served ", count);
            match cf_io::put_line(&mut reply, &mut sink) {
                Ok(()) => ExitCode::from(0),
                Err(_) => ExitCode::from(5),
            }
        }
        None => ExitCode::from(3),
    }
}
