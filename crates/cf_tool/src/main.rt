//! The program: calls `cf_main` with the arguments, standard input and output, and one closed manager of each
//! kind, and exits with the status that `cf_main` returns. If the arguments can't be read or memory runs out
//! before that call, the status says so. If it isn't `Done`, the program prints a line on standard error.
#![tactic(auto)]

ghost use Rattle.std.specs.Prelude.{◌≡◌, option_map};
ghost use Rattle.cf_tool.specs.Complaints.{complaint_at};

use cf_base::Status;
use cf_io::{StdSink, StdSource};
use cf_model::Boxed;
use half_fit_heap::HalfFitHeap;
use moving_heap::MovingHeap;
use nonmoving_heap::NonMovingHeap;
use std::alloc::AllocError;
use std::env;
use std::io::ErrorKind;
use std::process::ExitCode;
use tlsf_heap::TlsfHeap;
use top_call::cf_main;

/// Returns the line that the program prints on standard error at this status, without its line feed. `None`
/// at `Done`.
fn complaint(status: Status) -> Option<&'static str>
    ensures { option_map (λ text. text.now) result ≡ complaint_at status }
{
    match status {
        Status::Done => None,
        Status::Words => Some("cf_tool: bad words"),
        Status::BadScript => Some("cf_tool: bad script"),
        Status::ReadFault => Some("cf_tool: read fault"),
        Status::WriteFault => Some("cf_tool: write fault"),
        Status::OutOfMemory => Some("cf_tool: out of memory"),
        Status::TooLong => Some("cf_tool: script too long"),
        Status::BadImage => Some("cf_tool: bad image"),
    }
}

/// Returns the arguments of the command line, the program's name first. Fails with `OutOfMemory` if out of
/// memory, and with `Words` if they can't be read.
fn command_words(rt: &HostRuntime) -> Result<Vec<String>, Status> {
    match env::args(rt) {
        Ok(args) => args.collect(rt.alloc()).map_err(|_| Status::OutOfMemory),
        Err(error) => match error.kind() {
            ErrorKind::OutOfMemory => Err(Status::OutOfMemory),
            _ => Err(Status::Words),
        },
    }
}

/// Calls `cf_main` with these arguments, standard input and output, and a closed manager of each kind.
/// Returns its status. Fails if the list of the managers or their boxes can't be allocated.
fn run_all(rt: &HostRuntime, words: &[String]) -> Result<Status, AllocError> {
    let alloc = rt.alloc();
    let mut managers = Vec::new(alloc);
    managers.push(Boxed {
        inner: Box::new(alloc, MovingHeap::closed(alloc))?,
    })?;
    managers.push(Boxed {
        inner: Box::new(alloc, NonMovingHeap::closed(alloc))?,
    })?;
    managers.push(Boxed {
        inner: Box::new(alloc, TlsfHeap::closed(alloc))?,
    })?;
    managers.push(Boxed {
        inner: Box::new(alloc, HalfFitHeap::closed(alloc))?,
    })?;
    let mut source = StdSource::new(rt.stdin());
    let mut sink = StdSink::new(rt.stdout());
    Ok(cf_main(rt, alloc, words, &mut source, &mut sink, &mut managers))
}

/// Reads the arguments and calls `cf_main` on them. Exits with the status that `cf_main` returns; with the error
/// of `command_words` if that fails, with `OutOfMemory` if `run_all` fails. Unless the status is `Done`, prints
/// the line of the status (`complaint`) on standard error.
fn main(rt: HostRuntime) -> ExitCode {
    let status = match command_words(&rt) {
        Ok(words) => run_all(&rt, words.as_slice()).unwrap_or(Status::OutOfMemory),
        Err(status) => status,
    };
    if let Some(text) = complaint(status) {
        let _ = rt.eprintln(text);
    }
    ExitCode::from(status.code())
}

#[cfg(test)]
mod tests;
