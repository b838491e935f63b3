//! Mode `run`: runs a script on the first manager of the chosen kind, or on a new one if none is given.
ghost use Rattle.std.specs.Prelude.{◌≡◌};
ghost use Rattle.run_model.specs.Terms.{closed_state, fresh_session};
ghost use Rattle.top_call.specs.Outcomes.{EndsWithCause, RunsChosen, RunsOwn, call_seen};

use crate::first_of_kind::first_of;
use cf_base::{Kind, Status};
use cf_io::{Sink, Source};
use cf_model::{Boxed, Manager};
use cf_session::Session;
use half_fit_heap::HalfFitHeap;
use moving_heap::MovingHeap;
use nonmoving_heap::NonMovingHeap;
use script_loop::play_script;
use std::alloc::Global;
use std::rt::Memory;
use tlsf_heap::TlsfHeap;

/// In mode `run`, runs a script on the first of `managers` that is of the kind; if there is none, on a new one, which
/// is dropped at the end. No other manager changes. Returns the status, `OutOfMemory` also if the session or the new
/// manager can't be allocated.
pub fn run_chosen<H: Manager, S: Source, K: Sink>(
    memory: Memory,
    alloc: Global,
    kind: Kind,
    managers: &mut Vec<H>,
    source: &mut S,
    sink: &mut K,
) -> Status
    ensures { EndsWithCause (RunsChosen kind)
        (call_seen S.Source K.Sink (λ m. H.state m) source.old sink.old managers.old.items) result
        (call_seen S.Source K.Sink (λ m. H.state m) source.new sink.new managers.new.items) }
{
    let Ok(mut session) = Session::for_library(memory, alloc) else {
        return Status::OutOfMemory;
    };
    match first_of(managers, kind) {
        Some(i) => play_script(&mut session, &mut managers[i], source, sink),
        None => run_own(alloc, kind, &mut session, source, sink),
    }
}

/// In mode `run`, runs a script on a closed manager of the kind, which is made for it. `session`
/// must be new. The manager is in a box, as those of `cf_tool` are: so only mode `bench` compiles a
/// session over an unboxed manager. Returns the status, `OutOfMemory` also if the manager can't be
/// allocated.
fn run_own<S: Source, K: Sink>(
    alloc: Global,
    kind: Kind,
    session: &mut Session,
    source: &mut S,
    sink: &mut K,
) -> Status
    requires { session.old ≡ fresh_session }
    ensures { RunsOwn kind (S.state source.old) (K.state sink.old) result
        (S.state source.new) (K.state sink.new) }
{
    match kind {
        Kind::Moving => {
            let Ok(inner) = Box::new(alloc, MovingHeap::closed(alloc)) else {
                return Status::OutOfMemory;
            };
            run_on(Kind::Moving, &mut Boxed { inner }, session, source, sink)
        }
        Kind::NonMoving => {
            let Ok(inner) = Box::new(alloc, NonMovingHeap::closed(alloc)) else {
                return Status::OutOfMemory;
            };
            run_on(Kind::NonMoving, &mut Boxed { inner }, session, source, sink)
        }
        Kind::Tlsf => {
            let Ok(inner) = Box::new(alloc, TlsfHeap::closed(alloc)) else {
                return Status::OutOfMemory;
            };
            run_on(Kind::Tlsf, &mut Boxed { inner }, session, source, sink)
        }
        Kind::HalfFit => {
            let Ok(inner) = Box::new(alloc, HalfFitHeap::closed(alloc)) else {
                return Status::OutOfMemory;
            };
            run_on(Kind::HalfFit, &mut Boxed { inner }, session, source, sink)
        }
    }
}

/// In mode `run`, runs a script on `heap`, a manager of the kind that was never open, with a new
/// session. Reads the script from `source`, writes the replies to `sink`, and returns the status.
fn run_on<H: Manager, S: Source, K: Sink>(
    kind: Kind,
    heap: &mut H,
    session: &mut Session,
    source: &mut S,
    sink: &mut K,
) -> Status
    requires fresh { session.old ≡ fresh_session }
    requires closed { H.state heap.old ≡ closed_state kind }
    ensures { RunsOwn kind (S.state source.old) (K.state sink.old) result
        (S.state source.new) (K.state sink.new) }
{
    play_script(session, heap, source, sink)
}
