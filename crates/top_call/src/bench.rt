//! Mode `bench`: runs generated commands on one manager of the chosen kind. It prints no replies,
//! but one line that counts them, the live objects, the pages or blocks in use, and the moves of
//! objects.
ghost use Rattle.script_loop.specs.ScriptOutcome.{is_write_fault};
ghost use Rattle.top_call.specs.Outcomes.{Benches, EndsBeside};
ghost use Rattle.std.specs.Prelude.{◌≡◌};
ghost use Rattle.top_call.specs.Bench.{EndsBench, IsAppliedTo};
ghost use Rattle.run_model.specs.Terms.{fresh_session, IsGoing, SinkFailsIf, SourceState};
ghost use Rattle.cf_model.specs.Ordered.{KeepsPromise};
ghost use Rattle.cf_session.specs.Apply.{run_at};
ghost use Rattle.script_reader.specs.Generated.{generated};

use crate::Choice;
use crate::figures::BenchFigures;
use crate::tally::Tally;
use cf_base::{Kind, Settings, Status};
use cf_io::{NullSink, Sink};
use cf_model::Manager;
use cf_session::Session;
use half_fit_heap::HalfFitHeap;
use moving_heap::MovingHeap;
use nonmoving_heap::NonMovingHeap;
use script_reader::Generator;
use std::alloc::Global;
use std::rt::Memory;
use step_ledger::Meter;
use tlsf_heap::TlsfHeap;

/// Makes a closed manager of the chosen kind, and runs on it the chosen number of commands,
/// generated from the chosen seed. Prints a line of six counts: commands, good replies, refusals,
/// moves of objects, and at the end live objects, and pages or blocks in use. It reads nothing and
/// touches no other manager. Returns the status, `OutOfMemory` also if the session can't be
/// allocated.
pub fn bench_seed<K: Sink>(memory: Memory, alloc: Global, choice: Choice, sink: &mut K) -> Status
    ensures { (source : SourceState) → EndsBeside (Benches choice)
        source (K.state sink.old) result source (K.state sink.new) }
{
    let Ok(mut session) = Session::for_library(memory, alloc) else {
        return Status::OutOfMemory;
    };
    let (seed, count) = (choice.seed, choice.count);
    match choice.kind {
        Kind::Moving => {
            let mut own = MovingHeap::closed(alloc);
            run_bench(memory, &mut session, &mut own, seed, count, sink)
        }
        Kind::NonMoving => {
            let mut own = NonMovingHeap::closed(alloc);
            run_bench(memory, &mut session, &mut own, seed, count, sink)
        }
        Kind::Tlsf => {
            let mut own = TlsfHeap::closed(alloc);
            run_bench(memory, &mut session, &mut own, seed, count, sink)
        }
        Kind::HalfFit => {
            let mut own = HalfFitHeap::closed(alloc);
            run_bench(memory, &mut session, &mut own, seed, count, sink)
        }
    }
}

/// Opens the manager as `heap 64 16384 1 4096` does, and applies the first `count` commands that
/// the generator makes of the seed. Drops their replies, and writes one line with the numbers of
/// the bench (`BenchFigures`). `session` must be fresh. Returns `Done`; `OutOfMemory` if the
/// manager can't be opened, and then nothing is written; or `WriteFault` if the sink failed, and
/// then a prefix of the line is written.
fn run_bench<H: Manager, K: Sink>(
    memory: Memory,
    session: &mut Session,
    heap: &mut H,
    seed: u64,
    count: u64,
    sink: &mut K,
) -> Status
    requires { session.old ≡ fresh_session }
    ensures outcome { EndsBench result seed count (run_at session.old (H.state heap.old)) (run_at session.new (H.state heap.new))
        (K.state sink.old).written (K.state sink.new).written }
    ensures kind { (H.state heap.new).kind ≡ (H.state heap.old).kind }
    ensures promise { KeepsPromise (H.state heap.old) (H.state heap.new) }
    ensures sink { SinkFailsIf (is_write_fault result) (K.state sink.old) (K.state sink.new) }
{
    let settings = Settings {
        pages: 64,
        page_words: 2_048,
        k: 1,
        proxies: 4_096,
    };
    match heap.open_heap(&settings) {
        Ok(()) => {}
        Err(_) => return Status::OutOfMemory,
    }
    let tally = apply_commands(session, heap, seed, count);
    let mut meter = Meter::for_library(memory);
    let totals = heap.totals(meter.steps());
    let figures = BenchFigures {
        commands: count,
        ok: tally.ok,
        refused: tally.refused,
        live: totals.live,
        pages: totals.used,
        moves: session.moves(),
    };
    figures.put(sink)
}

/// In mode `bench`, applies the first `count` commands that the generator makes of the seed, in a run that must be in
/// progress (`IsGoing`). Returns how many of their replies are good, that is `ok` or the bytes of a read, and how many
/// are refusals.
fn apply_commands<H: Manager>(session: &mut Session, heap: &mut H, seed: u64, count: u64) -> Tally
    requires { IsGoing (run_at session.old (H.state heap.old)) }
    ensures applied { IsAppliedTo (run_at session.old (H.state heap.old)) (generated seed count) (run_at session.new (H.state heap.new))
        result.ok result.refused }
    ensures going { IsGoing (run_at session.new (H.state heap.new)) }
    ensures kind { (H.state heap.new).kind ≡ (H.state heap.old).kind }
    ensures promise { KeepsPromise (H.state heap.old) (H.state heap.new) }
{
    let mut generator = Generator::new(seed);
    let mut bytes = [0; 8];
    let mut tally = Tally { ok: 0, refused: 0 };
    for i in 0..count {
        let command = generator.next_ref(&mut bytes);
        match session.apply_ref(heap, command, b"", &mut NullSink) {
            Ok(outcome) => tally.add(outcome),
            Err(_) => unreachable!(),
        }
    }
    tally
}
