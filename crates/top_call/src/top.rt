//! `cf_main`, the top call: parses the arguments and runs the chosen mode. `run_arguments` does the
//! same without a `HostRuntime`, for instance for an export.
ghost use Rattle.std.specs.Prelude.{◌≡◌, ◌<◌, ◌≤◌, ◌+◌, ◌⊎◌, is_some, map, string_bytes, true};
ghost use Rattle.cf_io.specs.Feeds.{SinkFailsIf, SourceFailsIf, last_count};
ghost use Rattle.script_loop.specs.ScriptOutcome.{MOST_BYTES, is_read_fault, is_write_fault};
ghost use Rattle.top_call.specs.Outcomes.{EndsWithCause, EndsWhole, call_seen};
ghost use Rattle.top_call.specs.OneScript.{KeepsContract};
ghost use Rattle.top_call.specs.TopOutcome.{EndsWell, HasRightInput, InMode, PrintsAsClaimed};

use crate::bench::bench_seed;
use crate::compare::compare_all;
use crate::images::{load_image, save_image};
use crate::large::play_large;
use crate::quota::play_quotas;
use crate::run::run_chosen;
use crate::slice::play_slices;
use crate::{ArgumentsFault, Choice, Mode, read_arguments};
use cf_base::Status;
use cf_io::{Sink, Source};
use cf_model::Manager;
use std::alloc::Global;
use std::rt::Memory;

/// Parses the arguments `words` (the first is the program's name), and runs the mode that they choose.
///
/// In mode `run` the first of `managers` of the chosen kind, or a closed one made for the call if
/// there is none, runs a script of at most 268,435,455 bytes. The `heap` line opens the manager,
/// and the reply to each command is written before the next chunk is taken from the source. No
/// other manager is touched. In mode `compare` every given manager runs the script, in order: each
/// line of its replies begins with the name of its kind; `bad line` is printed once and without a
/// name. The other modes touch none of `managers`. Mode `bench` reads nothing: it runs generated
/// commands on a manager made for them, and prints counts. Mode `save` prints no reply, but at the
/// end the live objects as an image; mode `load` reads an image, and prints the script that makes
/// its objects, or returns `BadImage`. In the modes `large`, `slice` and `quota` a heap that is made
/// for the call runs the script.
///
/// The call returns `Done` at the end of the input or of the bench; `BadScript` at a line that the
/// grammar does not allow at its place; `TooLong` if the script has more than 268,435,455 bytes;
/// `ReadFault` if the source failed; `WriteFault` if the sink did; and `OutOfMemory`, before any
/// reply, if an allocation failed. It returns `Words` if and only if `clap` refuses the arguments
/// for another cause than memory.
pub fn cf_main<H: Manager, S: Source, K: Sink>(
    rt: &HostRuntime,
    alloc: Global,
    words: &[String],
    source: &mut S,
    sink: &mut K,
    managers: &mut Vec<H>,
) -> Status
    ensures outcome { EndsWell (map (λ word. string_bytes word) words.now)
        (call_seen S.Source K.Sink (λ m. H.state m) source.old sink.old managers.old.items) result
        (call_seen S.Source K.Sink (λ m. H.state m) source.new sink.new managers.new.items) }
    // The replies meet the claim of the mode.
    ensures claimed { PrintsAsClaimed (map (λ word. string_bytes word) words.now)
        (call_seen S.Source K.Sink (λ m. H.state m) source.old sink.old managers.old.items) result
        (call_seen S.Source K.Sink (λ m. H.state m) source.new sink.new managers.new.items) }
    ensures kinds { map (λ h. h.kind) (map (λ m. H.state m) managers.new.items)
        ≡ map (λ h. h.kind) (map (λ m. H.state m) managers.old.items) }
    // A manager promises an order afterwards if it did before.
    ensures orders { map (λ h. is_some h.order) (map (λ m. H.state m) managers.new.items)
        ≡ map (λ h. is_some h.order) (map (λ m. H.state m) managers.old.items) }
    // If the arguments choose a mode, the input is right for it, and neither device fails, the call returns `Done`
    // or `OutOfMemory`.
    ensures complete { HasRightInput (map (λ word. string_bytes word) words.now) (S.state source.old).rest
        → ¬ SourceFailsIf true (S.state source.old) (S.state source.new) → ¬ SinkFailsIf true (K.state sink.old) (K.state sink.new) → EndsWhole result }
    // The causes of each status, over every source and sink.
    ensures source { SourceFailsIf (is_read_fault result) (S.state source.old) (S.state source.new) }
    ensures sink { SinkFailsIf (is_write_fault result) (K.state sink.old) (K.state sink.new) }
    ensures too_long { result ≡ Status.TooLong
        → ((S.state source.old).given + MOST_BYTES < (S.state source.new).given) ⊎ ((S.state source.new).given ≡ last_count) }
{
    run_arguments(rt.memory(), alloc, words, source, sink, managers)
}

/// Parses the arguments and runs the mode that they choose, as `cf_main` does, for a caller without
/// a `HostRuntime`, such as an export: `memory` makes the meters (`Meter::for_library`). Clause
/// `keeps` has the first four clauses of `cf_main`; the others are the same.
pub fn run_arguments<H: Manager, S: Source, K: Sink>(
    memory: Memory,
    alloc: Global,
    words: &[String],
    source: &mut S,
    sink: &mut K,
    managers: &mut Vec<H>,
) -> Status
    ensures keeps { KeepsContract (map (λ word. string_bytes word) words.now) (record {
      old = call_seen S.Source K.Sink (λ m. H.state m) source.old sink.old managers.old.items;
      status = result;
      new = call_seen S.Source K.Sink (λ m. H.state m) source.new sink.new managers.new.items;
    }) }
    ensures complete { HasRightInput (map (λ word. string_bytes word) words.now) (S.state source.old).rest
        → ¬ SourceFailsIf true (S.state source.old) (S.state source.new) → ¬ SinkFailsIf true (K.state sink.old) (K.state sink.new) → EndsWhole result }
    ensures source { SourceFailsIf (is_read_fault result) (S.state source.old) (S.state source.new) }
    ensures sink { SinkFailsIf (is_write_fault result) (K.state sink.old) (K.state sink.new) }
    ensures too_long { result ≡ Status.TooLong
        → ((S.state source.old).given + MOST_BYTES < (S.state source.new).given) ⊎ ((S.state source.new).given ≡ last_count) }
{
    match read_arguments(alloc, words) {
        Ok(choice) => run_mode(memory, alloc, choice, source, sink, managers),
        Err(ArgumentsFault::Refused) => Status::Words,
        Err(ArgumentsFault::OutOfMemory) => Status::OutOfMemory,
    }
}

/// Runs the mode of `choice`, which has the values of the arguments, and returns the status. The
/// quantum must be from 1 to 16,384 words.
fn run_mode<H: Manager, S: Source, K: Sink>(
    memory: Memory,
    alloc: Global,
    choice: Choice,
    source: &mut S,
    sink: &mut K,
    managers: &mut Vec<H>,
) -> Status
    requires least { 1 ≤ choice.quantum }
    requires most { choice.quantum ≤ 16384 }
    ensures { EndsWithCause (InMode choice.mode choice)
        (call_seen S.Source K.Sink (λ m. H.state m) source.old sink.old managers.old.items) result
        (call_seen S.Source K.Sink (λ m. H.state m) source.new sink.new managers.new.items) }
{
    match choice.mode {
        Mode::Run => run_chosen(memory, alloc, choice.kind, managers, source, sink),
        Mode::Compare => compare_all(memory, alloc, managers, source, sink),
        Mode::Bench => bench_seed(memory, alloc, choice, sink),
        Mode::Large => play_large(memory, alloc, source, sink),
        Mode::Save => save_image(memory, alloc, source, sink),
        Mode::Load => load_image(memory, alloc, source, sink),
        Mode::Slice => play_slices(memory, alloc, choice.quantum, source, sink),
        Mode::Quota => play_quotas(memory, alloc, source, sink),
    }
}
