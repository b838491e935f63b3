//! A call of the tool over a source and a sink in memory, on managers that are made for it.
ghost use Rattle.std.specs.Prelude.{◌≡◌, ◌++◌, ◌∷◌, [], OnOk, map, string_bytes};
ghost use Rattle.cf_model.specs.State.{closed_state};
ghost use Rattle.cf_page.specs.PageRun.{IsPlayed, OrKept, all_kinds, shown_in};

use crate::growing_sink::GrowingSink;
use cf_base::{Kind, Status};
use cf_io::SureSource;
use cf_model::{Boxed, Manager};
use half_fit_heap::HalfFitHeap;
use moving_heap::MovingHeap;
use nonmoving_heap::NonMovingHeap;
use std::alloc::{AllocError, Global};
use std::rt::Memory;
use tlsf_heap::TlsfHeap;
use top_call::run_arguments;

/// For the page, runs the tool with these arguments and this script on a closed manager of each
/// kind, as the program does. Writes the output to the start of `out` if it fits, and returns the
/// status and the length of the output. `None` if memory for the managers, the script or the output
/// runs out: then `out` stays as it was.
pub fn play(
    memory: Memory,
    words: &[String],
    script: &[u8],
    out: &mut [u8],
) -> Option<(Status, usize)>
    ensures { OrKept result out.old out.new (λ r. IsPlayed (map (λ word. string_bytes word) words.now) script.now out.old r.0 r.1 out.new) }
{
    let alloc = Global::new(memory);
    let mut managers = Vec::new(alloc);
    let moving = Boxed {
        inner: Box::new(alloc, MovingHeap::closed(alloc)).ok()?,
    };
    add(Kind::Moving, &mut managers, moving).ok()?;
    let nonmoving = Boxed {
        inner: Box::new(alloc, NonMovingHeap::closed(alloc)).ok()?,
    };
    add(Kind::NonMoving, &mut managers, nonmoving).ok()?;
    let tlsf = Boxed {
        inner: Box::new(alloc, TlsfHeap::closed(alloc)).ok()?,
    };
    add(Kind::Tlsf, &mut managers, tlsf).ok()?;
    let half_fit = Boxed {
        inner: Box::new(alloc, HalfFitHeap::closed(alloc)).ok()?,
    };
    add(Kind::HalfFit, &mut managers, half_fit).ok()?;
    play_on(memory, alloc, words, script, out, &mut managers)
}

/// For the page, appends a closed manager of the kind. Fails only if an allocation does.
fn add<H: Manager>(kind: Kind, managers: &mut Vec<H>, manager: H) -> Result<(), AllocError>
    requires { H.state manager ≡ closed_state kind }
    ensures { OnOk result (map (λ m. H.state m) managers.new.items ≡ map (λ m. H.state m) managers.old.items ++ closed_state kind ∷ []) }
{
    match managers.push(manager) {
        Ok(()) => Ok(()),
        Err(_) => Err(AllocError),
    }
}

/// For the page, runs the tool as `play` does, but on the given managers: one of each kind, in the
/// order of mode `compare`, which were never open.
fn play_on<H: Manager>(
    memory: Memory,
    alloc: Global,
    words: &[String],
    script: &[u8],
    out: &mut [u8],
    managers: &mut Vec<H>,
) -> Option<(Status, usize)>
    requires { map (λ m. H.state m) managers.old.items ≡ map closed_state all_kinds }
    ensures { OrKept result out.old out.new (λ r. IsPlayed (map (λ word. string_bytes word) words.now) script.now out.old r.0 r.1 out.new) }
{
    let Ok(bytes) = Vec::from_slice(alloc, script) else {
        return None;
    };
    let mut source = SureSource::new(bytes);
    let mut sink = GrowingSink::new(alloc);
    let status = run_arguments(memory, alloc, words, &mut source, &mut sink, managers);
    // The sink fails only if an allocation does.
    if matches!(status, Status::WriteFault) {
        return None;
    }
    show(sink.bytes.as_slice(), out);
    Some((status, sink.bytes.len()))
}

/// For the page, copies the output to the start of `out` if it fits.
fn show(output: &[u8], out: &mut [u8])
    ensures { out.new ≡ shown_in output.now out.old }
{
    if output.len() <= out.len() {
        out[..output.len()].copy_from_slice(output);
    }
}
