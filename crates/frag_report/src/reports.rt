//! The reports of commands `walk` and `frag`. The heap must be open. Each line begins with `lead`, of
//! at most 8 bytes: in mode `compare` the name of the manager's kind and a space, else no bytes. Each
//! line is built in `line`, which is scratch, and passed to the sink `out` as a whole. If the sink
//! fails, the result is `Failed`, and a prefix of the report was written. `walk` may add to the count
//! `steps`, `frag` does not.
ghost use Rattle.std.specs.Prelude.{◌≡◌, ◌≤◌, IsTrue, length};
ghost use Rattle.cf_io.specs.Feeds.{Writes};
ghost use Rattle.cf_model.specs.Answers.{classes_in, totals_in};
ghost use Rattle.cf_model.specs.State.{paging_in};
ghost use Rattle.frag_report.specs.Classes.{classes_below, class_if_live, totals_with};
ghost use Rattle.run_model.specs.Reports.{blocks_line, frag_of, pages_report, total_line, walk_of};
ghost use Rattle.run_model.specs.Texts.{led, said};

use cf_base::{Failed, Figures, Kind, Totals};
use cf_io::{Line, Sink, begin_line, push_field, put_line};
use cf_model::Manager;
use step_ledger::Steps;

/// `walk`: writes the report on classes and pages, or on blocks, to the sink.
pub fn walk_lines<H: Manager, K: Sink>(
    heap: &H,
    lead: &[u8],
    line: &mut Line,
    out: &mut K,
    steps: &mut Steps,
) -> Result<(), Failed>
    requires open { IsTrue (H.state heap.now).is_open }
    requires lead { length lead.now ≤ 8 }
    ensures puts { Writes (K.state out.old)
        (led lead.now (walk_of (H.state heap.now).kind (H.state heap.now)))
        result (K.state out.new) }
    ensures rises { steps.old ≤ steps.new }
{
    let totals = heap.totals(steps);
    match heap.kind() {
        Kind::Moving | Kind::NonMoving => put_pages(heap, &totals, lead, line, out),
        Kind::Tlsf | Kind::HalfFit => put_blocks(&totals, lead, line, out),
    }
}

/// `frag`: writes one line to the sink, with three counts of bytes. The objects asked for the first; their slots
/// or blocks take the second; the pages in use, or with blocks the whole region, hold the third.
pub fn frag_line<H: Manager, K: Sink>(
    heap: &H,
    lead: &[u8],
    line: &mut Line,
    out: &mut K,
    _steps: &mut Steps,
) -> Result<(), Failed>
    requires open { IsTrue (H.state heap.now).is_open }
    requires lead { length lead.now ≤ 8 }
    ensures puts { Writes (K.state out.old) (led lead.now (frag_of (H.state heap.now)))
        result (K.state out.new) }
    ensures steps { _steps.new ≡ _steps.old }
{
    let usage = heap.usage();
    begin_line(line, lead);
    push_field(line, b"frag asked ", usage.asked);
    push_field(line, b" taken ", usage.taken);
    push_field(line, b" held ", usage.held);
    put_line(line, out)
}

/// For `walk`, writes the report on pages: a line for each class with live objects, then a line
/// with three of the `totals` of the heap.
fn put_pages<H: Manager, K: Sink>(
    heap: &H,
    totals: &Totals,
    lead: &[u8],
    line: &mut Line,
    out: &mut K,
) -> Result<(), Failed>
    requires open { IsTrue (H.state heap.now).is_open }
    requires totals { totals.now ≡ totals_in (H.state heap.now).kind (H.state heap.now) }
    requires lead { length lead.now ≤ 8 }
    ensures { Writes (K.state out.old) (led lead.now (pages_report (H.state heap.now)))
        result (K.state out.new) }
{
    match put_classes(heap, lead, line, out) {
        Ok(()) => put_total(
            totals.live,
            totals.used as u64,
            totals.free as u64,
            lead,
            line,
            out,
        ),
        Err(failed) => Err(failed),
    }
}

/// For `walk`, writes a line for each class with live objects, in rising order of the slot sizes.
fn put_classes<H: Manager, K: Sink>(
    heap: &H,
    lead: &[u8],
    line: &mut Line,
    out: &mut K,
) -> Result<(), Failed>
    requires open { IsTrue (H.state heap.now).is_open }
    requires lead { length lead.now ≤ 8 }
    ensures { Writes (K.state out.old)
        (led lead.now (classes_below (paging_in (H.state heap.now)) (H.state heap.now).held (classes_in (H.state heap.now).kind (H.state heap.now))))
        result (K.state out.new) }
{
    for c in 0..heap.classes() {
        let Some(figures) = heap.figures(c) else {
            unreachable!();
        };
        match put_class(&figures, lead, line, out) {
            Ok(()) => {}
            Err(failed) => return Err(failed),
        }
    }
    Ok(())
}

/// For `walk`, writes the line of a class with these figures; nothing if the class has no live object.
pub fn put_class<K: Sink>(
    figures: &Figures,
    lead: &[u8],
    line: &mut Line,
    out: &mut K,
) -> Result<(), Failed>
    requires { length lead.now ≤ 8 }
    ensures { Writes (K.state out.old) (led lead.now (class_if_live figures.now)) result (K.state out.new) }
{
    if figures.live == 0 {
        return Ok(());
    }
    begin_line(line, lead);
    push_field(line, b"class ", figures.slot_words as u64);
    push_field(line, b" slots ", figures.slots as u64);
    push_field(line, b" live ", figures.live as u64);
    push_field(line, b" pages ", figures.pages as u64);
    push_field(line, b" notfull ", figures.not_full as u64);
    put_line(line, out)
}

/// For `walk`, writes the last line of a report on pages: how many objects are live, and how many pages are in use and
/// free.
pub fn put_total<K: Sink>(
    live: u32,
    used: u64,
    free: u64,
    lead: &[u8],
    line: &mut Line,
    out: &mut K,
) -> Result<(), Failed>
    requires { length lead.now ≤ 8 }
    ensures { Writes (K.state out.old) (led lead.now (said (total_line (totals_with live used free))))
        result (K.state out.new) }
{
    begin_line(line, lead);
    push_field(line, b"total live ", live as u64);
    push_field(line, b" pages ", used);
    push_field(line, b" free ", free);
    put_line(line, out)
}

/// For `walk`, writes the line on blocks: how many are used, how many are free, and the words of the largest free one.
fn put_blocks<K: Sink>(
    totals: &Totals,
    lead: &[u8],
    line: &mut Line,
    out: &mut K,
) -> Result<(), Failed>
    requires { length lead.now ≤ 8 }
    ensures { Writes (K.state out.old) (led lead.now (said (blocks_line totals.now)))
        result (K.state out.new) }
{
    begin_line(line, lead);
    push_field(line, b"blocks used ", totals.used as u64);
    push_field(line, b" free ", totals.free as u64);
    push_field(line, b" largest ", totals.largest as u64);
    put_line(line, out)
}
