//! Calls on a manager as values, and a function that makes a list of them and compares the steps of each with those
//! that it must take.
use cf_base::{Handle, Settings};
use cf_model::Manager;
use step_ledger::Meter;

/// A call on a manager. The first number of a call that names an object is that of the object's handle.
#[derive(Clone, Copy, Debug)]
pub(super) enum Call {
    /// A malloc of this many bytes.
    Malloc(u32),
    Free(u32),
    /// A resize of the object to this length in bytes.
    Resize(u32, u32),
    /// A write: the first byte that is written, and how many bytes, at most 64.
    Write(u32, u32, usize),
    /// A read: the first byte that is read, and how many bytes, at most 64.
    Read(u32, u32, usize),
    /// A look-up of the object's address.
    Place(u32),
    /// A look-up of the object's length.
    Length(u32),
    /// A look-up of the physical block of one block of the object's slot. The second number counts the blocks of the
    /// slot from 0 on.
    Block(u32, u32),
    /// A read of the word of the region with this number.
    Peek(u32),
    /// The question whether a malloc of this many bytes would be refused.
    Room(u32),
    /// The figures of the whole heap.
    Totals,
}

/// A call, and its steps on two managers: the moving and the non-moving one, or TLSF and Half-Fit.
pub(super) type Row = (Call, [u64; 2]);

/// Makes the call, whether it succeeds or is refused, and returns its steps; none if the heap is closed.
fn steps_of<H: Manager>(heap: &mut H, call: Call, meter: &mut Meter) -> Option<u64> {
    if !heap.is_open() {
        return None;
    }
    let mut bytes = [7; 64];
    meter.lap();
    let steps = meter.steps();
    match call {
        Call::Malloc(bytes) => {
            let _ = heap.malloc(bytes, steps);
        }
        Call::Free(number) => {
            let _ = heap.free(Handle(number), steps);
        }
        Call::Resize(number, bytes) => {
            let _ = heap.resize(Handle(number), bytes, steps);
        }
        Call::Write(number, at, count) => {
            let _ = heap.write(Handle(number), at, &bytes[..count.min(64)], steps);
        }
        Call::Read(number, at, count) => {
            let _ = heap.read(Handle(number), at, &mut bytes[..count.min(64)], steps);
        }
        Call::Place(number) => {
            let _ = heap.place(Handle(number), steps);
        }
        Call::Length(number) => {
            let _ = heap.length(Handle(number), steps);
        }
        Call::Block(number, i) => {
            let _ = heap.block(Handle(number), i, steps);
        }
        Call::Peek(word) => {
            let _ = heap.peek(word, steps);
        }
        Call::Room(bytes) => {
            let _ = heap.has_room(bytes, steps);
        }
        Call::Totals => {
            let _ = heap.totals(steps);
        }
    }
    Some(meter.lap())
}

/// Opens the heap with k = 1, and makes the calls in order, up to the first that takes other steps than its row says.
/// `settings` has the heap's pages, the bytes of a page, and the proxies; `column` chooses the manager in the rows.
/// Returns the index of that call and its steps; `(0, 0)` if the heap can't be opened; none if each call takes its
/// steps.
pub(super) fn first_other<H: Manager>(
    heap: &mut H,
    column: usize,
    settings: [u32; 3],
    rows: &[Row],
    meter: &mut Meter,
) -> Option<(usize, u64)> {
    let [pages, page_bytes, proxies] = settings;
    let Ok(settings) = Settings::check(pages, page_bytes, 1, proxies) else {
        return Some((0, 0));
    };
    if heap.open_heap(&settings).is_err() {
        return Some((0, 0));
    }
    for (i, (call, wanted)) in rows.iter().enumerate() {
        let steps = steps_of(heap, *call, meter);
        if steps.as_ref() != wanted.get(column) {
            return Some((i, steps.unwrap_or(0)));
        }
    }
    None
}
