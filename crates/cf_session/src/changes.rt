//! The commands that change objects or bounds: each calls the heap and returns the reply to print,
//! `ok` if it was done. Each malloc, free or resize that calls the heap sets `counters.bound` to
//! its step bound, which command `steps` prints. The heap must be open. All but `k` add to the
//! count of `steps`, which must be at most 2^63.
ghost use Rattle.std.specs.Prelude.{◌≡◌, ◌^◌, ◌≤◌, IsTrue, Err};
ghost use Rattle.cf_session.specs.Records.{run_with, session_of};
ghost use Rattle.cf_session.specs.Short.{short_text};
ghost use Rattle.run_model.specs.Terms.{AreTied, Bound, Free, IsGoing, Malloc, Resize, said, Write};
ghost use Rattle.run_model.specs.Replies.{resize_text};
ghost use Rattle.run_model.specs.Steps.{Step};

use crate::records::Records;
use crate::short::{Short, fault_reply, refusal_reply};
use cf_base::ResizeFault;
use cf_model::{FREE_BOUND, MALLOC_BOUND, Manager, RESIZE_BOUND};
use step_ledger::Steps;

/// `m`: on a manager, makes an object of `bytes` zero bytes, which `id` then names. The reply is
/// `live` if the id is live already, or `refused` and the cause if the heap refuses the malloc; in
/// both cases no id and no object changes.
pub(crate) fn malloc<H: Manager>(
    records: &mut Records,
    heap: &mut H,
    id: u16,
    bytes: u32,
    steps: &mut Steps,
) -> Short
    requires open { IsTrue (H.state heap.old).is_open }
    requires room { steps.old ≤ 2 ^ 63 }
    ensures step { Step (run_with records.old (H.state heap.old)) (Malloc id bytes)
        (said (short_text result)) (run_with records.new (H.state heap.new)) }
{
    if records.ids.handle(id).is_some() {
        return Short::Live;
    }
    records.counters.bound = MALLOC_BOUND;
    match heap.malloc(bytes, steps) {
        Ok(h) => {
            records.ids.bind(id, h);
            Short::Done
        }
        Err(refusal) => refusal_reply(refusal),
    }
}

/// `f`: on a manager, frees the object of an id, which then isn't live. Counts the move if another
/// object moved into the slot. The reply is `unknown` if the id isn't live. The live ids must be
/// those of the heap's objects (`AreTied`).
pub(crate) fn free<H: Manager>(
    records: &mut Records,
    heap: &mut H,
    id: u16,
    steps: &mut Steps,
) -> Short
    requires open { IsTrue (H.state heap.old).is_open }
    requires tied { AreTied (session_of records.old) (H.state heap.old) }
    requires room { steps.old ≤ 2 ^ 63 }
    ensures step { Step (run_with records.old (H.state heap.old)) (Free id)
        (said (short_text result)) (run_with records.new (H.state heap.new)) }
{
    let Some(h) = records.ids.handle(id) else {
        return Short::Unknown;
    };
    let Ok(freed) = heap.free(h, steps) else {
        unreachable!();
    };
    records.ids.unbind(id);
    records.counters.bound = FREE_BOUND + 2 * freed.slot_words as u64;
    records.counters.count_move(freed.moved, freed.slot_words);
    Short::Done
}

/// `w`: writes bytes into the object of an id, from byte `at` on. The reply is `unknown` if the id
/// isn't live, `range` if the bytes would pass the end of the object.
pub(crate) fn write<H: Manager>(
    records: &Records,
    heap: &mut H,
    id: u16,
    at: u32,
    bytes: &[u8],
    steps: &mut Steps,
) -> Short
    requires open { IsTrue (H.state heap.old).is_open }
    requires room { steps.old ≤ 2 ^ 63 }
    ensures step { Step (run_with records.now (H.state heap.old)) (Write id at bytes.now)
        (said (short_text result)) (run_with records.now (H.state heap.new)) }
{
    let Some(h) = records.ids.handle(id) else {
        return Short::Unknown;
    };
    match heap.write(h, at, bytes, steps) {
        Ok(()) => Short::Done,
        Err(fault) => fault_reply(fault),
    }
}

/// `z`: changes the length of an id's object to `bytes` bytes. Counts the move if another object
/// moved into the old slot. The reply is `unknown` if the id isn't live, `none` with blocks, or
/// `refused` and the cause.
pub(crate) fn resize<H: Manager>(
    records: &mut Records,
    heap: &mut H,
    id: u16,
    bytes: u32,
    steps: &mut Steps,
) -> Short
    requires open { IsTrue (H.state heap.old).is_open }
    requires room { steps.old ≤ 2 ^ 63 }
    ensures step { Step (run_with records.old (H.state heap.old)) (Resize id bytes)
        (said (short_text result)) (run_with records.new (H.state heap.new)) }
{
    let Some(h) = records.ids.handle(id) else {
        return Short::Unknown;
    };
    match heap.resize(h, bytes, steps) {
        Ok(done) => {
            records.counters.bound = RESIZE_BOUND
                + 3 * done.old_slot_words.max(done.slot_words) as u64;
            records.counters.count_move(done.moved, done.old_slot_words);
            Short::Done
        }
        Err(fault) => {
            records.counters.bound = RESIZE_BOUND;
            resize_fault_reply(fault)
        }
    }
}

/// The reply to a resize that the heap refused with this cause.
fn resize_fault_reply(fault: ResizeFault) -> Short
    ensures { short_text result ≡ resize_text (Err fault) }
{
    match fault {
        ResizeFault::Unknown => Short::Unknown,
        ResizeFault::Kind => Short::Lacking,
        ResizeFault::Size => Short::RefusedSize,
        ResizeFault::Space => Short::RefusedSpace,
    }
}

/// `k`: sets to `k` the bound of the class with slots of `slot_words` words, that is, how many of
/// its pages may be partly full. The reply is `none` if an id is live or no class has such slots.
/// The run must be in progress (`IsGoing`), and `k` from 1 to 64.
pub(crate) fn set_bound<H: Manager>(
    records: &Records,
    heap: &mut H,
    slot_words: u32,
    k: u32,
) -> Short
    requires going { IsGoing (run_with records.now (H.state heap.old)) }
    requires least { 1 ≤ k }
    requires most { k ≤ 64 }
    ensures step { Step (run_with records.now (H.state heap.old)) (Bound slot_words k)
        (said (short_text result)) (run_with records.now (H.state heap.new)) }
{
    if !records.ids.is_empty() {
        return Short::Lacking;
    }
    if heap.set_bound(slot_words, k) {
        Short::Done
    } else {
        Short::Lacking
    }
}
