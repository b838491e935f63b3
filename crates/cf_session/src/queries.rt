//! The commands that change nothing but the count of steps: `r`, `q`, `b`, `p` and `steps`. Each
//! but `r` builds its reply in `line`, after the lead (in mode `compare` the kind's name and a
//! space, else empty), or returns a short reply (`Short`); the caller writes it to the sink. `r`
//! writes its reply itself. The heap must be open, and the lead has at most 8 bytes.
ghost use Rattle.std.specs.Prelude.{◌≡◌, ◌^◌, ◌<◌, ◌≤◌, ◌++◌, IsTrue, codes, length, slice_get, take};
ghost use Rattle.std.specs.FinMap as map;
ghost use Rattle.cf_base.specs.declared.numbers.TheConstants.{CHUNK};
ghost use Rattle.hex.specs.Hex.{encode_lower};
ghost use Rattle.cf_session.specs.OneLine.{IsPut, SaidOn, lines_at};
ghost use Rattle.cf_session.specs.Records.{run_with, session_of};
ghost use Rattle.run_model.specs.Replies.{block_text_at, object_of, peek_text, place_text, read_text, steps_text};
ghost use Rattle.run_model.specs.Terms.{AreTied, led, said};

use crate::outcome::Outcome;
use crate::records::Records;
use crate::reply::{ended, put_short_line};
use crate::short::{OneLine, Short, fault_reply};
use cf_base::{Failed, Kind};
use cf_io::{Line, Sink, begin_line, push_field, put_all};
use cf_model::Manager;
use step_ledger::Steps;

/// `r`: writes to the sink `=` and `len` bytes of an id's object from byte `at` on, in hexadecimal;
/// `unknown` if the id isn't live, `range` if `at` plus `len` exceeds the object's length. If the
/// sink fails, the result is `Failed`, and a prefix of the reply was written. `buffer`, `text` and
/// `line` are scratch: `buffer` has 4,096 bytes, for the bytes read, and `text` 8,202 bytes, for the
/// reply with these bytes. `len` must be at most 4,096, and the count of `steps` at most 2^63.
pub(crate) fn read<H: Manager, K: Sink>(
    records: &Records,
    heap: &H,
    id: u16,
    at: u32,
    len: u16,
    buffer: &mut [u8],
    text: &mut [u8],
    lead: &[u8],
    line: &mut Line,
    out: &mut K,
    steps: &mut Steps,
) -> Result<Outcome, Failed>
    requires open { IsTrue (H.state heap.now).is_open }
    requires room { steps.old ≤ 2 ^ 63 }
    requires few { len ≤ CHUNK }
    requires buffer { length buffer.old ≡ CHUNK }
    requires text { length text.old ≡ 8202 }
    requires lead { length lead.now ≤ 8 }
    ensures { IsPut (read_text (object_of (run_with records.now (H.state heap.now)) id) at len) lead.now
        (K.state out.old) result (K.state out.new) }
{
    let Some(h) = records.ids.handle(id) else {
        return put_short_line(Short::Unknown, lead, line, out);
    };
    let part = &mut buffer[..len as usize];
    match heap.read(h, at, part, steps) {
        Ok(()) => {
            let n = spell_bytes(text, lead, part);
            ended(put_all(out, &text[..n]), Outcome::Good)
        }
        Err(fault) => put_short_line(fault_reply(fault), lead, line, out),
    }
}

/// For `r`, fills the start of `text` with the lead, `=`, the bytes in hexadecimal and a line feed, and returns how
/// many bytes of `text` these take. `text` has 8,202 bytes, enough for a lead of 8 bytes and 4,096 bytes, the most.
fn spell_bytes(text: &mut [u8], lead: &[u8], bytes: &[u8]) -> usize
    requires text { length text.old ≡ 8202 }
    requires few { length bytes.now ≤ CHUNK }
    requires lead { length lead.now ≤ 8 }
    ensures within { result ≤ length text.new }
    ensures text { take result text.new ≡ led lead.now (said (codes "=" ++ encode_lower bytes.now)) }
{
    let count = 2 * bytes.len();
    let (head, rest) = text.split_at_mut(lead.len());
    head.copy_from_slice(lead);
    let (mark, rest) = rest.split_at_mut(1);
    mark[0] = b'=';
    let (digits, rest) = rest.split_at_mut(count);
    hex::encode_to_slice(bytes, digits).unwrap();
    rest[0] = b'\n';
    lead.len() + count + 2
}

/// `q`: builds the reply `at` and the address of an id's object, in words from the start of the
/// region (on the non-moving kind, of the virtual blocks); `unknown` if the id isn't live.
pub(crate) fn place<H: Manager>(
    records: &Records,
    heap: &H,
    id: u16,
    lead: &[u8],
    line: &mut Line,
    steps: &mut Steps,
) -> OneLine
    requires open { IsTrue (H.state heap.now).is_open }
    requires lead { length lead.now ≤ 8 }
    ensures { SaidOn (lines_at lead.now line.new)
        (place_text (object_of (run_with records.now (H.state heap.now)) id)) result }
{
    let Some(h) = records.ids.handle(id) else {
        return OneLine::Short(Short::Unknown);
    };
    match heap.place(h, steps) {
        Some(word) => {
            begin_line(line, lead);
            push_field(line, b"at ", word as u64);
            OneLine::Written(Outcome::Other)
        }
        None => OneLine::Short(Short::Unknown),
    }
}

/// `b`: builds the reply `block` and the number of the physical block that holds block `i`, from 0,
/// of the slot of an id's object; a block has four words. `unknown` if the id isn't live; else
/// `none` on any kind but the non-moving one; else `range` if the slot has no block `i`. The live
/// ids must be those of the heap's objects (`AreTied`).
pub(crate) fn block<H: Manager>(
    records: &Records,
    heap: &H,
    id: u16,
    i: u32,
    lead: &[u8],
    line: &mut Line,
    steps: &mut Steps,
) -> OneLine
    requires open { IsTrue (H.state heap.now).is_open }
    requires tied { AreTied (session_of records.now) (H.state heap.now) }
    requires lead { length lead.now ≤ 8 }
    ensures { SaidOn (lines_at lead.now line.new)
        (block_text_at (H.state heap.now) (object_of (run_with records.now (H.state heap.now)) id) i) result }
{
    let Some(h) = records.ids.handle(id) else {
        return OneLine::Short(Short::Unknown);
    };
    match heap.kind() {
        Kind::NonMoving => match heap.block(h, i, steps) {
            Some(frame) => {
                begin_line(line, lead);
                push_field(line, b"block ", frame as u64);
                OneLine::Written(Outcome::Other)
            }
            None => OneLine::Short(Short::Range),
        },
        Kind::Moving | Kind::Tlsf | Kind::HalfFit => OneLine::Short(Short::Lacking),
    }
}

/// `p`: builds the reply with the value of word `word` of the region (on the non-moving kind, of
/// the virtual blocks), in hexadecimal; `range` if there is no such word.
pub(crate) fn peek<H: Manager>(
    heap: &H,
    word: u32,
    lead: &[u8],
    line: &mut Line,
    steps: &mut Steps,
) -> OneLine
    requires open { IsTrue (H.state heap.now).is_open }
    requires lead { length lead.now ≤ 8 }
    ensures { SaidOn (lines_at lead.now line.new) (peek_text (slice_get (H.state heap.now).words word)) result }
{
    match heap.peek(word, steps) {
        Some(v) => {
            begin_line(line, lead);
            line.push_word(v).unwrap();
            OneLine::Written(Outcome::Other)
        }
        None => OneLine::Short(Short::Range),
    }
}

/// `steps`: builds the reply with the steps of the last malloc, free or, with pages, resize; with
/// pages also the bound on them, how many objects frees and resizes have moved into the slots that
/// they freed, and the words of these slots.
pub(crate) fn build_steps_line<H: Manager>(
    records: &Records,
    heap: &H,
    lead: &[u8],
    line: &mut Line,
) -> OneLine
    requires open { IsTrue (H.state heap.now).is_open }
    requires lead { length lead.now ≤ 8 }
    ensures { SaidOn (lines_at lead.now line.new)
        (steps_text (H.state heap.now).kind (session_of records.now) (H.state heap.now).cost) result }
{
    begin_line(line, lead);
    push_field(line, b"steps last ", heap.cost());
    match heap.kind() {
        Kind::Moving | Kind::NonMoving => {
            push_field(line, b" bound ", records.counters.bound);
            push_field(line, b" moves ", records.counters.moves);
            push_field(line, b" words ", records.counters.words);
        }
        Kind::Tlsf | Kind::HalfFit => {}
    }
    OneLine::Written(Outcome::Other)
}
