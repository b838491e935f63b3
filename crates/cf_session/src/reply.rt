//! Writing a reply of one line to the sink, after the lead (in mode `compare` the kind's name and a
//! space, else empty). If the sink fails, the result is `Failed`, and a prefix of the reply was
//! written.
ghost use Rattle.std.specs.Prelude.{◌≤◌, List, ℕ, length, ◌≡◌};
ghost use Rattle.cf_session.specs.Apply.{IsEnded};
ghost use Rattle.cf_session.specs.OneLine.{HasRoom, IsPut, SaidOn, lines_at};
ghost use Rattle.cf_session.specs.Short.{short_text};

use crate::outcome::Outcome;
use crate::short::{OneLine, Short};
use cf_base::Failed;
use cf_io::{Line, Sink, begin_line, push_text, put_all, put_line};

/// The result of a command whose reply has this `outcome`: the outcome if the reply was written
/// (`written` is `Ok`), else `Failed`.
pub fn ended(written: Result<(), Failed>, outcome: Outcome) -> Result<Outcome, Failed>
    ensures { IsEnded written outcome result }
{
    match written {
        Ok(()) => Ok(outcome),
        Err(failed) => Err(failed),
    }
}

/// Writes a reply of one line to the sink: a short reply after the lead, or what `line` holds, which is the lead
/// and the text; `line` must have room for the line feed, which is added. Returns the reply's outcome, or
/// `Failed` if the sink failed; then a prefix was written. The lead has at most 8 bytes.
pub(crate) fn put_reply<K: Sink>(
    reply: OneLine,
    lead: &[u8],
    line: &mut Line,
    out: &mut K,
) -> Result<Outcome, Failed>
    requires lead { length lead.now ≤ 8 }
    requires room { HasRoom line.old reply }
    ensures { (text : List ℕ) → SaidOn (lines_at lead.now line.old) text reply
        → IsPut text lead.now (K.state out.old) result (K.state out.new) }
{
    match reply {
        OneLine::Short(short) => put_short_line(short, lead, line, out),
        OneLine::Written(outcome) => ended(put_line(line, out), outcome),
    }
}

/// Writes the lead (in mode `compare` the kind's name and a space, else empty), of at most 8 bytes,
/// and a short reply to the sink, and returns the reply's outcome, or `Failed` if the sink failed;
/// then a prefix was written. If the lead is empty, the text is not copied into `line`, which is
/// scratch.
pub(crate) fn put_short_line<K: Sink>(
    short: Short,
    lead: &[u8],
    line: &mut Line,
    out: &mut K,
) -> Result<Outcome, Failed>
    requires { length lead.now ≤ 8 }
    ensures { IsPut (short_text short) lead.now (K.state out.old) result (K.state out.new) }
{
    if lead.len() > 0 {
        begin_line(line, lead);
        push_text(line, short.text_line());
        return ended(put_all(out, line.bytes()), short.outcome());
    }
    ended(put_all(out, short.text_line()), short.outcome())
}
