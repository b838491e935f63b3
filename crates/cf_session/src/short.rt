//! Replies of one line: the fixed texts that sessions of all modes use (`Short`), which of them a
//! malloc, read or write gets that the heap refuses, and how a reply is appended to a line.
ghost use Rattle.std.specs.Prelude.{◌≡◌, ◌<◌, ◌≤◌, ◌++◌, ◌∷◌, [], Err, codes, length};
ghost use Rattle.cf_base.specs.declared.numbers.TheConstants.{CHUNK};
ghost use Rattle.cf_io.specs.Lines.{line_capacity};
ghost use Rattle.cf_session.specs.Apply.{outcome_in};
ghost use Rattle.cf_session.specs.Short.{short_text};
ghost use Rattle.hex.specs.Hex.{encode_lower};
ghost use Rattle.run_model.specs.Replies.{malloc_text, write_text};

use crate::outcome::Outcome;
use cf_base::{AccessFault, Refusal};
use cf_io::{Line, push_text};

/// A reply of one line: `Short`, a fixed text that isn't in the buffer `line` yet; or `Written`, the outcome of a
/// reply that `line` holds already.
#[derive(Clone, Copy)]
pub(crate) enum OneLine {
    Short(Short),
    Written(Outcome),
}

/// A reply that is one fixed text; `text_line` has the text of each. Sessions of every mode use them.
#[derive(Clone, Copy)]
pub enum Short {
    Done,
    Live,
    Unknown,
    Range,
    Lacking,
    Busy,
    Full,
    RefusedSize,
    RefusedProxy,
    RefusedSpace,
    RefusedSum,
    RefusedUsed,
}

impl Short {
    /// The text of the short reply, with a line feed at its end.
    pub(crate) fn text_line(self) -> &'static [u8]
        ensures text { result.now ≡ short_text self ++ 10 ∷ [] }
        ensures short { length result.now ≤ 20 }
    {
        match self {
            Short::Done => b"ok\n",
            Short::Live => b"live\n",
            Short::Unknown => b"unknown\n",
            Short::Range => b"range\n",
            Short::Lacking => b"none\n",
            Short::Busy => b"busy\n",
            Short::Full => b"full\n",
            Short::RefusedSize => b"refused size\n",
            Short::RefusedProxy => b"refused proxy\n",
            Short::RefusedSpace => b"refused space\n",
            Short::RefusedSum => b"refused sum\n",
            Short::RefusedUsed => b"refused used\n",
        }
    }

    /// The outcome of the short reply: `Good` for `ok`, `Refused` for a text that begins with `refused`, else `Other`.
    pub(crate) fn outcome(self) -> Outcome
        ensures { result ≡ outcome_in (short_text self) }
    {
        match self {
            Short::Done => Outcome::Good,
            Short::Live
            | Short::Unknown
            | Short::Range
            | Short::Lacking
            | Short::Busy
            | Short::Full => Outcome::Other,
            Short::RefusedSize
            | Short::RefusedProxy
            | Short::RefusedSpace
            | Short::RefusedSum
            | Short::RefusedUsed => Outcome::Refused,
        }
    }
}

/// The short reply to a malloc that a heap refused.
pub fn refusal_reply(refusal: Refusal) -> Short
    ensures { short_text result ≡ malloc_text (Err refusal) }
{
    match refusal {
        Refusal::Size => Short::RefusedSize,
        Refusal::Proxy => Short::RefusedProxy,
        Refusal::Space => Short::RefusedSpace,
    }
}

/// The short reply to a read or a write that a heap refused.
pub fn fault_reply(fault: AccessFault) -> Short
    ensures { short_text result ≡ write_text (Err fault) }
{
    match fault {
        AccessFault::Unknown => Short::Unknown,
        AccessFault::Range => Short::Range,
    }
}

/// Appends the text of a short reply to an empty line, without a line feed, and returns the reply's
/// outcome.
pub fn push_short(line: &mut Line, short: Short) -> Outcome
    requires { line.old ≡ [] }
    ensures text { line.new ≡ short_text short }
    ensures room { length line.new < line_capacity }
    ensures outcome { result ≡ outcome_in line.new }
{
    let text = short.text_line();
    push_text(line, &text[..text.len() - 1]);
    short.outcome()
}

/// Appends the reply to a read to an empty line: `=` and the bytes, at most 4,096, in hexadecimal,
/// without a line feed. Returns the reply's outcome.
pub fn push_bytes(line: &mut Line, bytes: &[u8]) -> Outcome
    requires empty { line.old ≡ [] }
    requires few { length bytes.now ≤ CHUNK }
    ensures text { line.new ≡ codes "=" ++ encode_lower bytes.now }
    ensures room { length line.new < line_capacity }
    ensures outcome { result ≡ outcome_in line.new }
{
    push_text(line, b"=");
    line.push_hex(bytes).unwrap();
    Outcome::Good
}
