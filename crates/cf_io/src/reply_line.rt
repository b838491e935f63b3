//! Builds one line of a reply in a buffer, from its lead, texts and numbers, and then writes it as
//! a whole. The lead is the text that mode `compare` puts before each line: the name of a manager's
//! kind, and a space.
ghost use Rattle.std.specs.Prelude.{◌≡◌, ◌+◌, ◌<◌, ◌≤◌, ◌++◌, ◌∷◌, [], length};
ghost use Rattle.cf_io.specs.Feeds.{Writes};
ghost use Rattle.cf_io.specs.Lines.{line_capacity};
ghost use Rattle.cf_io.specs.Texts.{with_number};

use crate::line::Line;
use crate::sink::Sink;
use crate::writing::put_all;
use cf_base::Failed;

/// The most bytes of a line's lead, the text that mode `compare` puts before each line.
pub const MOST_LEAD: usize = 8;

/// Empties the line of a reply, then appends its lead, which has at most 8 bytes and may be empty.
pub fn begin_line(line: &mut Line, lead: &[u8])
    requires { length lead.now ≤ 8 }
    ensures { line.new ≡ lead.now }
{
    line.clear();
    line.push(lead).unwrap();
}

/// Appends a text to the line of a reply, which must have room for it.
pub fn push_text(line: &mut Line, text: &[u8])
    requires { length line.old + length text.now ≤ line_capacity }
    ensures { line.new ≡ line.old ++ text.now }
{
    line.push(text).unwrap();
}

/// Appends a text and the number `n` in decimal to the line of a reply. The line must have room for
/// the text and 20 digits, the most that a number has.
pub fn push_field(line: &mut Line, text: &[u8], n: u64)
    requires { length line.old + (length text.now + 20) ≤ line_capacity }
    ensures text { line.new ≡ line.old ++ with_number text.now n }
    ensures short { length line.new ≤ length line.old + (length text.now + 20) }
{
    line.push(text).unwrap();
    line.push_number(n).unwrap();
}

/// Appends a line feed to the line, which must have room for it, and writes the line to the sink `out`. If a
/// call of the sink fails, the result is `Failed`, and a prefix of the line was written.
pub fn put_line<K: Sink>(line: &mut Line, out: &mut K) -> Result<(), Failed>
    requires { length line.old < line_capacity }
    ensures { Writes (K.state out.old) (line.old ++ 10 ∷ []) result (K.state out.new) }
{
    line.push(b"\n").unwrap();
    put_all(out, line.bytes())
}
