//! `command_text`: writes a command as a line of a script.
ghost use Rattle.std.specs.Prelude.{◌≡◌, ◌≤◌, ◌++◌, ◌∷◌, [], length, IsOk};
ghost use Rattle.cf_io.specs.Lines.{Pushes};
ghost use Rattle.script_reader.specs.CommandText.{line_of, spaced, tokens_of, word_and_numbers};
ghost use Rattle.hex.specs.Hex.{encode_lower};
ghost use Rattle.script_reader.specs.Commands.{IsWellFormed};

use crate::Command;
use cf_io::{Full, Line, push_field, push_text};

/// Appends the line of the command `c`, with its line feed, to the buffer `line`. Tokens are
/// separated by single spaces; numbers are decimal, without leading zeros; bytes are in lower-case
/// hexadecimal. Returns `Full`, with nothing appended, if and only if the buffer would then have
/// more than 9,000 bytes; an empty buffer is always long enough. The fields of `c` must be in the
/// ranges of the grammar.
pub fn command_text(c: &Command, line: &mut Line) -> Result<(), Full>
    requires { IsWellFormed c.now }
    ensures pushes { Pushes line.old (line_of c.now) result line.new }
    ensures fits { line.old ≡ [] → IsOk result }
{
    let mut whole = Line::new();
    push_command(&mut whole, c);
    push_text(&mut whole, b"\n");
    line.push(whole.bytes())
}

/// Writes the line of the command `c`, without its line feed, into an empty buffer: at most 8,999
/// bytes. The fields of `c` must be in the ranges of the grammar.
fn push_command(line: &mut Line, c: &Command)
    requires empty { line.old ≡ [] }
    requires formed { IsWellFormed c.now }
    ensures text { line.new ≡ spaced (tokens_of c.now) }
    ensures short { length line.new ≤ 8999 }
{
    match c {
        Command::Malloc { id, bytes } => push_two(line, b"m", *id as u64, *bytes as u64),
        Command::Free { id } => push_one(line, b"f", *id as u64),
        Command::Write { id, at, bytes } => {
            push_two(line, b"w", *id as u64, *at as u64);
            push_bytes(line, bytes.bytes());
        }
        Command::Read { id, at, len } => {
            push_three(line, b"r", *id as u64, *at as u64, *len as u64)
        }
        Command::Place { id } => push_one(line, b"q", *id as u64),
        Command::Block { id, i } => push_two(line, b"b", *id as u64, *i as u64),
        Command::Peek { word } => push_one(line, b"p", *word as u64),
        Command::Walk => push_text(line, b"walk"),
        Command::Frag => push_text(line, b"frag"),
        Command::Steps => push_text(line, b"steps"),
        Command::Bound { slot_words, k } => push_two(line, b"k", *slot_words as u64, *k as u64),
        Command::Resize { id, bytes } => push_two(line, b"z", *id as u64, *bytes as u64),
        Command::Slice => push_text(line, b"s"),
        Command::Task { task } => push_one(line, b"t", *task as u64),
        Command::Quota { task, pages } => { push_two(line, b"quota", *task as u64, *pages as u64) }
        Command::Need { task, bytes, count } => {
            push_three(line, b"need", *task as u64, *bytes as u64, *count as u64)
        }
        Command::Admit { task } => push_one(line, b"admit", *task as u64),
    }
}

/// For a script's line, writes the token `word`, of at most 5 bytes, a space and the number `a`
/// into an empty buffer.
fn push_one(line: &mut Line, word: &[u8], a: u64)
    requires empty { line.old ≡ [] }
    requires word { length word.now ≤ 5 }
    ensures text { line.new ≡ spaced (word_and_numbers word.now (a ∷ [])) }
    ensures short { length line.new ≤ 26 }
{
    push_text(line, word);
    push_field(line, b" ", a);
}

/// For a script's line, writes the token `word`, of at most 5 bytes, and the numbers `a` and `b`,
/// separated by spaces, into an empty buffer.
fn push_two(line: &mut Line, word: &[u8], a: u64, b: u64)
    requires empty { line.old ≡ [] }
    requires word { length word.now ≤ 5 }
    ensures text { line.new ≡ spaced (word_and_numbers word.now (a ∷ b ∷ [])) }
    ensures short { length line.new ≤ 47 }
{
    push_one(line, word, a);
    push_field(line, b" ", b);
}

/// For a script's line, writes the token `word`, of at most 5 bytes, and the numbers `a`, `b` and
/// `c`, separated by spaces, into an empty buffer.
fn push_three(line: &mut Line, word: &[u8], a: u64, b: u64, c: u64)
    requires empty { line.old ≡ [] }
    requires word { length word.now ≤ 5 }
    ensures text { line.new ≡ spaced (word_and_numbers word.now (a ∷ b ∷ c ∷ [])) }
    ensures short { length line.new ≤ 68 }
{
    push_two(line, word, a, b);
    push_field(line, b" ", c);
}

/// Appends a space and the bytes, two lower-case hexadecimal digits each, to a script's line. So
/// that they fit, the line must have at most 47 bytes before, and there must be at most 4,096
/// bytes.
fn push_bytes(line: &mut Line, bytes: &[u8])
    requires line { length line.old ≤ 47 }
    requires bytes { length bytes.now ≤ 4096 }
    ensures text { line.new ≡ line.old ++ 32 ∷ encode_lower bytes.now }
    ensures short { length line.new ≤ 8240 }
{
    push_text(line, b" ");
    line.push_hex(bytes).unwrap();
}
