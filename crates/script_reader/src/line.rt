//! Reads one line of a script by the grammar. There is a function for each command and for the
//! `heap` line, which reads `args`, the text after the line's first word. It puts the command or
//! the settings into `next` and returns true, or returns false if the text isn't in the grammar;
//! its contract then says nothing of `next`. `is_silent` finds the blank lines and comments, and
//! `LONGEST` is the most bytes of a line.
ghost use Rattle.std.specs.Prelude.{◌≡◌, IsTrue, codes, false, option_map};
ghost use Rattle.std.specs.Str.{bytes_eq};
ghost use Rattle.cf_base.specs.Settings.{profile_of};
ghost use Rattle.script_reader.specs.Answered.{IsInRange, saying_if, is_blank_or_comment, some_if};
ghost use Rattle.script_reader.specs.Commands as grammar;
ghost use Rattle.script_reader.specs.declared.command.Command.{Command};
ghost use Rattle.script_reader.specs.declared.next.Next.TheVariants as answer;
ghost use Rattle.script_reader.specs.Items.{item_in, item_or_wrong, line_says, starts, tokens_say};
ghost use Rattle.script_reader.specs.Lines.{is_too_long as too_long, tokens};
ghost use Rattle.script_reader.specs.Owned.{owned_next};

use crate::command_ref::CommandRef;
use crate::fields::{
    id_and_number, id_number_and_length, id_number_and_text, number_and_bound, one_id, one_number,
    one_task, task_and_number, task_and_numbers, two_numbers,
};
use crate::next_ref::NextRef;
use crate::payload_buffer::PayloadBuffer;
use crate::tokens::{first_other, is_done, split_token, take_number, without_return};
use cf_base::Settings;

/// The most bytes of a line, its line feed not counted.
pub const LONGEST: usize = 8_999;

/// Reads the text after `m` in a line `m ID BYTES`, and puts the command into `next`. False if
/// the text isn't in the grammar.
fn malloc(args: &[u8], next: &mut NextRef) -> bool
    ensures value { some_if result (owned_next next.new) ≡ option_map answer.Command (grammar.malloc_in (tokens args.now)) }
    ensures fits { IsTrue result → IsInRange (owned_next next.new) }
{
    let Some((id, bytes)) = id_and_number(args) else {
        return false;
    };
    *next = NextRef::Command(CommandRef::Malloc { id, bytes });
    true
}

/// Reads the text after `f` in a line `f ID`, and puts the command into `next`. False if
/// the text isn't in the grammar.
fn free(args: &[u8], next: &mut NextRef) -> bool
    ensures value { some_if result (owned_next next.new) ≡ option_map answer.Command (grammar.free_in (tokens args.now)) }
    ensures fits { IsTrue result → IsInRange (owned_next next.new) }
{
    let Some(id) = one_id(args) else {
        return false;
    };
    *next = NextRef::Command(CommandRef::Free { id });
    true
}

/// Reads the text after `w` in a line `w ID AT HEX`. Puts the bytes into `payload` and the command, which
/// borrows them, into `next`. False if the text isn't in the grammar.
fn write<'a>(args: &[u8], payload: &'a mut PayloadBuffer, next: &mut NextRef<'a>) -> bool
    ensures value { some_if result (owned_next next.new) ≡ option_map answer.Command (grammar.write_in (tokens args.now)) }
    ensures fits { IsTrue result → IsInRange (owned_next next.new) }
{
    let Some((id, at, digits)) = id_number_and_text(args) else {
        return false;
    };
    if !payload.take_hex(digits) {
        return false;
    }
    let bytes = payload.bytes();
    *next = NextRef::Command(CommandRef::Write { id, at, bytes });
    true
}

/// Reads the text after `r` in a line `r ID AT LEN`, and puts the command into `next`. False if
/// the text isn't in the grammar.
fn read(args: &[u8], next: &mut NextRef) -> bool
    ensures value { some_if result (owned_next next.new) ≡ option_map answer.Command (grammar.read_in (tokens args.now)) }
    ensures fits { IsTrue result → IsInRange (owned_next next.new) }
{
    let Some((id, at, len)) = id_number_and_length(args) else {
        return false;
    };
    *next = NextRef::Command(CommandRef::Read { id, at, len });
    true
}

/// Reads the text after `q` in a line `q ID`, and puts the command into `next`. False if
/// the text isn't in the grammar.
fn place(args: &[u8], next: &mut NextRef) -> bool
    ensures value { some_if result (owned_next next.new) ≡ option_map answer.Command (grammar.place_command_in (tokens args.now)) }
    ensures fits { IsTrue result → IsInRange (owned_next next.new) }
{
    let Some(id) = one_id(args) else {
        return false;
    };
    *next = NextRef::Command(CommandRef::Place { id });
    true
}

/// Reads the text after `b` in a line `b ID I`, and puts the command into `next`. False if
/// the text isn't in the grammar.
fn block(args: &[u8], next: &mut NextRef) -> bool
    ensures value { some_if result (owned_next next.new) ≡ option_map answer.Command (grammar.block_command_in (tokens args.now)) }
    ensures fits { IsTrue result → IsInRange (owned_next next.new) }
{
    let Some((id, i)) = id_and_number(args) else {
        return false;
    };
    *next = NextRef::Command(CommandRef::Block { id, i });
    true
}

/// Reads the text after `p` in a line `p WORD`, and puts the command into `next`. False if
/// the text isn't in the grammar.
fn peek(args: &[u8], next: &mut NextRef) -> bool
    ensures value { some_if result (owned_next next.new) ≡ option_map answer.Command (grammar.peek_in (tokens args.now)) }
    ensures fits { IsTrue result → IsInRange (owned_next next.new) }
{
    let Some(word) = one_number(args) else {
        return false;
    };
    *next = NextRef::Command(CommandRef::Peek { word });
    true
}

/// Reads the text after `k` in a line `k SLOTWORDS K`, and puts the command into `next`. False if
/// the text isn't in the grammar.
fn bound(args: &[u8], next: &mut NextRef) -> bool
    ensures value { some_if result (owned_next next.new) ≡ option_map answer.Command (grammar.bound_command_in (tokens args.now)) }
    ensures fits { IsTrue result → IsInRange (owned_next next.new) }
{
    let Some((slot_words, k)) = number_and_bound(args) else {
        return false;
    };
    *next = NextRef::Command(CommandRef::Bound { slot_words, k });
    true
}

/// Reads the text after `z` in a line `z ID BYTES`, and puts the command into `next`. False if
/// the text isn't in the grammar.
fn resize(args: &[u8], next: &mut NextRef) -> bool
    ensures value { some_if result (owned_next next.new) ≡ option_map answer.Command (grammar.resize_in (tokens args.now)) }
    ensures fits { IsTrue result → IsInRange (owned_next next.new) }
{
    let Some((id, bytes)) = id_and_number(args) else {
        return false;
    };
    *next = NextRef::Command(CommandRef::Resize { id, bytes });
    true
}

/// Reads the text after `t` in a line `t TASK`, and puts the command into `next`. False if
/// the text isn't in the grammar.
fn task(args: &[u8], next: &mut NextRef) -> bool
    ensures value { some_if result (owned_next next.new) ≡ option_map answer.Command (grammar.task_command_in (tokens args.now)) }
    ensures fits { IsTrue result → IsInRange (owned_next next.new) }
{
    let Some(task) = one_task(args) else {
        return false;
    };
    *next = NextRef::Command(CommandRef::Task { task });
    true
}

/// Reads the text after `quota` in a line `quota TASK PAGES`, and puts the command into `next`. False if
/// the text isn't in the grammar.
fn quota(args: &[u8], next: &mut NextRef) -> bool
    ensures value { some_if result (owned_next next.new) ≡ option_map answer.Command (grammar.quota_in (tokens args.now)) }
    ensures fits { IsTrue result → IsInRange (owned_next next.new) }
{
    let Some((task, pages)) = task_and_number(args) else {
        return false;
    };
    *next = NextRef::Command(CommandRef::Quota { task, pages });
    true
}

/// Reads the text after `need` in a line `need TASK BYTES COUNT`, and puts the command into `next`. False if
/// the text isn't in the grammar.
fn need(args: &[u8], next: &mut NextRef) -> bool
    ensures value { some_if result (owned_next next.new) ≡ option_map answer.Command (grammar.need_in (tokens args.now)) }
    ensures fits { IsTrue result → IsInRange (owned_next next.new) }
{
    let Some((task, bytes, count)) = task_and_numbers(args) else {
        return false;
    };
    *next = NextRef::Command(CommandRef::Need { task, bytes, count });
    true
}

/// Reads the text after `admit` in a line `admit TASK`, and puts the command into `next`. False if
/// the text isn't in the grammar.
fn admit(args: &[u8], next: &mut NextRef) -> bool
    ensures value { some_if result (owned_next next.new) ≡ option_map answer.Command (grammar.admit_in (tokens args.now)) }
    ensures fits { IsTrue result → IsInRange (owned_next next.new) }
{
    let Some(task) = one_task(args) else {
        return false;
    };
    *next = NextRef::Command(CommandRef::Admit { task });
    true
}

/// Reads the text after `s`, which must have no token, and puts the command into `next`. False if
/// the text has a token.
fn slice(args: &[u8], next: &mut NextRef) -> bool
    ensures value { some_if result (owned_next next.new) ≡ option_map answer.Command (grammar.alone_in Command.Slice (tokens args.now)) }
    ensures fits { IsTrue result → IsInRange (owned_next next.new) }
{
    *next = NextRef::Command(CommandRef::Slice);
    is_done(args)
}

/// Reads the text after `walk`, which must have no token, and puts the command into `next`. False
/// if the text has a token.
fn walk(args: &[u8], next: &mut NextRef) -> bool
    ensures value { some_if result (owned_next next.new) ≡ option_map answer.Command (grammar.alone_in Command.Walk (tokens args.now)) }
    ensures fits { IsTrue result → IsInRange (owned_next next.new) }
{
    *next = NextRef::Command(CommandRef::Walk);
    is_done(args)
}

/// Reads the text after `frag`, which must have no token, and puts the command into `next`. False
/// if the text has a token.
fn frag(args: &[u8], next: &mut NextRef) -> bool
    ensures value { some_if result (owned_next next.new) ≡ option_map answer.Command (grammar.alone_in Command.Frag (tokens args.now)) }
    ensures fits { IsTrue result → IsInRange (owned_next next.new) }
{
    *next = NextRef::Command(CommandRef::Frag);
    is_done(args)
}

/// Reads the text after `steps`, which must have no token, and puts the command into `next`. False
/// if the text has a token.
fn steps(args: &[u8], next: &mut NextRef) -> bool
    ensures value { some_if result (owned_next next.new) ≡ option_map answer.Command (grammar.alone_in Command.Steps (tokens args.now)) }
    ensures fits { IsTrue result → IsInRange (owned_next next.new) }
{
    *next = NextRef::Command(CommandRef::Steps);
    is_done(args)
}

/// Reads the text `args` after the one-letter word `letter` of a line. Puts the command into
/// `next`, and the bytes of a write into `payload`. False if no command has this letter, or the
/// text isn't in the grammar.
fn letter_command<'a>(
    letter: u8,
    args: &[u8],
    payload: &'a mut PayloadBuffer,
    next: &mut NextRef<'a>,
) -> bool
    ensures value { some_if result (owned_next next.new) ≡ option_map answer.Command (grammar.letter_command letter (tokens args.now)) }
    ensures fits { IsTrue result → IsInRange (owned_next next.new) }
{
    match letter {
        b'm' => malloc(args, next),
        b'f' => free(args, next),
        b'w' => write(args, payload, next),
        b'r' => read(args, next),
        b'q' => place(args, next),
        b'b' => block(args, next),
        b'p' => peek(args, next),
        b'k' => bound(args, next),
        b'z' => resize(args, next),
        b's' => slice(args, next),
        b't' => task(args, next),
        _ => false,
    }
}

/// Reads the text `args` after the first word `word` of a line. Puts the command into `next`. False
/// if no command of more than one letter has this word, or the text isn't in the grammar.
fn word_command(word: &[u8], args: &[u8], next: &mut NextRef) -> bool
    ensures value { some_if result (owned_next next.new) ≡ option_map answer.Command (grammar.word_command word.now (tokens args.now)) }
    ensures fits { IsTrue result → IsInRange (owned_next next.new) }
{
    if word == b"walk".as_slice() {
        walk(args, next)
    } else if word == b"frag".as_slice() {
        frag(args, next)
    } else if word == b"steps".as_slice() {
        steps(args, next)
    } else if word == b"quota".as_slice() {
        quota(args, next)
    } else if word == b"need".as_slice() {
        need(args, next)
    } else if word == b"admit".as_slice() {
        admit(args, next)
    } else {
        false
    }
}

/// Reads the text after `heap` in a line `heap PAGES PAGEBYTES K PROXIES`, and returns the
/// settings. `None` if the text isn't four numbers, or the settings aren't allowed.
fn settings(args: &[u8]) -> Option<Settings>
    ensures { option_map (λ s. profile_of s) result ≡ grammar.settings_in (tokens args.now) }
{
    let (pages, rest) = take_number(args)?;
    let (page_bytes, rest) = take_number(rest)?;
    let (k, proxies) = two_numbers(rest)?;
    match Settings::check(pages, page_bytes, k, proxies) {
        Ok(settings) => Some(settings),
        Err(_) => None,
    }
}

/// Whether the line has more than 8,999 bytes, the most that a line may have.
fn is_too_long(text: &[u8]) -> bool
    ensures { result ≡ too_long text.now }
{
    text.len() > LONGEST
}

/// Whether the first token of a line is `heap`.
fn is_heap(word: &[u8]) -> bool
    ensures { result ≡ bytes_eq word.now (codes "heap") }
{
    word == b"heap".as_slice()
}

/// Whether a line, given without its line feed, is blank or a comment. A line of more than 8,999
/// bytes is neither.
pub fn is_silent(text: &[u8]) -> bool
    ensures { result ≡ is_blank_or_comment (line_says text.now) }
{
    !is_too_long(text) && has_no_item(without_return(text))
}

/// Whether the text of a line is blank (it has no token) or a comment (its first token begins with
/// `#`).
#[tactic(auto, using(crate::proofs::SilentLines::item_at_once))]
fn has_no_item(text: &[u8]) -> bool
    ensures { result ≡ is_blank_or_comment (tokens_say (tokens text.now)) }
{
    // Most lines begin with a letter, which is greater than `#`, and need no search.
    if text.len() > 0 && text[0] > b'#' {
        return false;
    }
    match first_other(text) {
        Some(at) => text[at] == b'#',
        None => true,
    }
}

/// Reads a line, given without its line feed, that is neither blank nor a comment. Puts its command, or the
/// settings of a `heap` line, into `next`, and the bytes of a write into `payload`. False if the line isn't
/// in the grammar.
pub fn read_line<'a>(text: &[u8], payload: &'a mut PayloadBuffer, next: &mut NextRef<'a>) -> bool
    requires { is_blank_or_comment (line_says text.now) ≡ false }
    ensures value { saying_if result (owned_next next.new) ≡ line_says text.now }
    ensures fits { IsTrue result → IsInRange (owned_next next.new) }
{
    if is_too_long(text) {
        return false;
    }
    match split_token(without_return(text)) {
        Some((word, args)) => read_item(word, args, payload, next),
        None => false,
    }
}

/// Reads a line from its first token `word` and the text `args` after the token. Puts the command,
/// or the settings of a `heap` line, into `next`, and the bytes of a write into `payload`. False if
/// these aren't in the grammar.
fn read_item<'a>(
    word: &[u8],
    args: &[u8],
    payload: &'a mut PayloadBuffer,
    next: &mut NextRef<'a>,
) -> bool
    ensures value { saying_if result (owned_next next.new) ≡ item_or_wrong (item_in word.now (tokens args.now)) }
    ensures fits { IsTrue result → IsInRange (owned_next next.new) }
{
    if word.len() == 1 {
        return letter_command(word[0], args, payload, next);
    }
    if is_heap(word) {
        return start(args, next);
    }
    word_command(word, args, next)
}

/// Reads the text after `heap` in a line `heap PAGES PAGEBYTES K PROXIES`, and puts the settings
/// into `next`. False if the text isn't four numbers, or the settings aren't allowed.
fn start(args: &[u8], next: &mut NextRef) -> bool
    ensures value { saying_if result (owned_next next.new) ≡ item_or_wrong (option_map starts (grammar.settings_in (tokens args.now))) }
    ensures fits { IsTrue result → IsInRange (owned_next next.new) }
{
    let Some(settings) = settings(args) else {
        return false;
    };
    *next = NextRef::Start(settings);
    true
}
