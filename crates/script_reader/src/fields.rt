//! Reads the fields of a line: the tokens after its first one, as numbers in their ranges or as texts. Each
//! function reads fields from the start of a text, and returns `None` if one is missing or out of range. A
//! `take_` function returns the text after its field too; every other one also returns `None` if a further
//! token follows. The functions for the most common commands are inlined, so that their numbers stay in
//! registers.
ghost use Rattle.std.specs.Prelude.{◌≡◌, ◌≤◌, IfSome, Some, option_map};
ghost use Rattle.cf_io.specs.Numbers.{number_in};
ghost use Rattle.script_reader.specs.Commands as grammar;
ghost use Rattle.script_reader.specs.Fields.{first_by, one_by, two_by};
ghost use Rattle.script_reader.specs.Lines.{tokens};

use crate::tokens::{is_done, split_token, take_number};
use cf_base::CHUNK;

/// Reads the first token of `text` as a number, and returns it with the text after the token.
/// `None` if there is no token, or it isn't a number from `low` to `high`.
#[inline(always)]
fn take_from(low: u32, high: u32, text: &[u8]) -> Option<(u32, &[u8])>
    ensures value { option_map (λ p. (p.0, tokens p.1.now)) result
        ≡ first_by (grammar.number_from low high) (tokens text.now) }
    ensures within { IfSome result (λ p. (low ≤ p.0) × (p.0 ≤ high)) }
{
    let (n, rest) = take_number(text)?;
    if low <= n && n <= high {
        Some((n, rest))
    } else {
        None
    }
}

/// Reads the first token of `text` as an id, and returns it with the text after the token. `None`
/// if there is no token, or it isn't a number from 0 to 65,535.
#[inline(always)]
fn take_id(text: &[u8]) -> Option<(u16, &[u8])>
    ensures { option_map (λ p. (p.0, tokens p.1.now)) result ≡ first_by grammar.id_in (tokens text.now) }
{
    let (n, rest) = take_from(0, 65_535, text)?;
    Some((n as u16, rest))
}

/// The only token of the text, as a number. `None` if the text hasn't exactly one token, or the
/// token isn't a number from `low` to `high`.
#[inline(always)]
fn one_from(low: u32, high: u32, args: &[u8]) -> Option<u32>
    ensures value { result ≡ one_by (grammar.number_from low high) (tokens args.now) }
    ensures within { IfSome result (λ n. (low ≤ n) × (n ≤ high)) }
{
    let (n, rest) = take_from(low, high, args)?;
    if is_done(rest) { Some(n) } else { None }
}

/// The only token of the text. `None` if the text hasn't exactly one.
fn one_token(text: &[u8]) -> Option<&[u8]>
    ensures { grammar.one_of (tokens text.now) ≡ option_map (λ a. a.now) result }
{
    let (first, rest) = split_token(text)?;
    if is_done(rest) { Some(first) } else { None }
}

/// The only token of the text, as an id from 0 to 65,535. `None` if the text is anything else.
#[inline(always)]
pub fn one_id(args: &[u8]) -> Option<u16>
    ensures { result ≡ grammar.one_id (tokens args.now) }
{
    let n = one_from(0, 65_535, args)?;
    Some(n as u16)
}

/// The only token of the text, as a number of 32 bits. `None` if the text is anything else.
#[inline(always)]
pub fn one_number(args: &[u8]) -> Option<u32>
    ensures { result ≡ grammar.one_number (tokens args.now) }
{
    let (n, rest) = take_number(args)?;
    if is_done(rest) { Some(n) } else { None }
}

/// The only token of the text, as a task from 0 to 15. `None` if the text is anything else.
pub fn one_task(args: &[u8]) -> Option<u32>
    ensures value { result ≡ grammar.one_task (tokens args.now) }
    ensures within { IfSome result (λ n. n ≤ 15) }
{
    one_from(0, 15, args)
}

/// The two tokens of the text, as an id and a number of 32 bits. `None` if the text is anything else.
#[inline(always)]
pub fn id_and_number(args: &[u8]) -> Option<(u16, u32)>
    ensures { result ≡ grammar.id_and_number (tokens args.now) }
{
    let (id, rest) = take_id(args)?;
    let n = one_number(rest)?;
    Some((id, n))
}

/// The two tokens of the text, as a number of 32 bits and the bound k of a class, from 1 to 64.
/// `None` if the text is anything else.
pub fn number_and_bound(args: &[u8]) -> Option<(u32, u32)>
    ensures value { result ≡ grammar.number_and_bound (tokens args.now) }
    ensures within { IfSome result (λ p. (1 ≤ p.1) × (p.1 ≤ 64)) }
{
    let (n, rest) = take_number(args)?;
    let k = one_from(1, 64, rest)?;
    Some((n, k))
}

/// The two tokens of the text, as a task from 0 to 15 and a number of 32 bits. `None` if the text is
/// anything else.
pub fn task_and_number(args: &[u8]) -> Option<(u32, u32)>
    ensures value { result ≡ grammar.task_and_number (tokens args.now) }
    ensures within { IfSome result (λ p. p.0 ≤ 15) }
{
    let (task, rest) = take_from(0, 15, args)?;
    let n = one_number(rest)?;
    Some((task, n))
}

/// The two tokens of the text, as numbers of 32 bits. `None` if the text is anything else.
pub fn two_numbers(args: &[u8]) -> Option<(u32, u32)>
    ensures { result ≡ two_by number_in number_in (tokens args.now) }
{
    let (m, rest) = take_number(args)?;
    let n = one_number(rest)?;
    Some((m, n))
}

/// The three tokens of the text, as a task from 0 to 15 and two numbers of 32 bits. `None` if the text is
/// anything else.
pub fn task_and_numbers(args: &[u8]) -> Option<(u32, u32, u32)>
    ensures value { result ≡ grammar.task_and_numbers (tokens args.now) }
    ensures within { IfSome result (λ p. p.0 ≤ 15) }
{
    let (task, rest) = take_from(0, 15, args)?;
    let (m, n) = two_numbers(rest)?;
    Some((task, m, n))
}

/// The two tokens of the text, as a number of 32 bits and the number of bytes that a read prints, at most
/// 4,096. `None` if the text is anything else.
#[inline(always)]
fn number_and_length(args: &[u8]) -> Option<(u32, u16)>
    ensures value { result ≡ two_by number_in grammar.length_in (tokens args.now) }
    ensures within { IfSome result (λ p. p.1 ≤ CHUNK) }
{
    let (n, rest) = take_number(args)?;
    let len = one_from(0, CHUNK as u32, rest)?;
    Some((n, len as u16))
}

/// The three tokens of the text, as an id, a number of 32 bits, and the number of bytes that a read prints,
/// at most 4,096. `None` if the text is anything else.
#[inline(always)]
pub fn id_number_and_length(args: &[u8]) -> Option<(u16, u32, u16)>
    ensures value { result ≡ grammar.id_number_and_length (tokens args.now) }
    ensures within { IfSome result (λ p. p.2 ≤ CHUNK) }
{
    let (id, rest) = take_id(args)?;
    let (n, len) = number_and_length(rest)?;
    Some((id, n, len))
}

/// The two tokens of the text: the first as a number of 32 bits, the second as it stands. `None` if
/// the text is anything else.
#[inline(always)]
fn number_and_text(args: &[u8]) -> Option<(u32, &[u8])>
    ensures { two_by number_in Some (tokens args.now) ≡ option_map (λ p. (p.0, p.1.now)) result }
{
    let (n, rest) = take_number(args)?;
    let text = one_token(rest)?;
    Some((n, text))
}

/// The three tokens of the text: the first as an id, the second as a number of 32 bits, the third
/// as it stands. `None` if the text is anything else.
#[inline(always)]
pub fn id_number_and_text(args: &[u8]) -> Option<(u16, u32, &[u8])>
    ensures { grammar.id_number_and_text (tokens args.now) ≡ option_map (λ p. (p.0, p.1, p.2.now)) result }
{
    let (id, rest) = take_id(args)?;
    let (n, text) = number_and_text(rest)?;
    Some((id, n, text))
}
