//! Splits a line into tokens, the runs of bytes between spaces and tabs, and reads a token as a
//! number. A space or a tab is called a gap. Also finds a line feed, finds the first byte that is no
//! gap, and cuts off a carriage return.
ghost use Rattle.std.specs.Prelude.{◌≡◌, ◌≤◌, ◌==◌, length, position, not, option_map, true, false, MatchOption, IfSome, [], ◌∷◌};
ghost use Rattle.std.specs.List.{position_or_len};
ghost use Rattle.cf_io.specs.Numbers.{number_in};
ghost use Rattle.script_reader.specs.Commands.{none_of};
ghost use Rattle.script_reader.specs.Fields.{first_by};
ghost use Rattle.script_reader.specs.Lines.{without_return as no_return, is_gap as gap, is_parted as parted, tokens};

use cf_io::leading_number;
use memchr::{memchr_iter, memchr2};

/// Texts of at least this many bytes are searched for a gap by `memchr2`, which tests many bytes at
/// once.
const LONG: usize = 64;

/// The position of the first line feed, if there is one.
pub fn line_feed_at(bytes: &[u8]) -> Option<usize>
    ensures { result ≡ position (λ x. x == 10) bytes.now }
{
    memchr_iter(b'\n', bytes).next()
}

/// The line without its last byte if that is a carriage return, else the line itself.
pub fn without_return(line: &[u8]) -> &[u8]
    ensures { result.now ≡ no_return line.now }
{
    if line.len() == 0 {
        return line;
    }
    let last = line.len() - 1;
    if line[last] == b'\r' {
        &line[..last]
    } else {
        line
    }
}

/// Whether the byte is a gap, a space or a tab: it separates tokens.
fn is_gap(x: u8) -> bool
    ensures { result ≡ gap x }
{
    x == b' ' || x == b'\t'
}

/// The number of gaps that the text begins with.
#[tactic(auto, using(crate::proofs::Words::no_gap_first))]
fn gaps(text: &[u8]) -> usize
    ensures value { result ≡ position_or_len (λ x. not (gap x)) text.now }
    ensures within { result ≤ length text.now }
{
    // Most texts begin with no gap, and need no search: a byte greater than a space is no gap.
    if text.len() > 0 && text[0] > b' ' {
        return 0;
    }
    first_other(text).unwrap_or(text.len())
}

/// The number of bytes before the first gap; all bytes if there is no gap.
fn token_length(text: &[u8]) -> usize
    ensures value { result ≡ position_or_len gap text.now }
    ensures within { result ≤ length text.now }
{
    first_gap(text).unwrap_or(text.len())
}

/// The position of the first byte that is no gap, if there is one.
pub fn first_other(text: &[u8]) -> Option<usize>
    ensures { result ≡ position (λ x. not (gap x)) text.now }
{
    text.iter().position(|x| !is_gap(*x))
}

/// The position of the first gap, if there is one.
fn first_gap(text: &[u8]) -> Option<usize>
    ensures { result ≡ position gap text.now }
{
    if text.len() < LONG {
        text.iter().position(|x| is_gap(*x))
    } else {
        first_gap_in_long(text)
    }
}

/// The position of the first gap, if there is one, by a search that is quick in long texts. A function of its
/// own, so that the code for short texts stays small.
#[inline(never)]
fn first_gap_in_long(text: &[u8]) -> Option<usize>
    ensures { result ≡ position gap text.now }
{
    memchr2(b' ', b'\t', text)
}

/// The first token, and the text after it, with or without the space or tab that ends the token. `None` if the
/// text has no token.
#[inline(always)]
pub fn split_token(text: &[u8]) -> Option<(&[u8], &[u8])>
    ensures value { MatchOption result (tokens text.now ≡ []) (λ p. tokens text.now ≡ p.0.now ∷ tokens p.1.now) }
    ensures some { IfSome result (λ p. 1 ≤ length p.0.now) }
{
    let text = &text[gaps(text)..];
    if text.len() == 0 {
        return None;
    }
    // Most commands are one letter, and need no search for the end of the token.
    if let Some(rest) = past_token(&text[1..]) {
        return Some((&text[..1], rest));
    }
    Some(text.split_at(token_length(text)))
}

/// Whether the text has no token: it is empty, or has only gaps.
pub fn is_done(text: &[u8]) -> bool
    ensures { result ≡ none_of (tokens text.now) }
{
    gaps(text) == text.len()
}

/// The number of 32 bits that the first token spells in decimal, and the text after the token. `None` if the
/// text has no token, or its first one spells no such number.
#[inline(always)]
pub fn take_number(text: &[u8]) -> Option<(u32, &[u8])>
    ensures { option_map (λ p. (p.0, tokens p.1.now)) result ≡ first_by number_in (tokens text.now) }
{
    let text = &text[gaps(text)..];
    let (n, digits) = leading_number(text)?;
    let rest = past_token(&text[digits..])?;
    Some((n, rest))
}

/// If `text`, which follows the first bytes of a token, is empty or begins with a gap, the token
/// ends before it: returns `text` without that gap. `None` if the token continues in `text`.
#[inline(always)]
fn past_token(text: &[u8]) -> Option<&[u8]>
    ensures { MatchOption result (parted text.now ≡ false) (λ rest. (parted text.now ≡ true) × (tokens rest.now ≡ tokens text.now)) }
{
    if text.len() == 0 {
        Some(text)
    } else if is_gap(text[0]) {
        Some(&text[1..])
    } else {
        None
    }
}
