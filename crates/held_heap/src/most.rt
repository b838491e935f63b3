//! The number that C has for a manager's kind, and by kind the most steps of calls, for a caller in
//! C that plans before the call: the bounds of the contracts of `Held` as numbers. A call that is
//! refused takes at most as many.
ghost use Rattle.std.specs.Prelude.{◌≡◌, ◌+◌, ◌^◌, ◌<◌};
ghost use Rattle.cf_model.specs.Costs.{words_touched};
ghost use Rattle.page_model.specs.WordSteps.{blocks_of};
ghost use Rattle.held_heap.specs.Most.{IsMostAccess, IsMostFree, IsMostLength, IsMostMalloc, IsMostResize, IsMostRoom, IsMostTotals, bounds_of, kind_code};

use cf_base::Kind;

/// The number by which C knows a kind of manager.
pub fn kind(kind: Kind) -> u32
    ensures { result ≡ kind_code kind }
{
    match kind {
        Kind::Moving => 0,
        Kind::NonMoving => 1,
        Kind::Tlsf => 2,
        Kind::HalfFit => 3,
    }
}

/// For a step bound, how many blocks of four words hold the `n` words from word `i` on. `i + n` is
/// below `2^62`.
fn blocks_of(i: u64, n: u64) -> u64
    requires { i + n < 2 ^ 62 }
    ensures { result ≡ blocks_of i n }
{
    n.min((i % 4 + n + 3) / 4)
}

/// For a step bound, how many words of an object hold its `count` bytes from byte `at` on.
fn words_touched(at: u32, count: u32) -> u64
    ensures value { result ≡ words_touched at count }
    ensures few { result < 2 ^ 32 }
{
    if count == 0 {
        0
    } else {
        (u64::from(at % 8) + u64::from(count) + 7) / 8
    }
}

/// The most steps of a malloc by this kind's manager.
pub fn most_malloc(kind: Kind) -> u64
    ensures { IsMostMalloc (bounds_of kind) result }
{
    match kind {
        Kind::Moving => 17,
        Kind::NonMoving => 18,
        Kind::Tlsf | Kind::HalfFit => 25,
    }
}

/// The most steps of a free of an object whose slot or block has `slot_words` words.
pub fn most_free(kind: Kind, slot_words: u32) -> u64
    ensures { IsMostFree (bounds_of kind) slot_words result }
{
    let s = u64::from(slot_words);
    match kind {
        Kind::Moving => 20 + s,
        Kind::NonMoving => 22 + s + s / 2,
        Kind::Tlsf | Kind::HalfFit => 41 + s,
    }
}

/// The most steps of a resize to `bytes` bytes, from a slot of `old` words to one of `new` words.
/// With blocks a resize is always refused, after at most 1 step.
pub fn most_resize(kind: Kind, bytes: u32, old: u32, new: u32) -> u64
    ensures { IsMostResize (bounds_of kind) bytes old new result }
{
    let last = 2 + u64::from(bytes) / 8;
    let after = u64::from(new).saturating_sub(last);
    let all = u64::from(old) + u64::from(old.min(new));
    match kind {
        Kind::Moving if new == old => 6 + after,
        Kind::Moving => 34 + all,
        Kind::NonMoving if new == old => 9 + after + blocks_of(last, after),
        Kind::NonMoving => 38 + all + u64::from(old / 2) + u64::from(old.min(new) / 2),
        Kind::Tlsf | Kind::HalfFit => 1,
    }
}

/// The most steps of a read or a write of `count` bytes of a held manager's object from byte `at`
/// on. A call that succeeds takes exactly these.
pub fn most_access(kind: Kind, at: u32, count: u32) -> u64
    ensures { IsMostAccess (bounds_of kind) at count result }
{
    let words = words_touched(at, count);
    match kind {
        Kind::NonMoving => 3 + words + blocks_of(1 + u64::from(at) / 8, words),
        _ => 2 + words,
    }
}

/// The most steps of a test whether this kind's malloc would be refused.
pub fn most_has_room(kind: Kind) -> u64
    ensures { IsMostRoom (bounds_of kind) result }
{
    match kind {
        Kind::Moving | Kind::NonMoving => 1,
        Kind::Tlsf | Kind::HalfFit => 4,
    }
}

/// The most steps of a call for the figures of a whole heap with `free` free pages or blocks.
pub fn most_totals(kind: Kind, free: u32) -> u64
    ensures { IsMostTotals (bounds_of kind) free result }
{
    match kind {
        Kind::Moving | Kind::NonMoving => 0,
        Kind::Tlsf | Kind::HalfFit => 3 + 2 * u64::from(free),
    }
}

/// The most steps of a call for the length of an object of this kind's manager.
pub fn most_length(kind: Kind) -> u64
    ensures { IsMostLength kind result }
{
    if kind == Kind::NonMoving { 3 } else { 2 }
}
