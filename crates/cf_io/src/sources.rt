//! The sources in memory: `SureSource` never fails, `MemSource` fails by a schedule, and
//! `LoopSource` never ends. Their calls are counted as the trait `Source` says.
ghost use Rattle.std.specs.Prelude.{◌≡◌, ◌<◌, ◌≤◌, ◌+◌, ◌%◌, ◌++◌, false, Some, None, length, take, drop, IfOk};
ghost use Rattle.std.specs.Result.{result_ok};
ghost use Rattle.cf_io.specs.Sources.{RepeatsPattern, filled, loop_after, loop_source};
ghost use Rattle.cf_io.specs.Sources.{mem_after, mem_answer, mem_buffer, mem_source};
ghost use Rattle.cf_io.specs.Sources.{sure_after, sure_count, sure_source};

use crate::schedule::Schedule;
use crate::source::Source;
use cf_base::Failed;
use std::marker::Model;

/// A source in memory that never fails. The bytes from index `at` on are left; they are observable.
/// `given` counts the bytes that the source returned, and `calls` its calls; both saturate.
#[derive(Drop)]
pub struct SureSource {
    bytes: Vec<u8>,
    at: usize,
    given: u64,
    calls: u64,
}

impl Model for SureSource {
    ghost use Rattle.std.specs.Prelude.{◌≤◌, drop, length};
    ghost use Rattle.cf_io.specs.Sources.{SureSource as View};

    ghost Value = { View };

    ghost view = { λ s. record { left = drop s.at s.bytes.items; given = s.given; calls = s.calls } };

    ghost invariant = { λ s. s.at ≤ length s.bytes.items };
}

impl SureSource {
    /// A source of these bytes, before its first call.
    pub fn new(bytes: Vec<u8>) -> SureSource
        ensures { result ≡ sure_source bytes.items }
    {
        SureSource {
            bytes,
            at: 0,
            given: 0,
            calls: 0,
        }
    }
}

impl Source for SureSource {
    ghost state = { λ s. record { rest = Some s.left; given = s.given; calls = s.calls; faults = 0; last_failed = false } };

    /// `SureSource`: copies the bytes left to the start of `buf`, or the first of them if not all fit, and returns how
    /// many it copied.
    fn take(&mut self, buf: &mut [u8]) -> Result<usize, Failed>
        // The bytes of `buf` after the copied ones stay.
        ensures sure { result ≡ Ok (sure_count self.old (length buf.old)) }
        ensures source { self.new ≡ sure_after self.old (sure_count self.old (length buf.old)) }
        ensures buffer { buf.new ≡ filled (sure_count self.old (length buf.old)) self.old.left buf.old }
    {
        let n = buf.len().min(self.bytes.len() - self.at);
        copy_first(&self.bytes[self.at..], n, buf);
        self.at += n;
        self.given = self.given.saturating_add(n as u64);
        self.calls = self.calls.saturating_add(1);
        Ok(n)
    }
}

/// A source in memory that fails by a schedule. The bytes from index `at` on are left; they are
/// observable. `given` counts the bytes that the source returned, and saturates.
///
/// Calls are numbered from 0; the number, and the count of the calls that failed, saturate at the
/// last value of a u64. `fails` and `cuts`, the arguments of `new`, are the schedule. Call j fails
/// if and only if j is in `fails`. Else it returns the bytes left that fit the buffer, at most
/// `max(1, cuts[j])` of them if j is below the length of `cuts`.
#[derive(Drop)]
pub struct MemSource {
    bytes: Vec<u8>,
    at: usize,
    given: u64,
    schedule: Schedule,
}

impl Model for MemSource {
    ghost use Rattle.std.specs.Prelude.{◌≤◌, drop, length};
    ghost use Rattle.cf_io.specs.Sources.{MemSource as View};

    ghost Value = { View };

    ghost view = { λ s. record { left = drop s.at s.bytes.items; given = s.given; schedule = s.schedule } };

    ghost invariant = { λ s. s.at ≤ length s.bytes.items };
}

impl MemSource {
    /// A source of these bytes, before its first call. The calls in `fails` fail, and `cuts` limits
    /// the bytes of the first calls.
    pub fn new(bytes: Vec<u8>, cuts: Vec<usize>, fails: Vec<u64>) -> MemSource
        ensures { result ≡ mem_source bytes.items cuts.items fails.items }
    {
        MemSource {
            bytes,
            at: 0,
            given: 0,
            schedule: Schedule::new(cuts, fails),
        }
    }
}

impl Source for MemSource {
    ghost state = { λ s. record {
      rest = Some s.left;
      given = s.given;
      calls = s.schedule.call;
      faults = s.schedule.faults;
      last_failed = s.schedule.failed;
    } };

    /// `MemSource`: fails if the schedule lists this call, and then leaves `buf` unchanged. Else
    /// copies the first bytes left to the start of `buf`, as many as the buffer and the schedule
    /// allow, and returns how many.
    fn take(&mut self, buf: &mut [u8]) -> Result<usize, Failed>
        ensures grows { self.old.schedule.faults ≤ self.new.schedule.faults }
        ensures answer { result_ok result ≡ mem_answer self.old (length buf.old) }
        ensures source { self.new ≡ mem_after self.old (length buf.old) }
        ensures buffer { buf.new ≡ mem_buffer self.old buf.old }
    {
        if self.schedule.is_due() {
            self.schedule.go_wrong();
            return Err(Failed);
        }
        let n = self
            .schedule
            .count_moved(buf.len().min(self.bytes.len() - self.at));
        copy_first(&self.bytes[self.at..], n, buf);
        self.at += n;
        self.given = self.given.saturating_add(n as u64);
        self.schedule.go_well();
        Ok(n)
    }
}

/// A source that fills each buffer with its pattern, over and over, and never fails. Each call
/// continues the pattern where the call before ended: `at` is the index of the pattern's byte that
/// is next. `given` counts the bytes that the source returned, and `calls` its calls; both
/// saturate. The input never ends, so the bytes left are not observable.
#[derive(Drop)]
pub struct LoopSource {
    pattern: Vec<u8>,
    at: usize,
    given: u64,
    calls: u64,
}

impl Model for LoopSource {
    ghost use Rattle.std.specs.Prelude.{◌<◌, length};
    ghost use Rattle.cf_io.specs.Sources.{LoopSource as View};

    ghost Value = { View };

    ghost view = { λ s. record { pattern = s.pattern.items; at = s.at; given = s.given; calls = s.calls } };

    ghost invariant = { λ s. s.at < length s.pattern.items };
}

impl LoopSource {
    /// A source of this pattern, which must not be empty, before its first call.
    pub fn new(pattern: Vec<u8>) -> LoopSource
        requires { 0 < length pattern.items }
        ensures { result ≡ loop_source pattern.items }
    {
        LoopSource {
            pattern,
            at: 0,
            given: 0,
            calls: 0,
        }
    }
}

impl Source for LoopSource {
    ghost state = { λ s. record { rest = None; given = s.given; calls = s.calls; faults = 0; last_failed = false } };

    /// `LoopSource`: fills `buf` with the next bytes of the repeated pattern, and returns the
    /// length of `buf`.
    fn take(&mut self, buf: &mut [u8]) -> Result<usize, Failed>
        ensures full { result ≡ Ok (length buf.old) }
        ensures source { self.new ≡ loop_after self.old (length buf.old) }
        ensures within { IfOk result (λ n. n ≤ length buf.new) }
        ensures buffer { RepeatsPattern self.old.pattern self.old.at buf.new }
    {
        self.at = fill_over(&self.pattern, self.at, buf);
        self.given = self.given.saturating_add(buf.len() as u64);
        self.calls = self.calls.saturating_add(1);
        Ok(buf.len())
    }
}

/// For a source, copies the first n of `bytes` to the start of `buf`; the rest of `buf` stays. Both
/// must have at least n bytes.
fn copy_first(bytes: &[u8], n: usize, buf: &mut [u8])
    requires some { n ≤ length bytes.now }
    requires room { n ≤ length buf.old }
    ensures { buf.new ≡ filled n bytes.now buf.old }
{
    buf[..n].copy_from_slice(&bytes[..n]);
}

/// For `LoopSource`, fills `buf` with the pattern over and over, beginning with the pattern's byte
/// `at`, which must exist. Returns the index of the pattern's byte that is next.
fn fill_over(pattern: &[u8], at: usize, buf: &mut [u8]) -> usize
    requires { at < length pattern.now }
    ensures next { result ≡ (at + length buf.old) % length pattern.now }
    ensures buffer { RepeatsPattern pattern.now at buf.new }
{
    let mut next = at;
    let mut full = 0;
    'copies: while full < buf.len() {
        let n = (buf.len() - full).min(pattern.len() - next);
        copy_part(pattern, next, n, buf, full);
        full += n;
        next += n;
        if next == pattern.len() {
            next = 0;
        }
    }
    next
}

/// For `LoopSource`, copies n bytes of the pattern, from its index `from` on, into `buf` from index
/// `to` on. The pattern and `buf` must have these bytes. The other bytes of `buf` stay.
fn copy_part(pattern: &[u8], from: usize, n: usize, buf: &mut [u8], to: usize)
    requires some { from + n ≤ length pattern.now }
    requires room { to + n ≤ length buf.old }
    ensures { buf.new ≡ take to buf.old ++ take n (drop from pattern.now) ++ drop (to + n) buf.old }
{
    buf[to..to + n].copy_from_slice(&pattern[from..from + n]);
}
