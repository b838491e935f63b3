//! The sinks that are not over a writer of std: `MemSink` keeps the bytes in memory and fails by a
//! schedule, and `NullSink` drops them. Failed calls are counted as the trait `Sink` says.
ghost use Rattle.std.specs.Prelude.{◌≡◌, ◌≤◌, false, None, Ok, Some, length, IfOk};
ghost use Rattle.std.specs.Result.{result_ok};
ghost use Rattle.cf_io.specs.Sinks.{mem_sink, put_after, put_answer};

use crate::schedule::Schedule;
use crate::sink::Sink;
use cf_base::{Failed, OutOfMemory};
use std::alloc::Global;
use std::marker::Model;

/// A sink that drops all bytes and never fails. Its bytes written are not observable.
#[derive(Clone, Copy, Debug)]
pub struct NullSink;

impl Sink for NullSink {
    ghost state = { λ _. record { written = None; faults = 0; last_failed = false } };

    /// `NullSink`: drops the bytes, and returns how many there were.
    fn put(&mut self, bytes: &[u8]) -> Result<usize, Failed>
        ensures { result ≡ Ok (length bytes.now) }
    {
        Ok(bytes.len())
    }
}

/// A sink that keeps the bytes in memory while it has room for them, and fails by a schedule.
/// `room` is how many more bytes fit.
///
/// Calls are numbered from 0; the number, and the count of the calls that failed, saturate at the
/// last value of a u64. `fails` and `cuts`, the arguments of `new`, are the schedule. Call j fails
/// if and only if j is in `fails`, or there are bytes to write and no room is left. Else it writes
/// the bytes that there is room for, at most `max(1, cuts[j])` of them if j is below the length of
/// `cuts`.
#[derive(Drop)]
pub struct MemSink {
    bytes: Vec<u8>,
    room: usize,
    schedule: Schedule,
}

impl Model for MemSink {
    ghost use Rattle.std.specs.Prelude.{◌+◌, ◌≤◌, vec_capacity, vec_len};
    ghost use Rattle.cf_io.specs.Sinks.{MemSink as View};

    ghost Value = { View };

    ghost view = { λ s. record { written = s.bytes.items; room = s.room; schedule = s.schedule } };

    ghost invariant = { λ s. vec_len s.bytes + s.room ≤ vec_capacity s.bytes };
}

impl MemSink {
    /// An empty sink with room for `room` bytes. The calls in `fails` fail, and `cuts` limits the
    /// bytes of the first calls. All its memory is allocated here; fails only if memory runs out.
    pub fn new(
        alloc: Global,
        room: usize,
        cuts: Vec<usize>,
        fails: Vec<u64>,
    ) -> Result<MemSink, OutOfMemory>
        ensures { IfOk result (λ s. s ≡ mem_sink room cuts.items fails.items) }
    {
        match Vec::with_capacity(alloc, room) {
            Ok(bytes) => Ok(MemSink {
                bytes,
                room,
                schedule: Schedule::new(cuts, fails),
            }),
            Err(_) => Err(OutOfMemory),
        }
    }

    /// The bytes written to the `MemSink` so far.
    pub fn written(&self) -> &[u8]
        ensures { result.now ≡ self.now.written }
    {
        self.bytes.as_slice()
    }
}

impl Sink for MemSink {
    ghost state = { λ s. record { written = Some s.written; faults = s.schedule.faults; last_failed = s.schedule.failed } };

    /// `MemSink`: fails if the schedule lists this call, or if there are bytes and no room is left. Else keeps the
    /// longest prefix of the bytes that the room and the schedule allow, and returns its length.
    fn put(&mut self, bytes: &[u8]) -> Result<usize, Failed>
        ensures grows { self.old.schedule.faults ≤ self.new.schedule.faults }
        ensures answer { result_ok result ≡ put_answer self.old bytes.now }
        ensures sink { self.new ≡ put_after self.old bytes.now }
    {
        if self.schedule.is_due() || (self.room == 0 && bytes.len() > 0) {
            self.schedule.go_wrong();
            return Err(Failed);
        }
        let n = self.schedule.count_moved(bytes.len().min(self.room));
        self.bytes.extend_from_slice(&bytes[..n]).unwrap();
        self.room -= n;
        self.schedule.go_well();
        Ok(n)
    }
}
