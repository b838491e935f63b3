//! A source that reads a slice of bytes, and a sink that fills one: for images in C's memory.
ghost use Rattle.std.specs.Prelude.{◌≡◌};
ghost use Rattle.norphuen_images.specs.Slices.{slice_sink_seen, slice_source_seen};

use cf_base::Failed;
use cf_io::{Sink, Source};

/// A source of the bytes of a slice, which never fails. `bytes` are those left, `given` counts the bytes that it returned, and
/// `calls` its calls; both saturate.
#[derive(Drop)]
pub(crate) struct SliceSource<'a> {
    pub(crate) bytes: &'a [u8],
    pub(crate) given: u64,
    pub(crate) calls: u64,
}

impl Source for SliceSource<'_> {
    ghost state = { slice_source_seen };

    /// Copies the next bytes of C's slice to the start of `buf`, until `buf` is full or none is left. Returns how many
    /// it copied. Never fails.
    fn take(&mut self, buf: &mut [u8]) -> Result<usize, Failed> {
        let all = self.bytes;
        let n = buf.len().min(all.len());
        buf[..n].copy_from_slice(&all[..n]);
        self.bytes = &all[n..];
        self.given = self.given.saturating_add(n as u64);
        self.calls = self.calls.saturating_add(1);
        Ok(n)
    }
}

/// A sink that fills a slice from its start on. `at` is how many bytes were written. A call fails if the slice is full and there
/// are bytes to write; `faults` counts these calls, and `failed` is whether the last call was one.
#[derive(Drop)]
pub(crate) struct SliceSink<'a> {
    pub(crate) bytes: &'a mut [u8],
    pub(crate) at: usize,
    pub(crate) faults: u64,
    pub(crate) failed: bool,
}

impl Sink for SliceSink<'_> {
    ghost state = { slice_sink_seen };

    /// Copies `bytes` into C's slice, behind those written before, until the slice is full. Returns how many it copied.
    /// Fails if the slice was full and `bytes` isn't empty.
    fn put(&mut self, bytes: &[u8]) -> Result<usize, Failed> {
        let all = &mut *self.bytes;
        let at = self.at;
        if at >= all.len() {
            if bytes.len() == 0 {
                self.failed = false;
                return Ok(0);
            }
            self.failed = true;
            self.faults = self.faults.saturating_add(1);
            return Err(Failed);
        }
        let n = bytes.len().min(all.len() - at);
        all[at..at + n].copy_from_slice(&bytes[..n]);
        self.at = at + n;
        self.failed = false;
        Ok(n)
    }
}
