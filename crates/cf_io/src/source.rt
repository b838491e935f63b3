//! The trait of sources, from which bytes are read: what contracts see of a source, and the call `take`.
ghost use Rattle.cf_io.specs.Feeds.{SourceState, Takes};

use cf_base::Failed;

/// What bytes are read from, chunk by chunk.
pub trait Source {
    /// The bytes left to read, `None` if they are not observable; how many bytes its calls have returned; how
    /// many calls of `take` were made, and how many failed; and whether the last one failed. The counts never
    /// fall, and saturate at the last value of a u64.
    ghost state: { Self → SourceState };

    /// `Source`: reads bytes into the start of `buf` and returns how many. If `buf` isn't empty, 0
    /// means the end of the input. Each call adds one to the count of calls. One that fails reads
    /// nothing, and adds one to the count of those that failed; any other adds the bytes read to
    /// the count of those returned.
    fn take(&mut self, buf: &mut [u8]) -> Result<usize, Failed>
        ensures { Takes (state self.old) result buf.new (state self.new) };
}
