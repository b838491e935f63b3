//! The trait of sinks, to which bytes are written: what contracts see of a sink, and the call `put`.
ghost use Rattle.cf_io.specs.Feeds.{PutsSome, SinkState};

use cf_base::Failed;

/// What bytes are written to. A call may write only a prefix of the bytes that it is given.
pub trait Sink {
    /// The bytes written so far, `None` if they are not observable; how many calls of `put` failed;
    /// and whether the last one failed. The count never falls, and saturates at the last value of a
    /// u64.
    ghost state: { Self → SinkState };

    /// `Sink`: writes a prefix of the bytes, at least one byte if there are any, and returns its
    /// length. A call that fails is counted, and adds no byte to those written, if these are
    /// observable.
    fn put(&mut self, bytes: &[u8]) -> Result<usize, Failed>
        ensures { PutsSome (state self.old) bytes.now result (state self.new) };
}
