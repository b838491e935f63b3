//! `put_all`: writes all bytes of a slice to a sink, which may take only some of them in each call.
ghost use Rattle.cf_io.specs.Feeds.{Writes};

use crate::sink::Sink;
use cf_base::Failed;

/// Writes all bytes to the sink, in as many calls of `put` as that takes. If a call fails, the
/// result is `Failed`, and a prefix of the bytes was written.
pub fn put_all<K: Sink>(sink: &mut K, bytes: &[u8]) -> Result<(), Failed>
    ensures { Writes (K.state sink.old) bytes.now result (K.state sink.new) }
{
    let mut at = 0;
    'rest: while at < bytes.len() {
        match sink.put(&bytes[at..]) {
            Ok(n) => at += n,
            Err(failed) => return Err(failed),
        }
    }
    Ok(())
}
