//! `GrowingSink`, a sink in memory that grows with what is written.
ghost use Rattle.std.specs.Prelude.{◌≡◌, Some, [], false};

use cf_base::Failed;
use cf_io::Sink;
use std::alloc::Global;

/// A sink that keeps all bytes in memory. A call fails if and only if an allocation does. `faults`
/// counts the calls that failed, and saturates; `failed` is whether the last call failed.
#[derive(Drop)]
pub struct GrowingSink {
    pub bytes: Vec<u8>,
    pub faults: u64,
    pub failed: bool,
}

impl GrowingSink {
    /// `GrowingSink`: an empty sink, before its first call.
    pub fn new(alloc: Global) -> GrowingSink
        ensures bytes { result.bytes.items ≡ [] }
        ensures faults { result.faults ≡ 0 }
        ensures failed { result.failed ≡ false }
    {
        GrowingSink {
            bytes: Vec::new(alloc),
            faults: 0,
            failed: false,
        }
    }
}

impl Sink for GrowingSink {
    ghost state = { λ s. record { written = Some s.bytes.items; faults = s.faults; last_failed = s.failed } };

    /// `GrowingSink`: writes all the bytes, and returns their number. Fails, with none written, if
    /// memory runs out.
    fn put(&mut self, bytes: &[u8]) -> Result<usize, Failed> {
        match self.bytes.extend_from_slice(bytes) {
            Ok(()) => {
                self.failed = false;
                Ok(bytes.len())
            }
            Err(_) => {
                self.faults = self.faults.saturating_add(1);
                self.failed = true;
                Err(Failed)
            }
        }
    }
}
