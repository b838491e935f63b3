//! The memory that opening a heap or making a table asks the allocator for (`BytesNeeded`).
ghost use Rattle.std.specs.Prelude.{◌≡◌, ◌+◌, ◌*◌, ◌^◌, ◌<◌, ◌≤◌};
ghost use Rattle.cf_base.specs.Needed.{both, one_block, times};

/// The blocks of memory that opening a heap, or making a table, asks the allocator for: how many, the bytes of all, and
/// those of the largest. What the allocator itself needs for a block isn't counted.
#[derive(Clone, Copy, Debug, PartialEq, Eq)]
pub struct BytesNeeded {
    pub blocks: u32,
    pub total: u64,
    pub largest: u64,
}

impl BytesNeeded {
    /// `BytesNeeded` of one block of `bytes` bytes.
    pub fn block(bytes: u64) -> BytesNeeded
        ensures { result ≡ one_block bytes }
    {
        BytesNeeded {
            blocks: 1,
            total: bytes,
            largest: bytes,
        }
    }

    /// `BytesNeeded` of the blocks of `self`, `n` times over. `n` is at least 1, and no product may overflow its field.
    pub fn times(self, n: u32) -> BytesNeeded
        requires some { 1 ≤ n }
        requires few { n * self.blocks < 2 ^ 32 }
        requires fits { n * self.total < 2 ^ 64 }
        ensures { result ≡ times n self }
    {
        BytesNeeded {
            blocks: n * self.blocks,
            total: u64::from(n) * self.total,
            largest: self.largest,
        }
    }

    /// `BytesNeeded` of the blocks of `self` and of `other` together. No sum may overflow its field.
    pub fn and(self, other: BytesNeeded) -> BytesNeeded
        requires few { self.blocks + other.blocks < 2 ^ 32 }
        requires fits { self.total + other.total < 2 ^ 64 }
        ensures { result ≡ both self other }
    {
        BytesNeeded {
            blocks: self.blocks + other.blocks,
            total: self.total + other.total,
            largest: self.largest.max(other.largest),
        }
    }
}
