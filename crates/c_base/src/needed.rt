//! The memory that opening a heap asks for, in numbers for C (`NphNeeded`).
ghost use Rattle.std.specs.Prelude.{◌≡◌, ◌*◌, ◌^◌, ◌<◌, ◌≤◌};
ghost use Rattle.cf_base.specs.Needed.{both, one_block};
ghost use Rattle.cf_base.specs.declared.needed.BytesNeeded.{BytesNeeded};
ghost use Rattle.c_base.specs.Needed.{IsOfHandles, shown_bytes};

use crate::handles::Handles;
use crate::results::NphNeeded;
use cf_base::BytesNeeded;

/// Returns the memory that opening a heap asks for: what its manager asks for (`manager`, fewer
/// than `2^31` blocks and `2^45` bytes), a block for the handles of `proxies` proxies, 1 to 65,536,
/// and a block of `held_bytes` bytes, below `2^32`, for the open heap.
pub fn needed_with(manager: BytesNeeded, proxies: u32, held_bytes: u64) -> NphNeeded
    requires some { 1 ≤ proxies }
    requires low { proxies ≤ 65536 }
    requires few { manager.blocks < 2 ^ 31 }
    requires fits { manager.total < 2 ^ 45 }
    requires held { held_bytes < 2 ^ 32 }
    ensures { (needed : BytesNeeded) × IsOfHandles proxies (λ count. both manager (both (one_block (4 * count)) (one_block held_bytes))) needed × (result ≡ shown_bytes needed) }
{
    let all = manager.and(Handles::bytes_needed(proxies).and(BytesNeeded::block(held_bytes)));
    NphNeeded {
        total: all.total,
        largest: all.largest,
        blocks: all.blocks,
    }
}
