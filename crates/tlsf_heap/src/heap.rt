//! `TlsfHeap`, the TLSF manager: the heap of `tag_heap` with the free lists of TLSF.
ghost use Rattle.std.specs.Prelude.{refl};
ghost use Rattle.cf_base.specs.declared.kind.Kind.TheVariants.{Tlsf};

use crate::buckets::TlsfBuckets;
use cf_base::Kind;
use tag_heap::{FitPolicy, TagHeap};

/// The manager with the free lists of TLSF (2004).
pub type TlsfHeap = TagHeap<TlsfBuckets>;

impl FitPolicy for TlsfBuckets {
    ghost kind = { Tlsf };

    /// Returns the kind of manager with the free lists of TLSF.
    fn kind() -> Kind {
        Kind::Tlsf
    }

    ghost tiled = { refl };

    ghost lists = { refl };

    ghost count = { refl };
}
