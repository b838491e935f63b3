//! `HalfFitHeap`, the Half-Fit manager: the heap of `tag_heap` with the free lists of Half-Fit.
ghost use Rattle.std.specs.Prelude.{refl};
ghost use Rattle.cf_base.specs.declared.kind.Kind.TheVariants.{HalfFit};

use crate::buckets::HalfFitBuckets;
use cf_base::Kind;
use tag_heap::{FitPolicy, TagHeap};

/// The manager with the free lists of Half-Fit (1995).
pub type HalfFitHeap = TagHeap<HalfFitBuckets>;

impl FitPolicy for HalfFitBuckets {
    ghost kind = { HalfFit };

    /// Returns the kind of manager with the free lists of Half-Fit.
    fn kind() -> Kind {
        Kind::HalfFit
    }

    ghost tiled = { refl };

    ghost lists = { refl };

    ghost count = { refl };
}
