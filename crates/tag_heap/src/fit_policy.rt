//! The trait `FitPolicy`, the free-list rule of a kind of manager with blocks.
ghost use Rattle.std.specs.Prelude.{◌≡◌};
ghost use Rattle.cf_base.specs.declared.kind.Kind.{Kind};
ghost use Rattle.cf_model.specs.Families.{IsTiled, free_lists_of, list_count_of};

use cf_base::Kind;
use tag_blocks::Buckets;

/// The free-list rule of a kind of manager with blocks: its `Buckets` say which free list holds a
/// block, and at which one the search for a request begins. TLSF and Half-Fit differ in nothing
/// else.
pub trait FitPolicy: Buckets + Drop {
    /// The kind of manager that has this fit policy.
    ghost kind: { Kind };

    /// Returns the kind of manager that has this fit policy.
    fn kind() -> Kind
        ensures { result ≡ kind };

    // The kind divides its region into blocks.
    ghost tiled: { IsTiled kind };

    // The rule of these `Buckets` is the one that the kind has in the definitions.
    ghost lists: { Self.rule ≡ free_lists_of kind };

    // The number of lists is the one that the kind has in the definitions.
    ghost count: { Self.COUNT ≡ list_count_of kind };
}
