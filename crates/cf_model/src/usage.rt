//! The bytes that a heap uses, as three of its figures.
ghost use Rattle.std.specs.Prelude.{◌≡◌};
ghost use Rattle.cf_model.specs.Answers.{usage_of};

use cf_base::Totals;

/// The bytes that a heap uses: those requested for its live objects (`asked`), those of their slots
/// or blocks (`taken`), and those of its pages in use, or with blocks of its whole region (`held`).
/// Each is the figure of this name in `Totals`.
#[derive(Clone, Copy, Debug, PartialEq, Eq)]
pub struct Usage {
    pub asked: u64,
    pub taken: u64,
    pub held: u64,
}

impl Usage {
    /// The fields `asked`, `taken` and `held` of a heap's totals.
    pub fn of(totals: &Totals) -> Usage
        ensures { result ≡ usage_of totals.now }
    {
        Usage {
            asked: totals.asked,
            taken: totals.taken,
            held: totals.held,
        }
    }
}
