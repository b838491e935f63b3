//! `Tally` counts the good replies and the refusals of mode `bench`.
ghost use Rattle.std.specs.Prelude.{◌≡◌, ◌+◌, ◌<◌, ◌^◌, cond};
ghost use Rattle.top_call.specs.Bench.{is_good, is_refusal};

use cf_session::Outcome;

/// How many replies were good (`ok` or bytes of a read), and how many were refusals.
#[derive(Clone, Copy)]
pub(crate) struct Tally {
    pub ok: u64,
    pub refused: u64,
}

impl Tally {
    /// For mode `bench`, counts one more reply, by its outcome; `Other` is counted in neither. The
    /// sum of the two counts must be less than `2^64 - 1`.
    pub(crate) fn add(&mut self, outcome: Outcome)
        requires { self.old.ok + self.old.refused + 1 < 2 ^ 64 }
        ensures ok { self.new.ok ≡ self.old.ok + cond (is_good outcome) 1 0 }
        ensures refused { self.new.refused ≡ self.old.refused + cond (is_refusal outcome) 1 0 }
    {
        match outcome {
            Outcome::Good => self.ok += 1,
            Outcome::Refused => self.refused += 1,
            Outcome::Other => {}
        }
    }
}
