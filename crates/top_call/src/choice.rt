//! The types of what the arguments of the command line choose, and of why they choose nothing.

use cf_base::Kind;

/// What the program does: its mode.
#[derive(Clone, Copy, Debug, PartialEq, Eq)]
pub enum Mode {
    /// Runs a script on one manager.
    Run,
    /// Runs a script side by side on all managers that `cf_main` is passed.
    Compare,
    /// Runs a generated script on one manager, and prints counts; no script is read.
    Bench,
    /// Runs a script whose objects may be larger than a page.
    Large,
    /// Runs a script, and writes the objects that are live at its end as a heap image.
    Save,
    /// Loads a heap image, and writes a script that makes its objects.
    Load,
    /// Runs a script on a heap where a free leaves a job, which later calls do in slices.
    Slice,
    /// Runs a script of tasks that share the pages of one heap, each with a quota.
    Quota,
}

/// The choice that the arguments make. The kind is for modes `run` and `bench`, the seed and the count are for
/// mode `bench`, the quantum for mode `slice`.
#[derive(Clone, Copy, Debug, PartialEq, Eq)]
pub struct Choice {
    pub mode: Mode,
    /// The kind of the manager.
    pub kind: Kind,
    /// The seed of the generated script.
    pub seed: u64,
    /// The number of commands of the generated script.
    pub count: u64,
    /// The most words that a slice clears or moves.
    pub quantum: u32,
}

/// Why the arguments make no choice.
#[derive(Clone, Copy, Debug, PartialEq, Eq)]
pub enum ArgumentsFault {
    /// `clap` finds a fault in the arguments, or they are a request for help.
    Refused,
    /// Out of memory.
    OutOfMemory,
}
