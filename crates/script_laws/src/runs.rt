//! Theorems on every run over a script: its reads print what was written, and it can be continued to the end.
ghost use Rattle.std.specs.Prelude.{ℕ, ◌≡◌, Bool, List, ◌++◌, Option, None, ◌+◌};
ghost use Rattle.run_model.specs.Terms.{Item, items, Kind, Reply, RunState};
ghost use Rattle.run_model.specs.Runs.{Run};
ghost use Rattle.script_laws.specs.IdBytes.{AreReadsOf};

/// In every run on a manager of any kind, each read prints the bytes last written through its id,
/// or `range` if it passes the object's end, `unknown` if the id isn't live. A byte that was not
/// written since the malloc or the resize that added it is 0. What was written follows from the
/// lines before the read and their replies (`shown_after`), whatever was moved or freed in between.
pub fn reads_give_what_was_written()
    ensures { (kind : Kind) (items : List Item) (replies : List Reply) (new : Option RunState)
        → Run kind None items replies new → AreReadsOf None items replies }
{}

/// On a manager of any kind there is a run over the items of any input (clause `there`), and each
/// run over a prefix of these items, `done`, can be continued to the end (`on`).
pub fn a_run_can_always_go_on()
    ensures there { (kind : Kind) (given : List ℕ) (ended : Bool)
        → (replies : List Reply) × (new : Option RunState)
        × Run kind None (items given ended) replies new }
    ensures on { (kind : Kind) (given : List ℕ) (ended : Bool) (done after : List Item)
        (replies : List Reply) (mid : Option RunState)
        → items given ended ≡ done ++ after → Run kind None done replies mid
        → (more : List Reply) × (new : Option RunState)
        × Run kind None (items given ended) (replies ++ more) new }
{}
