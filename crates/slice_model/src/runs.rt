//! Laws on lists of calls that several tasks make on one sliced heap, in any order: on a consistent
//! heap (`IsConsistent`) the calls do what they would do to one map from numbers to bytes, and a
//! heap without objects is consistent. `plan` has the heap's settings, which are valid (`IsPlan`).
ghost use Rattle.std.specs.Prelude.{ℕ, ◌≡◌, List, replicate};
ghost use Rattle.std.specs.FinMap.{empty};
ghost use Rattle.page_model.specs.Held.{objects};
ghost use Rattle.slice_model.specs.Runs.{IsConsistent, Runs, RunsOnMap, TaskCall, HeapWithWords};
ghost use Rattle.slice_model.specs.State.{Idle, IsPlan, Plan};

/// In every list of calls of several tasks on a consistent heap, with slices anywhere in between,
/// the mallocs, frees, reads and writes do what they would do to one map from numbers to bytes. So
/// a read returns the bytes last written, also of an object in motion. The heap and its words stay
/// consistent (`IsConsistent`). `turns` is the list.
pub fn calls_of_all_tasks_are_those_of_one_map()
    ensures { (plan : Plan) (old : HeapWithWords) (turns : List TaskCall) (new : HeapWithWords) → IsPlan plan → IsConsistent plan old
        → Runs plan old turns new
        → RunsOnMap (objects old.state.held) turns (objects new.state.held) × IsConsistent plan new }
{}

/// A heap without objects and without a job, whose words are zeros, is consistent (`IsConsistent`).
pub fn an_empty_heap_is_consistent()
    ensures { (plan : Plan) (n : ℕ) → IsConsistent plan (record { state = record { held = empty; job = Idle }; words = replicate n 0 }) }
{}
