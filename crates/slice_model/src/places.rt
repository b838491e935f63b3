//! A law on the addresses that a malloc of the sliced heap may use: those that are free if the job's slot
//! counts as one more object. The law holds in a state s that satisfies the rules (`IsKept`), under valid
//! settings `plan` (`IsPlan`).
ghost use Rattle.std.specs.Prelude.{ℕ, ◌≡◌, ◌<◌, ◌↔◌};
ghost use Rattle.page_model.specs.Arrangement.{LacksRoom};
ghost use Rattle.page_model.specs.Paging.{class_for, classes};
ghost use Rattle.page_model.specs.Steps.{IsFreePlace};
ghost use Rattle.slice_model.specs.State.{IsKept, IsPlaceFor, IsPlan, NoPlace, Plan, Sliced, occupied};

/// A new object of n bytes may use address a if and only if a is free in the arrangement that has a
/// placeholder in the job's slot (`occupied`; clause `place`). Class c has no address to use if and
/// only if that arrangement has no slot left for c (`none`).
pub fn places_are_those_beside_the_job()
    ensures place { (plan : Plan) (s : Sliced) (n a : ℕ) → IsPlan plan → IsKept plan s
        → IsPlaceFor plan.paging s (class_for plan.paging n) a ↔ IsFreePlace plan.paging (occupied plan s) n a }
    ensures none { (plan : Plan) (s : Sliced) (c : ℕ) → IsPlan plan → IsKept plan s → c < classes plan.paging
        → NoPlace plan.paging s c ↔ LacksRoom plan.paging (occupied plan s) c }
{}
