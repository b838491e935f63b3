//! Laws of many managers on one script (mode `compare`), and of calls of `cf_main`: the run and the
//! output of each manager, and when two calls print the same bytes. Each manager has its own run,
//! whose replies meet the claim of mode `run`; a cut stops between two managers; what was written
//! is a prefix. On managers that promise an order, as those do that were never open, a call prints
//! the replies of runs in that order.
//! The last law has the steps from which the step bounds of long objects follow. The functions do
//! nothing: their contracts are the laws.
ghost use Rattle.std.specs.Prelude.{◌≡◌, ℕ, IsSome, List, Option, map, ◌++◌, [], None, Some, option_map};
ghost use Rattle.std.specs.List.{All};
ghost use Rattle.clap.specs.Words.{Text};
ghost use Rattle.run_model.specs.Terms.{closed_state, HeapState, IsGoing, Item, Kind, Moving, NonMoving, Reply, RunState, text_of};
ghost use Rattle.cf_base.specs.declared.status.Status.TheVariants.{Done};
ghost use Rattle.top_call.specs.Choices.{Chooses};
ghost use Rattle.top_call.specs.declared.choice.Choice.{Choice};
ghost use Rattle.top_call.specs.declared.choice.Mode.{Mode};
ghost use Rattle.top_call.specs.declared.choice.Mode.TheVariants.{Compare, Run};
ghost use Rattle.script_laws.specs.OneOutput.{BeginOnce};
ghost use Rattle.top_call.specs.Bench.{EndsBench};
ghost use Rattle.top_call.specs.FirstOfKind.{chosen_manager};
ghost use Rattle.top_call.specs.Outcomes.{Benches, CallState, kinds_in};
ghost use Rattle.top_call.specs.OneScript.{AnswersWhole, AreRunsInOrder, IsRunInOrder, KeepsContract, LeavesNoChoice, PrintsReplies, PromisesOrder, TopCall};
ghost use Rattle.run_model.specs.Plays.{PlayPart, PlayRun};
ghost use Rattle.script_loop.specs.Consequences.{IsPrefixBy};
ghost use Rattle.script_loop.specs.ScriptOutcome.{Effects, Wrote, WroteInPart, items_within};
ghost use Rattle.large_objects.specs.LargeCosts.{AreInnerCosts, moving_costs, nonmoving_costs};
ghost use Rattle.top_call.specs.SideBySide.{EachBegins, EachInPart, EachTurn, SideBySide, kinds_of, many_managers, runs_of};
ghost use Rattle.top_call.specs.OwnRuns.{MeetHeadlines, OwnRuns, OwnRunsInPart, EachEndsAt};

use cf_model::StepBounds;
use moving_heap::MovingHeap;
use nonmoving_heap::NonMovingHeap;

/// Two calls of `cf_main` with the same arguments and the same input print the same bytes and
/// return the same status, whatever the chunks of their sources, if each item of the script has its
/// reply, or the image is loaded. This includes each address, word and cost. Both calls have
/// managers of the same kinds, and sinks with the same bytes before. In modes `run` and `compare`
/// the managers that run promise an order before the call, as those of this repository do. What
/// they held before may differ.
pub fn equal_scripts_get_equal_output()
    ensures { (words : List Text) (choice : Choice) (all : List ℕ) (one two : TopCall) → Chooses words choice
        → KeepsContract words one → KeepsContract words two
        → AnswersWhole all one → AnswersWhole all two
        → kinds_in two.old ≡ kinds_in one.old
        → LeavesNoChoice choice.mode choice one.old.managers → LeavesNoChoice choice.mode choice two.old.managers
        → two.old.sink.written ≡ one.old.sink.written
        → (two.status ≡ one.status) × (two.new.sink.written ≡ one.new.sink.written) }
{}

/// In mode `run`, on a manager that promises an order, a call that answered every item printed the
/// replies of a run in that order: each address, choice, word and count of steps follows from the
/// order. There is one such list of replies (`one_output` of `script_laws`).
pub fn a_run_in_order_is_printed()
    ensures { (words : List Text) (choice : Choice) (all : List ℕ) (call : TopCall) → Chooses words choice
        → choice.mode ≡ Run → KeepsContract words call → AnswersWhole all call
        → PromisesOrder (chosen_manager choice.kind call.old.managers)
        → PrintsReplies (IsRunInOrder choice.kind) all call }
{}

/// In mode `compare`, on managers that each promise an order, a call that answered every item
/// printed replies that interleave those of a run of each manager in its order (clause `printed`).
/// There is at most one such list of replies to items of which only the first may be a `heap` line
/// (`one`), as in every script.
pub fn a_comparison_in_order_is_printed()
    ensures printed { (words : List Text) (choice : Choice) (all : List ℕ) (call : TopCall) → Chooses words choice
        → choice.mode ≡ Compare → KeepsContract words call → AnswersWhole all call
        → All PromisesOrder call.old.managers
        → PrintsReplies (AreRunsInOrder (kinds_in call.old)) all call }
    ensures one { (kinds : List Kind) (items : List Item) (replies others : List Reply) → BeginOnce items
        → AreRunsInOrder kinds items replies → AreRunsInOrder kinds items others → others ≡ replies }
{}

/// For calls of `cf_main`, managers that were never open promise an order, whatever their kinds. So
/// they have no choice in any mode (`LeavesNoChoice`), as `equal_scripts_get_equal_output`
/// requires.
pub fn closed_managers_leave_no_choice()
    ensures { (mode : Mode) (choice : Choice) (kinds : List Kind)
        → LeavesNoChoice mode choice (map closed_state kinds) }
{}

/// Two benches of one seed and one count on managers of one kind, both with the status `Done`, print the
/// same line, with all six numbers, if their sinks have the same bytes before. Clause `calls`: two calls
/// in mode `bench`. Clause `runs`: any two benches whose managers promise an order at the end.
pub fn equal_benches_print_equal_lines()
    ensures calls { (choice : Choice) (one two last end : CallState)
        → Benches choice one Done last → Benches choice two Done end
        → two.sink.written ≡ one.sink.written → end.sink.written ≡ last.sink.written }
    ensures runs { (seed count : ℕ) (from other to there : RunState) (before after written : Option (List ℕ))
        → other.heap.kind ≡ from.heap.kind
        → EndsBench Done seed count from to before after → EndsBench Done seed count other there before written
        → IsSome to.heap.order → IsSome there.heap.order
        → written ≡ after }
{}

/// In mode `compare`, if managers of these kinds run side by side over some items, each of them has a run of its own
/// over the same items, and the replies side by side interleave the replies of these runs.
pub fn each_has_its_own_run()
    ensures { (kinds : List Kind) (items : List Item) (replies : List Reply) (end : Option (List RunState))
        → PlayRun (EachBegins kinds) EachTurn None items replies end
        → OwnRuns kinds items replies end }
{}

/// In mode `compare`, if each manager has a run of its own over some items, the replies of this run
/// meet the claim of mode `run` for its kind (`MeetsHeadline`).
pub fn each_meets_the_headline()
    ensures { (kinds : List Kind) (items : List Item) (replies : List Reply) (end : Option (List RunState))
        → OwnRuns kinds items replies end → MeetHeadlines kinds items replies }
{}

/// In mode `compare`, each manager has a run of its own over the items `before`. If the reply to the next item, a
/// command, was cut after its prefix `front`, the managers up to the one whose reply was cut have done the command, and
/// the later ones have not.
pub fn a_cut_stops_between_two_managers()
    ensures { (kinds : List Kind) (before : List Item) (replies : List Reply) (mid : Option (List RunState))
        (item : Item) (front : List ℕ) (end : Option (List RunState))
        → PlayRun (EachBegins kinds) EachTurn None before replies mid
        → PlayPart (EachBegins kinds) EachInPart mid item front end
        → OwnRunsInPart kinds before item replies front end }
{}

/// For mode `compare`, what follows from the claims of the script loop (`Wrote`, `WroteInPart`) on many managers. Each
/// manager has a run of its own over the script if all was written (clause `whole`), or up to a cut reply (`in_part`).
/// In both cases each manager is left in the last state of its run (`stand`, `stand_in_part`).
pub fn outcomes_are_of_each()
    ensures whole { (from to : SideBySide) (wanted : List Item) (call : Effects)
        (w : Wrote many_managers from wanted call to)
        → OwnRuns (kinds_of from) wanted w.replies (option_map runs_of w.end) }
    ensures stand { (from to : SideBySide) (wanted : List Item) (call : Effects) → kinds_of to ≡ kinds_of from
        → (w : Wrote many_managers from wanted call to)
        → EachEndsAt from.heaps (option_map runs_of w.end) to.heaps }
    ensures in_part { (from to : SideBySide) (wanted : List Item) (call : Effects)
        (w : WroteInPart many_managers from wanted call to)
        → OwnRunsInPart (kinds_of from) w.before w.item w.replies w.front (option_map runs_of w.end) }
    ensures stand_in_part { (from to : SideBySide) (wanted : List Item) (call : Effects) → kinds_of to ≡ kinds_of from
        → (w : WroteInPart many_managers from wanted call to)
        → EachEndsAt from.heaps (option_map runs_of w.end) to.heaps }
{}

/// In mode `compare`, if the managers' runs have begun with a `heap` line, each manager is open after its run, keeps
/// its rules, and is consistent with its session, whether all was written (clause `whole`) or a reply was cut
/// (`in_part`).
pub fn each_manager_is_open_after_its_run()
    ensures whole { (kinds : List Kind) (items : List Item) (replies : List Reply) (all : List RunState)
        → OwnRuns kinds items replies (Some all) → All IsGoing all }
    ensures in_part { (kinds : List Kind) (before : List Item) (item : Item) (replies : List Reply)
        (front : List ℕ) (all : List RunState)
        → OwnRunsInPart kinds before item replies front (Some all) → All IsGoing all }
{}

/// In mode `compare`, the output before the sink failed is a prefix of the output of a run of all managers over the
/// whole script.
pub fn what_was_cut_is_a_prefix()
    ensures { (from to : SideBySide) (call : Effects) (all : List ℕ)
        → (w : WroteInPart many_managers from (items_within all) call to)
        → IsPrefixBy many_managers from (items_within all) (text_of [] w.replies ++ w.front) }
{}

/// The steps that calls of the manager inside a heap of long objects take if they succeed; the step
/// bounds of long objects follow from these. If the manager promises an order, a moving one takes at
/// most `moving_costs` (clause `moving`), and a non-moving one at most `nonmoving_costs`
/// (`non_moving`). For a read or a write these numbers are exact.
pub fn long_objects_take_the_steps_of_their_manager()
    ensures moving { (s : HeapState) → s.kind ≡ Moving → IsSome s.order
        → AreInnerCosts s ⟦<MovingHeap as StepBounds>⟧.most moving_costs }
    ensures non_moving { (s : HeapState) → s.kind ≡ NonMoving → IsSome s.order
        → AreInnerCosts s ⟦<NonMovingHeap as StepBounds>⟧.most nonmoving_costs }
{}
