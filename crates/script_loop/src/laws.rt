//! Theorems on every script that ran on one manager, from its outcome alone: what its reads print,
//! what a failed sink got, when the output is the transcript, that chunks don't matter, and which
//! settings mode `save` keeps.
ghost use Rattle.std.specs.Prelude.{◌≡◌, ◌++◌, ℕ, List, [], None, Some};
ghost use Rattle.script_laws.specs.IdBytes.{AreReadsOf};
ghost use Rattle.run_model.specs.Terms.{Item, RunState, text_of};
ghost use Rattle.script_loop.specs.Consequences.{AnswersAll, ArePlain, IsPrefixOfRun, PrintsReads, PrintsTranscript};
ghost use Rattle.script_loop.specs.OneManager.{one_manager};
ghost use Rattle.script_loop.specs.ScriptOutcome.{Effects, MeetsOutcome, Wrote, WroteInPart, items_within};
ghost use Rattle.script_loop.specs.WithSettings.{GoesWith, Settled, with_settings};

/// On any kind of manager, each read that was answered prints the bytes last written through its id
/// (`range` past the object's end, `unknown` if the id isn't live). `printed`: in the output, if
/// the source is observable and every item was answered. `whole`: in the replies, if all were
/// written. `in_part`: in the replies before the one of which the sink got only a prefix.
pub fn every_read_gives_what_was_written()
    ensures printed { (from to : RunState) (call : Effects) (all : List ℕ) → call.had ≡ Some all
        → MeetsOutcome one_manager from call to → AnswersAll call.status
        → PrintsReads (items_within all) call }
    ensures whole { (from to : RunState) (wanted : List Item) (call : Effects)
        (w : Wrote one_manager from wanted call to) → AreReadsOf None wanted w.replies }
    ensures in_part { (from to : RunState) (wanted : List Item) (call : Effects)
        (w : WroteInPart one_manager from wanted call to) → AreReadsOf None w.before w.replies }
{}

/// On any kind of manager, what was written before the sink failed is a prefix of the output of
/// some run over all items of the script, within its limit of 268,435,455 bytes.
pub fn what_was_cut_is_a_prefix()
    ensures { (from to : RunState) (call : Effects) (all : List ℕ)
        → (w : WroteInPart one_manager from (items_within all) call to)
        → IsPrefixOfRun from.heap.kind (items_within all) (text_of [] w.replies ++ w.front) }
{}

/// If the source is observable, and all items were answered and are plain (`ArePlain`), the output
/// is their transcript, which is computed from the manager's kind and the script alone. Plain: the
/// kind has pages, every bound is 1, and no command asks for an address or a cost.
pub fn plain_scripts_print_their_transcript()
    ensures { (from to : RunState) (call : Effects) → MeetsOutcome one_manager from call to
        → AnswersAll call.status → PrintsTranscript from.heap.kind call.had call }
{}

/// The chunks of a source don't matter: two calls, `one` and `two`, that answered every item of the
/// same bytes return the same status. If the items are plain and the managers of one kind, sinks
/// with the same bytes before also have the same bytes after.
pub fn chunks_never_matter()
    ensures status { (from other to there : RunState) (one two : Effects) (all : List ℕ)
        → one.had ≡ Some all → two.had ≡ Some all
        → MeetsOutcome one_manager from one to → MeetsOutcome one_manager other two there
        → AnswersAll one.status → AnswersAll two.status → two.status ≡ one.status }
    ensures output { (from other to there : RunState) (one two : Effects) (all : List ℕ)
        → one.had ≡ Some all → two.had ≡ Some all
        → MeetsOutcome one_manager from one to → MeetsOutcome one_manager other two there
        → AnswersAll one.status → AnswersAll two.status
        → other.heap.kind ≡ from.heap.kind → ArePlain from.heap.kind (items_within all)
        → two.before ≡ one.before → two.after ≡ one.after }
{}

/// If the mode handler of mode `save`, a session that also keeps the settings (`WithSettings`),
/// wrote all replies, a session alone may write the same for the same items. If a `heap` line began
/// the run, then at the end the manager is open, and has the settings that the handler kept.
pub fn settings_are_kept()
    ensures { (from to : Settled RunState) (wanted : List Item) (call : Effects)
        (w : Wrote (with_settings one_manager) from wanted call to)
        → Wrote one_manager from.state wanted call to.state × GoesWith w.end }
{}
