//! Laws of runs over long objects, longer than a page: reads print what was written, each command
//! has a reply, runs can begin and go on, and cut output is a prefix; and what is claimed of every
//! script in mode `large`, by its lines and their replies alone (`MeetsLarge`). The functions do
//! nothing: their clauses are the laws.
ghost use Rattle.std.specs.Prelude.{◌≡◌, ℕ, ◌++◌, Bool, List, [], Option, None, codes, take, ◌∷◌};
ghost use Rattle.run_model.specs.Terms.{AreInRange, Command, IsPaged, Item, items, Kind, Profile, Reply, said, text_of};
ghost use Rattle.script_laws.specs.ValidItems.{IsValidCommand};
ghost use Rattle.script_laws.specs.IdBytes.{AreReadsOf};
ghost use Rattle.script_loop.specs.Consequences.{IsPrefixBy};
ghost use Rattle.script_loop.specs.ScriptOutcome.{Effects, WroteInPart, items_within};
ghost use Rattle.large_session.specs.LargeRun.{IsGoingLarge, LargeRun, LargeStep};
ghost use Rattle.large_session.specs.Playing.{BeginsLarge, RunsLarge, large_heap};
ghost use Rattle.script_loop.specs.Semantics.{RunBy};
ghost use Rattle.large_session.specs.LargeHeadline.{MeetsLarge};
ghost use Rattle.large_session.specs.Small.{MeetsSmallLarge, small_large_replies, small_walk, walk_of_wholes};

/// In every run on long objects each read prints the bytes last written through its id, however the
/// object is cut into parts, or `range` if it passes the object's end, `unknown` if the id isn't
/// live. Which bytes these are follows from the lines and their replies alone: no address, handle or
/// part matters.
pub fn reads_give_what_was_written()
    ensures { (kind : Kind) (items : List Item) (replies : List Reply) (new : Option LargeRun)
        → RunsLarge kind None items replies new → AreReadsOf None items replies }
{}

/// Over a manager of any kind with pages a run on long objects can begin with any settings in their ranges, and then is
/// in progress. In each state of a run in progress every command that a script can contain has a reply, and the run is
/// in progress after it.
pub fn each_command_has_its_turn()
    ensures begins { (kind : Kind) (p : Profile) → IsPaged kind → AreInRange p
        → (new : LargeRun) × BeginsLarge kind p new }
    ensures begun { (kind : Kind) (p : Profile) (new : LargeRun) → BeginsLarge kind p new → IsGoingLarge new }
    ensures answered { (old : LargeRun) (command : Command) → IsGoingLarge old → IsValidCommand command
        → (reply : Reply) × (new : LargeRun) × LargeStep old command reply new }
    ensures going { (old new : LargeRun) (command : Command) (reply : Reply) → IsGoingLarge old
        → LargeStep old command reply new → IsGoingLarge new }
{}

/// Clause `there`: over a manager of any kind with pages there is a run on long objects over the
/// items of any bytes `given`; `ended` is whether the script ends after them. Clause `on`: each run
/// over a prefix of these items can be continued to the last one.
pub fn a_run_on_long_objects_can_go_on()
    ensures there { (kind : Kind) (given : List ℕ) (ended : Bool) → IsPaged kind
        → (replies : List Reply) × (new : Option LargeRun) × RunsLarge kind None (items given ended) replies new }
    ensures on { (kind : Kind) (given : List ℕ) (ended : Bool) (done after : List Item) (replies : List Reply)
        (mid : Option LargeRun)
        → IsPaged kind → items given ended ≡ done ++ after → RunsLarge kind None done replies mid
        → (more : List Reply) × (new : Option LargeRun) × RunsLarge kind None (items given ended) (replies ++ more) new }
{}

/// On long objects, over a manager of any kind with pages, what was written before the sink failed
/// is a prefix of the output of some run over the whole script, whose bytes are `all`.
pub fn what_was_cut_is_a_prefix()
    ensures { (from to : LargeRun) (call : Effects) (all : List ℕ) → IsPaged from.heap.inner.kind
        → (w : WroteInPart large_heap from (items_within all) call to)
        → IsPrefixBy large_heap from (items_within all) (text_of [] w.replies ++ w.front) }
{}

/// The replies of every run in mode `large` meet the claim (`MeetsLarge`), and at most one list of
/// replies meets it (`one`). `run` is about runs of a session (`RunsLarge`), `play` about those of
/// the script loop (`RunBy`).
pub fn the_large_headline()
    ensures run { (kind : Kind) (items : List Item) (replies : List Reply) (end : Option LargeRun)
        → RunsLarge kind None items replies end → MeetsLarge kind items replies }
    ensures play { (from : LargeRun) (items : List Item) (replies : List Reply) (end : Option LargeRun)
        → RunBy large_heap from None items replies end → MeetsLarge from.heap.inner.kind items replies }
    ensures one { (kind : Kind) (items : List Item) (replies others : List Reply)
        → MeetsLarge kind items replies → MeetsLarge kind items others → others ≡ replies }
{}

/// In mode `large`, the claim excludes wrong replies: the right ones meet it, and nine wrong ones don't. The script, on
/// eight pages of 512 bytes: a malloc of 600 bytes; a write of two bytes across the end of a part; a malloc of 90
/// bytes; a read of the two bytes; `walk`; `frag`; and a malloc of 4,000 bytes, which needs more pages than are free.
/// The claim holds for the right replies (`right`). It fails for `refused size` to a malloc that fits (`size`), for no
/// replies at all (`silent`), for a reply too few (`missing`) or too many (`over`), for a read of zeros (`other`), for
/// a `walk` that counts the long object as one object (`whole`), for a `frag` without the bytes of the spine (`spine`)
/// or of its slot (`slots`), and for `ok` to the last malloc (`pages`).
pub fn wrong_large_replies_fall_short()
    ensures right { MeetsSmallLarge (small_large_replies (codes "ok") (codes "=aabb") small_walk
        (codes "frag asked 698 taken 752 held 1536") (codes "refused space")) }
    ensures size { ¬ MeetsSmallLarge (small_large_replies (codes "refused size") (codes "=aabb") small_walk
        (codes "frag asked 698 taken 752 held 1536") (codes "refused space")) }
    ensures silent { ¬ MeetsSmallLarge [] }
    ensures missing { ¬ MeetsSmallLarge (take 7 (small_large_replies (codes "ok") (codes "=aabb") small_walk
        (codes "frag asked 698 taken 752 held 1536") (codes "refused space"))) }
    ensures over { ¬ MeetsSmallLarge (small_large_replies (codes "ok") (codes "=aabb") small_walk
        (codes "frag asked 698 taken 752 held 1536") (codes "refused space") ++ said (codes "ok") ∷ []) }
    ensures other { ¬ MeetsSmallLarge (small_large_replies (codes "ok") (codes "=0000") small_walk
        (codes "frag asked 698 taken 752 held 1536") (codes "refused space")) }
    ensures whole { ¬ MeetsSmallLarge (small_large_replies (codes "ok") (codes "=aabb") walk_of_wholes
        (codes "frag asked 698 taken 752 held 1536") (codes "refused space")) }
    ensures spine { ¬ MeetsSmallLarge (small_large_replies (codes "ok") (codes "=aabb") small_walk
        (codes "frag asked 690 taken 752 held 1536") (codes "refused space")) }
    ensures slots { ¬ MeetsSmallLarge (small_large_replies (codes "ok") (codes "=aabb") small_walk
        (codes "frag asked 698 taken 720 held 1536") (codes "refused space")) }
    ensures pages { ¬ MeetsSmallLarge (small_large_replies (codes "ok") (codes "=aabb") small_walk
        (codes "frag asked 698 taken 752 held 1536") (codes "ok")) }
{}
