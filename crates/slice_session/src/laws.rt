//! Laws of runs over a sliced heap: what reads print, which causes replies show, that each run can
//! be continued, that a run of the mode handler is one of a session, that a script has one output,
//! and that output cut by a failed sink is a prefix of it. Laws of the claim of mode `slice`, which
//! is about the lines of a script and their replies alone (`MeetsSliced`): that each run meets it,
//! that it determines the replies to a script without `p`, who is refused as busy and for how long,
//! and which wrong replies it excludes. The functions do nothing: their clauses are the laws.
ghost use Rattle.std.specs.Prelude.{◌≡◌, ◌≢◌, ℕ, ◌++◌, Bool, List, [], Option, Err, None, Some, codes, ◌+◌, ◌-◌, ◌*◌, ◌<◌, ◌≤◌, ◌↔◌, length, take, ◌∷◌};
ghost use Rattle.std.specs.Option.{option_map};
ghost use Rattle.run_model.specs.Terms.{AreInRange, Command, Free, get, IsPaging, Item, items, Malloc, Profile, Reply, said, Slice, slot_words, text_of};
ghost use Rattle.script_laws.specs.ValidItems.{IsValidCommand};
ghost use Rattle.script_laws.specs.IdBytes.{AreReadsOf};
ghost use Rattle.script_loop.specs.Consequences.{IsPrefixBy};
ghost use Rattle.script_loop.specs.ScriptOutcome.{Effects, WroteInPart, items_within};
ghost use Rattle.script_loop.specs.Semantics.{RunBy};
ghost use Rattle.slice_model.specs.State.{Idle};
ghost use Rattle.slice_model.specs.Steps.{IsFaultOf, IsSlicedRefusedBy};
ghost use Rattle.slice_model.specs.declared.refusals.SliceFault.{SliceFault};
ghost use Rattle.slice_model.specs.declared.refusals.SliceRefusal.{SliceRefusal};
ghost use Rattle.sliced_heap.specs.Shown.{plan_in, working_in};
ghost use Rattle.slice_session.specs.Playing.{BeginsSliced, IsQuantum, RunsSliced, SlicePlay, run_of_play, slices};
ghost use Rattle.slice_session.specs.SliceRun.{IsGoingSliced, SliceRun, SliceStep, slice_free_text, slice_malloc_text};
ghost use Rattle.page_model.specs.Arrangement.{pages_needed_with};
ghost use Rattle.page_model.specs.Paging.{class_for};
ghost use Rattle.slice_model.specs.declared.refusals.SliceRefusal.TheVariants.{Busy};
ghost use Rattle.slice_session.specs.ShownSlices.{ShownJob, ShownSlices, paging_shown, words_left};
ghost use Rattle.slice_session.specs.SliceHeadline.{AreNoPeeks, MeetsSliced, after, after_slices, slice_line, slice_refusal};
ghost use Rattle.slice_session.specs.Small.{MeetsSmallSliced, small_sliced_replies};

use slice_model::{a_malloc_is_busy_only_with_a_job, an_empty_heap_is_consistent};

/// In every run in mode `slice`, each read prints the bytes last written through its id, also while
/// a job moves the object, or `range` if it passes the object's end, `unknown` if the id isn't live.
/// These bytes follow from the lines and their replies alone: no address, handle or job changes
/// them. Clause `run` is about runs of a session, `play` about runs of the script loop (`RunBy`).
pub fn reads_give_what_was_written()
    ensures run { (quantum : ℕ) (items : List Item) (replies : List Reply) (new : Option SliceRun)
        → RunsSliced quantum None items replies new → AreReadsOf None items replies }
    ensures play { (from : SlicePlay) (items : List Item) (replies : List Reply) (new : Option SlicePlay)
        → RunBy slices from None items replies new → AreReadsOf None items replies }
{}

/// In a run in progress in mode `slice`, the reply to a malloc for an id that isn't live names a
/// cause of refusal if and only if this cause holds, and then nothing changes (clauses `malloc` and
/// `refused`). So this reply is `refused space` if and only if the object fits a page, a proxy is
/// free, and the objects with the new one need more pages than there are, whether a job is pending
/// or not. If the reply to a free of a live id names a cause, this cause holds, and nothing changes
/// (clause `free`). The reply to a malloc or a free is `busy` only if a job is pending (clauses
/// `busy_malloc` and `busy_free`).
pub fn replies_show_their_causes()
    ensures malloc { (old new : SliceRun) (id n : ℕ) (e : SliceRefusal) → get old.ids id ≡ None
        → SliceStep old (Malloc id n) (said (slice_malloc_text (Err e))) new
        → IsSlicedRefusedBy (plan_in old.heap) (working_in old.heap).state n e × (new ≡ old) }
    ensures refused { (old new : SliceRun) (id n : ℕ) (e : SliceRefusal) (reply : Reply) → IsGoingSliced old → get old.ids id ≡ None
        → IsSlicedRefusedBy (plan_in old.heap) (working_in old.heap).state n e → SliceStep old (Malloc id n) reply new
        → reply ≡ said (slice_malloc_text (Err e)) }
    ensures free { (old new : SliceRun) (id h : ℕ) (e : SliceFault) → get old.ids id ≡ Some h
        → SliceStep old (Free id) (said (slice_free_text (Some e))) new
        → IsFaultOf (working_in old.heap).state h e × (new ≡ old) }
    ensures busy_malloc { (old new : SliceRun) (id n : ℕ) → IsGoingSliced old
        → SliceStep old (Malloc id n) (said (codes "busy")) new → old.heap.job ≢ Idle }
    ensures busy_free { (old new : SliceRun) (id : ℕ)
        → SliceStep old (Free id) (said (codes "busy")) new → old.heap.job ≢ Idle }
{
    a_malloc_is_busy_only_with_a_job();
}

/// A run in mode `slice` can begin with any settings and quantum in their ranges, and is then in
/// progress (`IsGoingSliced`). In each state of a run in progress every command that a script can
/// contain has a reply, and the run is in progress after it.
pub fn each_command_has_its_turn()
    ensures begins { (quantum : ℕ) (p : Profile) → IsQuantum quantum → AreInRange p
        → (new : SliceRun) × BeginsSliced quantum p new }
    ensures begun { (quantum : ℕ) (p : Profile) (new : SliceRun) → BeginsSliced quantum p new → IsGoingSliced new }
    ensures answered { (old : SliceRun) (command : Command) → IsGoingSliced old → IsValidCommand command
        → (reply : Reply) × (new : SliceRun) × SliceStep old command reply new }
    ensures going { (old new : SliceRun) (command : Command) (reply : Reply) → IsGoingSliced old
        → SliceStep old command reply new → IsGoingSliced new }
{
    an_empty_heap_is_consistent();
}

/// In mode `slice` with a quantum in its range, there is a run over the items of any bytes, and
/// each run over a prefix of them can be continued to the end.
pub fn a_sliced_run_can_always_go_on()
    ensures there { (quantum : ℕ) (given : List ℕ) (ended : Bool) → IsQuantum quantum
        → (replies : List Reply) × (new : Option SliceRun) × RunsSliced quantum None (items given ended) replies new }
    ensures on { (quantum : ℕ) (given : List ℕ) (ended : Bool) (done after : List Item) (replies : List Reply)
        (mid : Option SliceRun)
        → IsQuantum quantum → items given ended ≡ done ++ after → RunsSliced quantum None done replies mid
        → (more : List Reply) × (new : Option SliceRun) × RunsSliced quantum None (items given ended) (replies ++ more) new }
{
    an_empty_heap_is_consistent();
}

/// In mode `slice`, the replies of the mode handler to a script are those of a run of its session with the handler's
/// quantum.
pub fn plays_are_runs()
    ensures { (from : SlicePlay) (items : List Item) (replies : List Reply) (new : Option SlicePlay)
        → RunBy slices from None items replies new
        → RunsSliced from.quantum None items replies (option_map run_of_play new) }
{}

/// In mode `slice` with a quantum in its range, the output before the sink failed is a prefix of
/// the output of a run over the whole script.
pub fn what_was_cut_is_a_prefix()
    ensures { (from to : SlicePlay) (call : Effects) (all : List ℕ) → IsQuantum from.quantum
        → (w : WroteInPart slices from (items_within all) call to)
        → IsPrefixBy slices from (items_within all) (text_of [] w.replies ++ w.front) }
{
    an_empty_heap_is_consistent();
}

/// The replies of every run in mode `slice` meet the claim `MeetsSliced` for the quantum of the
/// run: each reply, but for the word that `p` prints, is a function of its line and the lines
/// before it. Clause `run` is about runs of a session, `play` about runs of the script loop
/// (`RunBy`).
pub fn the_sliced_headline()
    ensures run { (quantum : ℕ) (items : List Item) (replies : List Reply) (end : Option SliceRun)
        → RunsSliced quantum None items replies end → MeetsSliced quantum items replies }
    ensures play { (from : SlicePlay) (items : List Item) (replies : List Reply) (end : Option SlicePlay)
        → RunBy slices from None items replies end → MeetsSliced from.quantum items replies }
{}

/// In mode `slice`, if a script has no `p`, exactly one list of replies meets the claim
/// (`MeetsSliced`) for a quantum: at most one (clause `one`) and at least one (`some`).
pub fn one_sliced_transcript()
    ensures one { (quantum : ℕ) (items : List Item) (replies others : List Reply) → AreNoPeeks items
        → MeetsSliced quantum items replies → MeetsSliced quantum items others → others ≡ replies }
    ensures some { (quantum : ℕ) (items : List Item) → AreNoPeeks items
        → (replies : List Reply) × MeetsSliced quantum items replies }
{}

/// One script has one output in mode `slice`: two runs over the same items with the same quantum
/// have the same replies, also to `p` while a job is pending. They end with the same ids and the
/// same heap, including its words and its order. Clause `run` is about runs of a session, `play`
/// about runs of the script loop (`RunBy`).
pub fn one_sliced_output()
    ensures run { (quantum : ℕ) (items : List Item) (replies others : List Reply) (last end : Option SliceRun)
        → RunsSliced quantum None items replies last → RunsSliced quantum None items others end
        → (others ≡ replies) × (end ≡ last) }
    ensures play { (from other : SlicePlay) (items : List Item) (replies others : List Reply) (last end : Option SlicePlay)
        → from.quantum ≡ other.quantum
        → RunBy slices from None items replies last → RunBy slices other None items others end
        → (others ≡ replies) × (option_map run_of_play end ≡ option_map run_of_play last) }
{}

/// In mode `slice`, which calls are refused because of a job, and for how long. `t` is the heap
/// before the call, as the lines and replies show it, with sound settings; a pending job has words
/// left. `free`: a free of a live id prints `busy` if and only if a job is pending. `malloc`: a
/// malloc doesn't print `busy` if the objects with the new one need fewer pages than there are.
/// `none_left`: `s` prints `left 0` if and only if no job is pending after it. `left`: after a free
/// that is done, if only slices follow, each `s` lowers the words left by the quantum, down to 0.
/// `ended`: suppose a malloc prints `busy`, `a` slices are enough for the words left of the job,
/// and `b` slices for a whole slot. Then the malloc isn't refused after `a + b` slices without
/// another command: at most one more job follows.
pub fn who_is_busy_and_how_long()
    ensures free { (t : ShownSlices) (id : ℕ) (v : List ℕ) → get t.heap.objects id ≡ Some v
        → (slice_line t (Free id) ≡ codes "busy") ↔ (t.job ≢ None) }
    ensures malloc { (t : ShownSlices) (n : ℕ) → IsPaging (paging_shown t)
        → pages_needed_with (paging_shown t) t.heap.objects n < t.heap.profile.pages
        → slice_refusal t n ≢ Some Busy }
    ensures none_left { (t : ShownSlices)
        → ((job : ShownJob) → t.job ≡ Some job → 0 < slot_words (paging_shown t) job.class)
        → (words_left (after t Slice) ≡ 0) ↔ ((after t Slice).job ≡ None) }
    ensures left { (t : ShownSlices) (id n : ℕ) (v : List ℕ) → get t.heap.objects id ≡ Some v → t.job ≡ None
        → words_left (after_slices n (after t (Free id)))
        ≡ slot_words (paging_shown t) (class_for (paging_shown t) (length v)) - (n + 1) * t.quantum }
    ensures ended { (t : ShownSlices) (job : ShownJob) (n a b : ℕ) → t.job ≡ Some job
        → job.done < slot_words (paging_shown t) job.class
        → slot_words (paging_shown t) job.class ≤ job.done + a * t.quantum → slot_words (paging_shown t) job.class ≤ b * t.quantum
        → slice_refusal t n ≡ Some Busy → slice_refusal (after_slices (a + b) t) n ≡ None }
{}

/// In mode `slice`, the claim `MeetsSliced` excludes wrong replies: nine wrong ones violate it. The
/// script, on two pages of 64 words with slices of 8 words: mallocs of objects 1 and 2, of 176 bytes
/// each; `f 2`, which begins a job; a slice; `f 1`; a malloc of a whole page; and a malloc of
/// object 4, of 176 bytes. The claim holds for `ok` to the first malloc, `left 7` to the slice,
/// `busy` to `f 1`, `ok` to the whole page and `busy` to object 4 (`right`). It fails for
/// `refused size` to a malloc that fits (`size`), for no replies at all (`silent`), for a reply too
/// few (`missing`) or too many (`over`), for `left 0` (`at_once`), for the words that are done
/// instead of those left (`done`), for `ok` to a free while the job is pending (`beside`), for
/// `busy` to a page while one is free (`page`), and for `ok` to object 4 while the job has the only
/// slot (`slot`).
pub fn wrong_sliced_replies_fall_short()
    ensures right { MeetsSmallSliced (small_sliced_replies (codes "ok") (codes "left 7") (codes "busy") (codes "ok") (codes "busy")) }
    ensures size { ¬ MeetsSmallSliced (small_sliced_replies (codes "refused size") (codes "left 7") (codes "busy") (codes "ok") (codes "busy")) }
    ensures silent { ¬ MeetsSmallSliced [] }
    ensures missing { ¬ MeetsSmallSliced (take 7 (small_sliced_replies (codes "ok") (codes "left 7") (codes "busy") (codes "ok") (codes "busy"))) }
    ensures over { ¬ MeetsSmallSliced (small_sliced_replies (codes "ok") (codes "left 7") (codes "busy") (codes "ok") (codes "busy")
        ++ said (codes "ok") ∷ []) }
    ensures at_once { ¬ MeetsSmallSliced (small_sliced_replies (codes "ok") (codes "left 0") (codes "busy") (codes "ok") (codes "busy")) }
    ensures done { ¬ MeetsSmallSliced (small_sliced_replies (codes "ok") (codes "left 16") (codes "busy") (codes "ok") (codes "busy")) }
    ensures beside { ¬ MeetsSmallSliced (small_sliced_replies (codes "ok") (codes "left 7") (codes "ok") (codes "ok") (codes "busy")) }
    ensures page { ¬ MeetsSmallSliced (small_sliced_replies (codes "ok") (codes "left 7") (codes "busy") (codes "busy") (codes "busy")) }
    ensures slot { ¬ MeetsSmallSliced (small_sliced_replies (codes "ok") (codes "left 7") (codes "busy") (codes "ok") (codes "ok")) }
{}
