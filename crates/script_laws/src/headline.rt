//! Theorems on the headline (`MeetsHeadline`: what is claimed of the replies to every script), on
//! the transcript, and on runs with equal objects or on managers that promise an order.
ghost use Rattle.std.specs.Prelude.{◌≡◌, Bool, codes, IsSome, ℕ, List, [], ◌∷◌, None, Option, Some, true};
ghost use Rattle.run_model.specs.Terms.{EveryBoundIsOne, IsGoing, IsPaged, Item, items, Kind, Moving, paging_in, Reply, RunState, said, text_of, Tlsf};
ghost use Rattle.run_model.specs.Runs.{Run};
ghost use Rattle.script_laws.specs.Histories.{AreAlike, AreFurther};
ghost use Rattle.script_laws.specs.Transcripts.{ArePlaceless, StaysAtOne, transcript};
ghost use Rattle.script_laws.specs.Headline.{MeetsHeadline};
ghost use Rattle.script_laws.specs.OneOutput.{BeginNone, BeginOnce, IsOrdered};

/// The replies of every run over a script meet the headline (`MeetsHeadline`): each item has
/// exactly one reply, and between the items there are heaps (`ShownHeap`) such that each item may
/// get its reply in the heap before it and leave the heap after it (`MayReply`).
pub fn the_headline()
    ensures { (kind : Kind) (items : List Item) (replies : List Reply) (end : Option RunState)
        → Run kind None items replies end → MeetsHeadline kind items replies }
{}

/// Replies that meet the headline are determined by their text: no two different lists of replies
/// that meet it for the same kind and items have the same text. So the output shows which lines are
/// the reply to which command.
pub fn the_output_shows_the_replies()
    ensures { (kind : Kind) (items : List Item) (replies others : List Reply)
        → MeetsHeadline kind items replies → MeetsHeadline kind items others
        → text_of [] others ≡ text_of [] replies → others ≡ replies }
{}

/// For a kind with pages, if every bound is 1 and no item asks for an address or a cost, no list of
/// replies but the transcript meets the headline.
pub fn at_bound_one_the_headline_is_the_transcript()
    ensures { (kind : Kind) (items : List Item) (replies : List Reply)
        → IsPaged kind → StaysAtOne kind None items → ArePlaceless items
        → MeetsHeadline kind items replies → replies ≡ transcript kind items }
{}

/// The headline excludes wrong replies: each clause has a script on two pages of 64 words, and
/// replies to it that don't meet the headline. A malloc that fits gets `refused space` (`room`),
/// `refused size` (`size`), a reply without a line (`silent`), or no reply (`missing`); or there is
/// one reply more than items (`over`). `walk` prints one page more than the object needs (`pages`),
/// or a total that isn't the sum of the lines above it (`total`). `steps` prints for a malloc more
/// steps than the headline allows: 65 with pages (`steps`; it allows 64), 26 with TLSF (`blocks`;
/// it allows 25). A free of an id that isn't live gets `ok` (`unknown`). Two live objects have the
/// same address (`shared`). An object has a new address, though nothing was freed or resized
/// (`moved`). A heap without objects has a word that isn't 0 (`word`).
pub fn wrong_replies_fall_short()
    ensures room { ¬ MeetsHeadline Moving (items (codes "heap 2 512 1 8\nm 1 176\n") true)
        (said (codes "ok") ∷ said (codes "refused space") ∷ []) }
    ensures size { ¬ MeetsHeadline Moving (items (codes "heap 2 512 1 8\nm 1 176\n") true)
        (said (codes "ok") ∷ said (codes "refused size") ∷ []) }
    ensures silent { ¬ MeetsHeadline Moving (items (codes "heap 2 512 1 8\nm 1 176\n") true)
        (said (codes "ok") ∷ [] ∷ []) }
    ensures missing { ¬ MeetsHeadline Moving (items (codes "heap 2 512 1 8\nm 1 176\n") true)
        (said (codes "ok") ∷ []) }
    ensures over { ¬ MeetsHeadline Moving (items (codes "heap 2 512 1 8\nm 1 176\n") true)
        (said (codes "ok") ∷ said (codes "ok") ∷ said (codes "hello") ∷ []) }
    ensures pages { ¬ MeetsHeadline Moving (items (codes "heap 2 512 1 8\nm 1 176\nwalk\n") true)
        (said (codes "ok") ∷ said (codes "ok") ∷ (codes "class 23 slots 2 live 1 pages 2 notfull 0"
        ∷ codes "total live 1 pages 2 free 0" ∷ []) ∷ []) }
    ensures total { ¬ MeetsHeadline Moving (items (codes "heap 2 512 1 8\nm 1 176\nwalk\n") true)
        (said (codes "ok") ∷ said (codes "ok") ∷ (codes "class 23 slots 2 live 1 pages 1 notfull 1"
        ∷ codes "total live 1 pages 2 free 0" ∷ []) ∷ []) }
    ensures steps { ¬ MeetsHeadline Moving (items (codes "heap 2 512 1 8\nm 1 176\nsteps\n") true)
        (said (codes "ok") ∷ said (codes "ok")
        ∷ said (codes "steps last 65 bound 64 moves 0 words 0") ∷ []) }
    ensures unknown { ¬ MeetsHeadline Moving (items (codes "heap 2 512 1 8\nf 1\n") true)
        (said (codes "ok") ∷ said (codes "ok") ∷ []) }
    ensures shared { ¬ MeetsHeadline Moving (items (codes "heap 2 512 1 8\nm 1 176\nm 2 176\nq 1\nq 2\n") true)
        (said (codes "ok") ∷ said (codes "ok") ∷ said (codes "ok") ∷ said (codes "at 0")
        ∷ said (codes "at 0") ∷ []) }
    ensures moved { ¬ MeetsHeadline Moving (items (codes "heap 2 512 1 8\nm 1 176\nq 1\nm 2 176\nq 1\n") true)
        (said (codes "ok") ∷ said (codes "ok") ∷ said (codes "at 0") ∷ said (codes "ok")
        ∷ said (codes "at 23") ∷ []) }
    ensures word { ¬ MeetsHeadline Moving (items (codes "heap 2 512 1 8\np 0\n") true)
        (said (codes "ok") ∷ said (codes "0000000000000001") ∷ []) }
    ensures blocks { ¬ MeetsHeadline Tlsf (items (codes "heap 2 512 1 8\nm 1 176\nsteps\n") true)
        (said (codes "ok") ∷ said (codes "ok") ∷ said (codes "steps last 26") ∷ []) }
{}

/// For a kind with pages, if every bound is 1 and no item asks for an address or a cost, all runs
/// over the items have the same replies, the transcript, whichever slot, page, number or object the
/// manager chose.
pub fn one_transcript()
    ensures { (kind : Kind) (items : List Item) (replies : List Reply) (last : Option RunState)
        → IsPaged kind → StaysAtOne kind None items → ArePlaceless items
        → Run kind None items replies last → replies ≡ transcript kind items }
{}

/// If two runs of one kind with pages are in states in which each id names the same bytes, under
/// equal settings and with every bound 1, then the same further items get the same replies in both,
/// whatever their scripts were so far. Further items are no `heap` line, set no bound and ask for
/// no address or cost (`AreFurther`).
pub fn equal_objects_get_equal_replies()
    ensures { (one other : RunState) (items : List Item) (replies shown : List Reply)
        (last end : Option RunState)
        → IsGoing one → IsGoing other → IsPaged one.heap.kind → AreAlike one other
        → EveryBoundIsOne (paging_in one.heap) → EveryBoundIsOne (paging_in other.heap) → AreFurther items
        → Run one.heap.kind (Some one) items replies last
        → Run one.heap.kind (Some other) items shown end
        → shown ≡ replies }
{}

/// On managers of one kind that promise an order, one script has one output: two runs over the same
/// items have the same replies, with each address, block, word and cost, and lead to the same
/// state. `there`: for any input there is such a run. `script`: two runs over the items of any
/// bytes, whose managers both have an order at the end. `items`: the same for any items without a
/// `heap` line after the first (`BeginOnce`). `further`: the same for two runs that continue from
/// one state with an order, over items without a `heap` line.
pub fn one_output()
    ensures there { (kind : Kind) (bytes : List ℕ) (ended : Bool)
        → (replies : List Reply) × (last : Option RunState) × Run kind None (items bytes ended) replies last × IsOrdered last }
    ensures script { (kind : Kind) (bytes : List ℕ) (ended : Bool) (replies others : List Reply) (last end : Option RunState)
        → Run kind None (items bytes ended) replies last → Run kind None (items bytes ended) others end
        → IsOrdered last → IsOrdered end → (others ≡ replies) × (end ≡ last) }
    ensures items { (kind : Kind) (items : List Item) (replies others : List Reply) (last end : Option RunState)
        → BeginOnce items
        → Run kind None items replies last → Run kind None items others end
        → IsOrdered last → IsOrdered end → (others ≡ replies) × (end ≡ last) }
    ensures further { (kind : Kind) (one : RunState) (items : List Item) (replies others : List Reply) (last end : Option RunState)
        → IsGoing one → IsSome one.heap.order → BeginNone items
        → Run kind (Some one) items replies last → Run kind (Some one) items others end
        → (others ≡ replies) × (end ≡ last) }
{}
