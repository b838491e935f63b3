//! What the clauses of `Manager` imply together: on empty heaps, promises of an order, reads, frees,
//! refusals, blocks and their words, the page model, and the one outcome that an order leaves. The
//! functions do nothing; each contract is a law.
ghost use Rattle.std.specs.Prelude.{◌≡◌, ◌≢◌, ℕ, ◌+◌, ◌<◌, ◌≤◌, IsSome, List, None, Option, Result, Some, length, replicate, slice_index};
ghost use Rattle.std.specs.FinMap.{get, insert, remove};
ghost use Rattle.cf_base.specs.declared.results.AccessFault.{AccessFault};
ghost use Rattle.cf_base.specs.declared.results.Freed.{Freed};
ghost use Rattle.cf_base.specs.declared.results.Handle.{Handle};
ghost use Rattle.cf_base.specs.declared.results.NotLive.{NotLive};
ghost use Rattle.cf_base.specs.declared.results.Refusal.{Refusal};
ghost use Rattle.cf_base.specs.declared.results.ResizeFault.{ResizeFault};
ghost use Rattle.cf_base.specs.declared.results.Resized.{Resized};
ghost use Rattle.cf_base.specs.declared.kind.Kind.{Kind};
ghost use Rattle.cf_base.specs.declared.kind.Kind.TheVariants.{NonMoving};
ghost use Rattle.cf_base.specs.Settings.{Profile, profile_of};
ghost use Rattle.cf_base.specs.declared.settings.Settings.{Settings};
ghost use Rattle.page_model.specs.Held.{Held, Placed, places};
ghost use Rattle.page_model.specs.Image.{header_word};
ghost use Rattle.page_model.specs.Order.{Order};
ghost use Rattle.block_model.specs.Buckets.{FreeLists};
ghost use Rattle.block_model.specs.FreeOrder.{link_word, no_block};
ghost use Rattle.block_model.specs.Tiling.{Block, Carves, IsCarvedTo, IsTiling, block_at, block_need, released};
ghost use Rattle.block_model.specs.ReadWords.{read_blocks};
ghost use Rattle.block_model.specs.Words.{AreCleared, AreTilingWords, HaveHeaders};
ghost use Rattle.page_model.specs.Steps.{PlacesObject, RefitsObject, RemovesObject, Request, zeros_at};
ghost use Rattle.cf_model.specs.Ordered.{IsOrderedFree, IsOrderedMalloc, IsOrderedResize, KeepsPromise};
ghost use Rattle.cf_model.specs.ReadObjects.{read_objects};
ghost use Rattle.cf_model.specs.Rules.{AreInRange, AreObjects, AreOwned, IsPaged, IsTiled, KeepsRules, KeepsTiling, content_word};
ghost use Rattle.cf_model.specs.State.{HeapState, closed_state, paging_in, region_words};
ghost use Rattle.cf_model.specs.Steps.{BlocksStay, ChangesCost, FreesObject, AddsObject, IsEmptyHeap, IsFault, IsOpeningOrder, IsOpeningWords, IsRefusedBy, IsResizeFault, Position};
ghost use Rattle.cf_model.specs.Steps.{IsFreeStep, IsMallocStep, IsResizeStep, IsWriteStep};
ghost use Rattle.cf_model.specs.Steps.{ReadsBytes, ResizesObject, WritesBytes, empty_heap, number_of, opening_order, ordered_heap};

use block_model::free_order::lists_stay_lists_of_the_blocks;

/// A manager's heap that was just opened, with settings in their ranges, keeps the rules (`KeepsRules`). With pages its
/// words are zeros, and it has no order or the opening one (clause `pages`). With blocks word 0 is the header of the one
/// free block, and the words from 2 on are zeros. Word 1 may be any word if the state has no order (`blocks`). If it has
/// the opening order, word 1 links the block with no other (`linked`). So for each kind there are words with which the
/// heap keeps the rules, without an order (`there`) and with the opening one (`ordered`).
pub fn an_empty_heap_keeps_the_rules()
    ensures pages { (kind : Kind) (p : Profile) (order : Option Order) → IsPaged kind → AreInRange p → IsOpeningOrder kind p order
        → KeepsRules (ordered_heap kind p (replicate (region_words p) 0) order) }
    ensures blocks { (kind : Kind) (p : Profile) (words : List ℕ) → IsTiled kind → AreInRange p → length words ≡ region_words p
        → slice_index words 0 ≡ region_words p → ((w : ℕ) → 2 ≤ w → slice_index words w ≡ 0)
        → KeepsRules (empty_heap kind p words) }
    ensures linked { (kind : Kind) (p : Profile) (words : List ℕ) → IsTiled kind → AreInRange p → length words ≡ region_words p
        → slice_index words 0 ≡ region_words p → slice_index words 1 ≡ link_word no_block no_block
        → ((w : ℕ) → 2 ≤ w → slice_index words w ≡ 0)
        → KeepsRules (ordered_heap kind p words (Some (opening_order kind p))) }
    ensures there { (kind : Kind) (p : Profile) → AreInRange p
        → (words : List ℕ) × IsOpeningWords kind p words × KeepsRules (empty_heap kind p words) }
    ensures ordered { (kind : Kind) (p : Profile) → AreInRange p
        → (words : List ℕ) × IsOpeningWords kind p words × KeepsRules (ordered_heap kind p words (Some (opening_order kind p))) }
{
    // For its contract: the lists of one free block are lists of its region.
    lists_stay_lists_of_the_blocks();
}

/// The state of a manager that was never open (`closed_state`) promises an order (clause `closed`). If
/// a manager promises an order and is then opened, it has the opening order (`opens`).
pub fn a_promise_is_an_opening_order()
    ensures closed { (kind : Kind) → IsSome (closed_state kind).order }
    ensures opens { (s : Settings) (old new : HeapState) → IsSome old.order → IsEmptyHeap old.kind s new → KeepsPromise old new
        → new ≡ ordered_heap old.kind (profile_of s) new.words (Some (opening_order old.kind (profile_of s))) }
{}

/// On any manager, a read of the bytes that were just written returns them, and a write changes no other object.
pub fn what_is_written_is_read()
    ensures same { (old new : HeapState) (position : Position) (bytes out : List ℕ)
        → WritesBytes old position bytes new → ReadsBytes new position (length bytes) out → out ≡ bytes }
    ensures others { (old new : HeapState) (position : Position) (bytes : List ℕ)
        → WritesBytes old position bytes new
        → (q : ℕ) → q ≢ position.number → get new.held q ≡ get old.held q }
{}

/// On any manager, after a free that succeeds, the freed handle isn't live.
pub fn what_is_freed_is_gone()
    ensures { (old new : HeapState) (h : ℕ) (freed : Freed)
        → FreesObject old h freed new → get new.held h ≡ None }
{}

/// In any non-moving `Manager`, a free and a resize, refused or not, leave each other object in its physical blocks,
/// and leave the words there unchanged. So clause `blocks` of these calls follows from their other clauses.
pub fn calls_keep_the_blocks_of_others()
    ensures free { (old new : HeapState) (h : ℕ) (freed : Freed) → old.kind ≡ NonMoving
        → KeepsRules old → KeepsRules new → FreesObject old h freed new → BlocksStay old h new }
    ensures resize { (old new : HeapState) (asked : Request) (done : Resized) → old.kind ≡ NonMoving
        → KeepsRules old → KeepsRules new → ResizesObject old asked done new → BlocksStay old asked.number new }
    ensures refusal { (old new : HeapState) (h : ℕ) → old.kind ≡ NonMoving
        → KeepsRules old → KeepsRules new → ChangesCost old new → BlocksStay old h new }
{}

/// If a malloc, free, write, read or resize of a manager succeeds, no cause to refuse it held before it. So the call
/// is refused if and only if a cause holds. A malloc has at most one cause (`one_cause`).
pub fn a_cause_is_always_refused()
    ensures malloc { (old new : HeapState) (asked : Request) (e : Refusal)
        → AddsObject old asked new → ¬ IsRefusedBy old asked.length e }
    ensures one_cause { (s : HeapState) (bytes : ℕ) (e f : Refusal)
        → IsRefusedBy s bytes e → IsRefusedBy s bytes f → e ≡ f }
    ensures free { (old new : HeapState) (h : ℕ) (freed : Freed)
        → FreesObject old h freed new → ¬ (get old.held h ≡ None) }
    ensures write { (old new : HeapState) (position : Position) (bytes : List ℕ) (e : AccessFault)
        → WritesBytes old position bytes new → ¬ IsFault old position (length bytes) e }
    ensures read { (s : HeapState) (position : Position) (count : ℕ) (out : List ℕ) (e : AccessFault)
        → ReadsBytes s position count out → ¬ IsFault s position count e }
    ensures resize { (old new : HeapState) (asked : Request) (done : Resized) (e : ResizeFault)
        → ResizesObject old asked done new → ¬ IsResizeFault old asked e }
{}

/// On managers with blocks, a malloc and a free keep each object in a block of its own, and each used block has an
/// object. `m` are the objects before the call, `old` and `new` the blocks before and after it. `rule` is the free-list
/// rule, and the region has `words` words. The malloc adds an object of n bytes under the unused number h at the
/// address `place`, in a block as large as it needs or one word more (`IsCarvedTo`). The free removes object h, which
/// is x.
pub fn blocks_stay_owned()
    ensures malloc { (rule : FreeLists) (words : ℕ) (m : Held) (old new : List Block) (h n place : ℕ)
        → IsTiling words old → AreOwned m old → get m h ≡ None
        → Carves rule old (record { need = block_need n; owner = h }) place new
        → IsCarvedTo new place (record { need = block_need n; owner = h })
        → AreOwned (insert m h (zeros_at place n)) new }
    ensures free { (words : ℕ) (m : Held) (old : List Block) (h : ℕ) (x : Placed)
        → IsTiling words old → AreOwned m old → get m h ≡ Some x
        → AreOwned (remove m h) (released old x.place) }
{}

/// On managers with blocks, the words of the region determine the blocks (clause `blocks`). The words and the objects'
/// addresses determine the objects (`objects`).
pub fn the_words_show_blocks_and_objects()
    ensures blocks { (s : HeapState) → AreInRange s.profile → AreObjects s → KeepsTiling s
        → read_blocks (region_words s.profile) s.words 0 (region_words s.profile) ≡ s.tiling }
    ensures objects { (s : HeapState) → AreInRange s.profile → AreObjects s → KeepsTiling s
        → read_objects s.words (places s.held) ≡ s.held }
{}

/// On managers with blocks, a malloc adds an object of n bytes under the number h at the address `place`. `m` are the
/// objects before it, `old` and `new` the blocks, `was` and `now` the words before and after it. `rule` is the
/// free-list rule, and the region has `count` words. Let each block have its header afterwards, the free blocks be
/// cleared, and the contents of the other used blocks be unchanged. Let the new block have its object's header in word
/// 1, then zeros. Then the words are those of the blocks and of the objects with the new one.
pub fn a_carve_keeps_the_words()
    ensures { (rule : FreeLists) (count : ℕ) (m : Held) (old new : List Block) (h n place : ℕ) (was now : List ℕ)
        → IsTiling count old → AreOwned m old → get m h ≡ None
        → Carves rule old (record { need = block_need n; owner = h }) place new
        → AreTilingWords (content_word m) old was
        → HaveHeaders now new 0 → AreCleared now new
        → ((a q : ℕ) (b : Block) → a ≢ place → block_at new a ≡ Some b → b.owner ≡ Some q → (i : ℕ) → 1 + i < b.size
        → slice_index now (a + 1 + i) ≡ slice_index was (a + 1 + i))
        → slice_index now (place + 1) ≡ header_word h n
        → ((b : Block) → block_at new place ≡ Some b → (i : ℕ) → 2 + i < b.size → slice_index now (place + 2 + i) ≡ 0)
        → (b : Block) → block_at new place ≡ Some b → b.owner ≡ Some h
        → AreTilingWords (content_word (insert m h (zeros_at place n))) new now }
{}

/// On managers with pages, each malloc, free and resize that succeeds is a step of the model of objects on pages:
/// `PlacesObject`, `RemovesObject` or `RefitsObject`.
pub fn calls_are_the_steps_of_pages()
    ensures malloc { (old new : HeapState) (asked : Request) → IsPaged old.kind → AddsObject old asked new
        → PlacesObject (paging_in old) old.held asked new.held }
    ensures free { (old new : HeapState) (h : ℕ) (freed : Freed) → IsPaged old.kind → FreesObject old h freed new
        → RemovesObject (paging_in old) old.held h (record { held = new.held; moved = number_of freed.moved }) }
    ensures resize { (old new : HeapState) (asked : Request) (done : Resized) → ResizesObject old asked done new
        → RefitsObject (paging_in old) old.held asked (record { held = new.held; moved = number_of done.moved }) }
{}

/// If a manager has an order, each malloc, free and resize has one outcome. Two results r and s of the same
/// call in the state `old` are equal. So are the states `new` and `next` that they leave, with addresses,
/// blocks, words, order and cost. A write has one outcome without an order too.
pub fn an_order_leaves_one_outcome()
    ensures malloc { (old new next : HeapState) (bytes : ℕ) (r s : Result Handle Refusal) → IsSome old.order
        → KeepsRules old → KeepsRules new → KeepsRules next
        → IsMallocStep old bytes r new → IsOrderedMalloc old bytes r new
        → IsMallocStep old bytes s next → IsOrderedMalloc old bytes s next
        → (r ≡ s) × (next ≡ new) }
    ensures free { (old new next : HeapState) (h : ℕ) (r s : Result Freed NotLive) → IsSome old.order
        → KeepsRules old → KeepsRules new → KeepsRules next
        → IsFreeStep old h r new → IsOrderedFree old h r new
        → IsFreeStep old h s next → IsOrderedFree old h s next
        → (r ≡ s) × (next ≡ new) }
    ensures resize { (old new next : HeapState) (asked : Request) (r s : Result Resized ResizeFault) → IsSome old.order
        → KeepsRules old → KeepsRules new → KeepsRules next
        → IsResizeStep old asked r new → IsOrderedResize old asked r new
        → IsResizeStep old asked s next → IsOrderedResize old asked s next
        → (r ≡ s) × (next ≡ new) }
    ensures write { (old new next : HeapState) (position : Position) (bytes : List ℕ) (r s : Result Unit AccessFault)
        → KeepsRules new → KeepsRules next
        → IsWriteStep old position bytes r new → IsWriteStep old position bytes s next
        → (r ≡ s) × (next ≡ new) }
{}
