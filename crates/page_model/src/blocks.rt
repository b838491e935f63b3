//! Laws of the non-moving manager's block table: it stays a permutation, a free or a resize keeps
//! other objects' physical blocks, no two objects share a block, and where in the region an
//! object's words are. In the clauses `p` holds the pages, `m` or `old` the objects, `after` what a
//! call leaves. Where a clause has `AreFramed`, the objects must be a sound arrangement in whole
//! blocks, and the table must have each block of the region once.
ghost use Rattle.std.specs.Prelude.{ℕ, ◌≡◌, ◌≢◌, ◌+◌, ◌*◌, ◌/◌, ◌%◌, ◌<◌, List, Some, length, slice_index};
ghost use Rattle.std.specs.FinMap.{get};
ghost use Rattle.page_model.specs.Frames.{IsPermuted, IsPhysical, AreFramed, block_of, first_frames, frames_after};
ghost use Rattle.page_model.specs.Held.{Held, Placed};
ghost use Rattle.page_model.specs.Image.{IsSlotImage, object_word, slot_for};
ghost use Rattle.page_model.specs.Paging.{Paging};
ghost use Rattle.page_model.specs.Steps.{RemovesObject, RefitsObject, CallResult, Request, ResizesInPlace};

/// The block table (`frames`) of an empty heap with `n` blocks contains the number of each block
/// once. If a table does, and the objects `old` are a sound arrangement (`AreFramed`), both are
/// still so after a free of object `h`, and after a resize (`asked`), which turn `old` into
/// `after`.
pub fn frames_stay_permuted()
    ensures first { (n : ℕ) → IsPermuted (first_frames n) × (length (first_frames n) ≡ n) }
    ensures free { (p : Paging) (old : Held) (frames : List ℕ) (h : ℕ) (after : CallResult)
        → AreFramed p old frames → RemovesObject p old h after
        → AreFramed p after.held (frames_after p old after frames) }
    ensures resize { (p : Paging) (old : Held) (frames : List ℕ) (asked : Request) (after : CallResult)
        → AreFramed p old frames → RefitsObject p old asked after
        → AreFramed p after.held (frames_after p old after frames) }
{}

/// A free of object `h`, or a resize (`asked`), keeps each physical block of every other object
/// `q`, even if `q` moves (clauses `free`, `resize`). A resize within the class also keeps the
/// blocks of the resized object (`same_class`). `y` is the object before the call, `z` the same one
/// after it, and `i` a block of its slot. `frames` is the block table before the call. A malloc has
/// no clause here, since it moves no object.
pub fn blocks_of_others_stay()
    ensures free { (p : Paging) (old : Held) (frames : List ℕ) (h : ℕ) (after : CallResult)
        → AreFramed p old frames → RemovesObject p old h after
        → (q : ℕ) (y z : Placed) → q ≢ h → get old q ≡ Some y → get after.held q ≡ Some z
        → (i : ℕ) → i < slot_for p (length y.bytes) / 4
        → block_of (frames_after p old after frames) z.place i ≡ block_of frames y.place i }
    ensures resize { (p : Paging) (old : Held) (frames : List ℕ) (asked : Request) (after : CallResult)
        → AreFramed p old frames → RefitsObject p old asked after
        → (q : ℕ) (y z : Placed) → q ≢ asked.number
        → get old q ≡ Some y → get after.held q ≡ Some z
        → (i : ℕ) → i < slot_for p (length y.bytes) / 4
        → block_of (frames_after p old after frames) z.place i ≡ block_of frames y.place i }
    ensures same_class { (p : Paging) (old : Held) (frames : List ℕ) (asked : Request)
        (after : CallResult)
        → ResizesInPlace p old asked after
        → (y z : Placed) → get old asked.number ≡ Some y → get after.held asked.number ≡ Some z
        → (i : ℕ) → block_of (frames_after p old after frames) z.place i
        ≡ block_of frames y.place i }
{}

/// No two objects `x` and `y` of the arrangement `m` share a physical block. `frames` is the block
/// table.
pub fn live_objects_share_no_block()
    ensures { (p : Paging) (m : Held) (frames : List ℕ) → AreFramed p m frames
        → (h q : ℕ) (x y : Placed) → get m h ≡ Some x → get m q ≡ Some y → q ≢ h
        → (i j : ℕ) → i < slot_for p (length x.bytes) / 4 → j < slot_for p (length y.bytes) / 4
        → block_of frames x.place i ≢ block_of frames y.place j }
{}

/// Where the words of an object are in the region. Block i / 4 of the slot of object `x` has a
/// physical block in the block table (`frames`). Word `i` of the slot is word i modulo 4 of that
/// physical block. So a call that keeps an object's blocks and bytes keeps its words in the region.
/// `words` are the words as objects see them, `physical` those of the region.
pub fn slots_are_in_their_blocks()
    ensures { (p : Paging) (m : Held) (frames words physical : List ℕ) → AreFramed p m frames
        → IsSlotImage p m words → IsPhysical frames words physical
        → (h i : ℕ) (x : Placed) → get m h ≡ Some x → i < slot_for p (length x.bytes)
        → slice_index physical (4 * block_of frames x.place (i / 4) + i % 4)
        ≡ object_word h x.bytes i }
{}
