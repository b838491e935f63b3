//! What the contracts of `HeldImages` and `NphHeap` imply: how calls change objects by id, what a
//! heap keeps through `save` and `load`, and which heaps have equal images. The functions do
//! nothing; each contract is a law.
ghost use Rattle.std.specs.Prelude.{◌≡◌, ◌≤◌, ℕ, ℤ, pos, List, Some, drop, length, replicate, take};
ghost use Rattle.std.specs.FinMap.{get, insert, remove};
ghost use Rattle.cf_base.specs.Settings.{Profile, at_bound_one};
ghost use Rattle.c_base.specs.CallerHeap.{CallerHeap, Closed};
ghost use Rattle.heap_image.specs.Heaps.{live_objects};
ghost use Rattle.id_table.specs.ById.{bytes_of};
ghost use Rattle.id_table.specs.Sessions.{RunState};
ghost use Rattle.page_model.specs.Bytes.{written};
ghost use Rattle.norphuen_images.specs.Calls.{IsImagesFreeCall, IsImagesReadCall, IsImagesWriteCall, IsMakeCall, IsSaveCall, Saved, image_in};
ghost use Rattle.norphuen_images.specs.CallerImages.{IsLoadCall, IsLoadedAgain};
ghost use Rattle.norphuen_images.specs.State.{IsNamed};

use heap_image::{an_image_is_read_back, equal_objects_have_one_image, live_objects_have_an_image};

/// From C, a `make` that returns 0 adds an object of zeros under the id, such a `free` removes the
/// object of the id, and such a `write` replaces bytes of it; each leaves all other objects
/// unchanged. A `read` that returns 0 fills the caller's buffer from the object's byte `from` on.
pub fn the_calls_change_the_objects_by_id()
    ensures make { (p : Profile) (old new : RunState) (id bytes : ℕ) → IsNamed p old → IsMakeCall old id bytes (pos 0) new
        → live_objects new ≡ insert (live_objects old) id (replicate bytes 0) }
    ensures free { (p : Profile) (old new : RunState) (id : ℕ) → IsNamed p old → IsImagesFreeCall old id (pos 0) new
        → live_objects new ≡ remove (live_objects old) id }
    ensures write { (p : Profile) (old new : RunState) (id from : ℕ) (bytes : List ℕ) → IsNamed p old → IsImagesWriteCall old id from bytes (pos 0) new
        → (v : List ℕ) × (get (live_objects old) id ≡ Some v) × (live_objects new ≡ insert (live_objects old) id (written v from bytes)) }
    ensures read { (p : Profile) (old new : RunState) (id from : ℕ) (before after : List ℕ) → IsNamed p old → IsImagesReadCall old id from before (pos 0) after new
        → (v : List ℕ) × (get (live_objects old) id ≡ Some v) × (after ≡ take (length before) (drop from v)) }
{}

/// From C, a load of a saved image into a closed heap, with any bound k from 1 to 64, opens a heap
/// with the same settings, but with the bound k, and the same objects by id. It fails only if out
/// of memory; then the heap stays closed.
pub fn a_saved_heap_is_loaded_again()
    ensures { (p : Profile) (s kept : RunState) (before after : Saved) (last k offset offset2 : ℕ) (code : ℤ) (new : CallerHeap RunState)
        → IsNamed p s → IsSaveCall s before (pos 0) after kept → 1 ≤ k → k ≤ 64
        → IsLoadCall (Closed last) (image_in after) k offset code offset2 new → IsLoadedAgain s k code new }
{
    live_objects_have_an_image();
    an_image_is_read_back();
}

/// From C, two heaps with the same settings, but for the bound k, and with the same bytes under each id, are saved as
/// the same bytes, whatever their histories.
pub fn equal_objects_are_saved_as_one_image()
    ensures { (p q : Profile) (one other kept kept2 : RunState) (before before2 after after2 : Saved) → IsNamed p one → IsNamed q other
        → at_bound_one q ≡ at_bound_one p → ((id : ℕ) → bytes_of other id ≡ bytes_of one id)
        → IsSaveCall one before (pos 0) after kept → IsSaveCall other before2 (pos 0) after2 kept2 → image_in after2 ≡ image_in after }
{
    equal_objects_have_one_image();
}
