//! Laws on the words of a sliced heap's region, also while a job is pending: how they differ from the image of
//! the objects, what each call changes, how a byte is read. The laws hold in states that satisfy the rules
//! (`IsKept`), under valid settings `plan` (`IsPlan`).
ghost use Rattle.std.specs.Prelude.{ℕ, ◌≡◌, ◌+◌, ◌/◌, ◌%◌, ◌<◌, ◌≤◌, ◌↔◌, List, Some, length, slice_index};
ghost use Rattle.std.specs.FinMap.{get, insert};
ghost use Rattle.page_model.specs.Bytes.{AreBytes, written};
ghost use Rattle.page_model.specs.Held.{Held, Placed};
ghost use Rattle.page_model.specs.Image.{IsSlotImage, Rewrites, header_word, slot_for};
ghost use Rattle.page_model.specs.Paging.{Paging};
ghost use Rattle.page_model.specs.Steps.{Request};
ghost use Rattle.slice_model.specs.Runs.{words_of_slice};
ghost use Rattle.slice_model.specs.State.{Idle, IsKept, IsPlan, JobSlot, Move, Plan, Sliced, job_slot};
ghost use Rattle.slice_model.specs.Steps.{AddsSlicedObject, IsSlice, RemovesSlicedObject};
ghost use Rattle.slice_model.specs.Words.{DoesWords, HasWords, IsClosedWord, RewritesObject, byte_read};

/// If no job is pending, the words of a heap are right (`HasWords`) if and only if they are the image
/// of its objects (clause `idle`). While a job is pending, they differ from the image (`clean`) at most
/// in the words that the job has yet to clear or to move: in its slot, and at the address of the object
/// in motion (`closed`). Until word i of that object is moved, it is word i of the job's slot, k
/// (`carried`).
pub fn words_are_the_image_but_for_the_job()
    ensures idle { (p : Paging) (m : Held) (words : List ℕ)
        → HasWords p (record { held = m; job = Idle }) words ↔ IsSlotImage p m words }
    ensures closed { (plan : Plan) (s : Sliced) (words clean : List ℕ) (w : ℕ) → IsPlan plan → IsKept plan s
        → HasWords plan.paging s words → IsSlotImage plan.paging s.held clean
        → IsClosedWord plan.paging s.held s.job w → slice_index words w ≡ slice_index clean w }
    ensures carried { (plan : Plan) (s : Sliced) (words clean : List ℕ) (h : ℕ) (k : JobSlot) (x : Placed) (i : ℕ)
        → HasWords plan.paging s words → IsSlotImage plan.paging s.held clean
        → s.job ≡ Move h k → get s.held h ≡ Some x → k.done ≤ i → i < slot_for plan.paging (length x.bytes)
        → slice_index words (k.address + i) ≡ slice_index clean (x.place + i) }
{}

/// If the words of the region are right for the state (`HasWords`), they are right for the new state
/// after each call that changes them as follows. A malloc writes the header of its object and no other
/// word. A free and a slice clear or move only the next words of the job. A write changes only the words
/// that hold bytes written.
pub fn words_after_each_call()
    ensures malloc { (plan : Plan) (old : Sliced) (words after : List ℕ) (asked : Request) (new : Sliced) → IsPlan plan → IsKept plan old
        → HasWords plan.paging old words → (g : AddsSlicedObject plan old asked new)
        → Rewrites words after (record { from = g.place; count = 1 }) (λ _. header_word asked.number asked.length)
        → HasWords plan.paging new after }
    ensures free { (plan : Plan) (old : Sliced) (words after : List ℕ) (h : ℕ) (new : Sliced) → IsPlan plan → IsKept plan old
        → HasWords plan.paging old words → (r : RemovesSlicedObject plan old h new)
        → DoesWords r.begun.held r.begun.job (words_of_slice plan (job_slot r.begun.job)) words after
        → HasWords plan.paging new after }
    ensures slice { (plan : Plan) (old : Sliced) (words after : List ℕ) (new : Sliced) → IsPlan plan → IsKept plan old
        → HasWords plan.paging old words → IsSlice plan old new
        → DoesWords old.held old.job (words_of_slice plan (job_slot old.job)) words after
        → HasWords plan.paging new after }
    ensures write { (plan : Plan) (old : Sliced) (words after : List ℕ) (h : ℕ) (x : Placed) (at : ℕ) (bytes : List ℕ) → IsPlan plan → IsKept plan old
        → HasWords plan.paging old words → get old.held h ≡ Some x → at + length bytes ≤ length x.bytes
        → RewritesObject old.job h x (written x.bytes at bytes)
        (record { from = 1 + at / 8; count = (at % 8 + length bytes + 7) / 8 }) words after
        → HasWords plan.paging
        (record old { held = insert old.held h (record { place = x.place; bytes = written x.bytes at bytes }) }) after }
{}

/// Reading byte k of object h returns the object's byte, also if a job is moving the object.
/// `byte_read` reads the word that has the byte. It is at the object's address or, if the job has yet
/// to move it there, in the job's slot.
pub fn bytes_are_read_where_they_lie()
    ensures { (plan : Plan) (s : Sliced) (words : List ℕ) (h : ℕ) (x : Placed) (k : ℕ) → IsPlan plan → IsKept plan s
        → HasWords plan.paging s words → get s.held h ≡ Some x → AreBytes x.bytes → k < length x.bytes
        → byte_read s.job words h x k ≡ slice_index x.bytes k }
{}
