//! Laws of the words of a region with pages: how the objects determine them, how a call changes
//! them, how bytes are read back, and that words can still represent the objects after a call. In
//! the clauses `m` holds the objects with their addresses, `p` the pages and the classes. Clauses
//! with both require a sound arrangement `m` and `IsPaging p`: the slot sizes rise to the page, and
//! each class has a bound of at least 1.
ghost use Rattle.std.specs.Prelude.{ℕ, ◌≡◌, ◌+◌, ◌*◌, ◌/◌, ◌%◌, ◌^◌, ◌<◌, ◌≤◌, List, Option, Some, None, length, replicate, slice_index, slice_set};
ghost use Rattle.std.specs.FinMap.{FinMap, empty, get, insert, remove};
ghost use Rattle.std.specs.Ordering.{nat_cmp};
ghost use Rattle.page_model.specs.Arrangement.{IsSound, class_at};
ghost use Rattle.page_model.specs.Bytes.{AreBytes, AreStorable, byte_of, bytes_at, held_at, written};
ghost use Rattle.page_model.specs.Held.{Held, Placed, places};
ghost use Rattle.page_model.specs.Image.{Clears, IsImage, IsSlotImage, MovesWords, Rewrites, header_word, object_word, slot_for};
ghost use Rattle.page_model.specs.Paging.{IsPaging, Paging, class_for};
ghost use Rattle.page_model.specs.Steps.{IsFreePlace, MayFill, MustMove, resized, without, zeros_at};

/// The objects determine the words: two images `u` and `v` of the same objects `m` are equal if
/// they have the same length (`one`). `n` zeros are an image of a region without objects (`empty`).
/// In a sound arrangement, words that are an image of the objects' whole slots (`IsSlotImage`) are
/// also an image of the objects alone (`IsImage`; clause `own`).
pub fn objects_determine_words()
    ensures one { (m : Held) (u v : List ℕ) → length u ≡ length v → IsImage m u → IsImage m v
        → u ≡ v }
    ensures empty { (p : Paging) (n : ℕ) → IsSlotImage p empty (replicate n 0) }
    ensures own { (p : Paging) (m : Held) (words : List ℕ) → IsPaging p → IsSound p m
        → IsSlotImage p m words → IsImage m words }
{}

/// A malloc of `n` bytes writes its object's header at the address `a`, and no other word; then the
/// words are those of the objects with the new one (`header`). The words of that slot are zeros before
/// (`zeros`). No object of `m` has the number `h`, and an object of `n` bytes may be placed at `a`.
pub fn words_after_a_malloc()
    ensures zeros { (p : Paging) (m : Held) (words : List ℕ) (h n a : ℕ) → IsPaging p → IsSound p m
        → IsSlotImage p m words → get m h ≡ None → IsFreePlace p m n a
        → (i : ℕ) → i < slot_for p n → slice_index words (a + i) ≡ 0 }
    ensures header { (p : Paging) (m : Held) (words : List ℕ) (h n a : ℕ) → IsPaging p → IsSound p m
        → IsSlotImage p m words → length words ≡ p.pages * p.page_words
        → get m h ≡ None → IsFreePlace p m n a
        → IsSlotImage p (insert m h (zeros_at a n)) (slice_set words a (header_word h n)) }
{}

/// The bytes `bytes` are written into object `h`, which is `x`, from its byte `at` on. Only the
/// words that hold one of them change from `old` to `new` (clause `bytes`). A resize within the
/// class rewrites the words of the object's slot (`slot`). In both cases the new words are those of
/// the objects with the new contents.
pub fn words_after_a_write()
    ensures bytes { (p : Paging) (m : Held) (old new : List ℕ) (h at : ℕ) (x : Placed)
        (bytes : List ℕ)
        → IsPaging p → IsSound p m → IsSlotImage p m old → get m h ≡ Some x
        → at + length bytes ≤ length x.bytes
        → Rewrites old new
        (record { from = x.place + (1 + at / 8); count = (at % 8 + length bytes + 7) / 8 })
        (λ i. object_word h (written x.bytes at bytes) (1 + at / 8 + i))
        → IsSlotImage p (insert m h
        (record { place = x.place; bytes = written x.bytes at bytes })) new }
    ensures slot { (p : Paging) (m : Held) (old new : List ℕ) (h : ℕ) (x : Placed) (bytes : List ℕ)
        → IsPaging p → IsSound p m → IsSlotImage p m old → get m h ≡ Some x
        → class_for p (length bytes) ≡ class_at p x
        → Rewrites old new (record { from = x.place; count = slot_for p (length x.bytes) })
        (object_word h bytes)
        → IsSlotImage p (insert m h (record { place = x.place; bytes = bytes })) new }
{}

/// A free of object `h`, which is `x`, changes the words from `old` to `new`. It clears the slot
/// (`still`), or moves the words of the slot of object `q`, which is `y`, into it, and clears them
/// at their old address (`moved`). Then the words are those of the other objects.
pub fn words_after_a_free()
    ensures still { (p : Paging) (m : Held) (old new : List ℕ) (h : ℕ) (x : Placed)
        → IsPaging p → IsSound p m → IsSlotImage p m old → get m h ≡ Some x
        → Clears old new (record { from = x.place; count = slot_for p (length x.bytes) })
        → IsSlotImage p (remove m h) new }
    ensures moved { (p : Paging) (m : Held) (old new : List ℕ) (h q : ℕ) (x y : Placed)
        → IsPaging p → IsSound p m → IsSlotImage p m old
        → get m h ≡ Some x → get m q ≡ Some y → MustMove p m x → MayFill p m x y
        → MovesWords old new (record {
          from = y.place;
          count = slot_for p
              (length y.bytes);
        }) x.place
        → IsSlotImage p (insert (remove m h) q (record { place = x.place; bytes = y.bytes })) new }
{}

/// A resize of an object to another class writes the object's new slot while its old slot is still
/// there. Then it clears the old slot (clause `still`), or moves another object's words into it
/// (`moved`). The words in between, `mid`, differ from the words before, `old`, in the new slot
/// alone. The law shows that the words after, `new`, are those of the objects after the resize. The
/// resized object is `h`: it was `x`, and has the address `a` and the bytes `bytes` after. The
/// other object is `q`, which was `y`. Some number, `spare`, must be unused.
pub fn words_after_a_resize()
    ensures still { (p : Paging) (m : Held) (old mid new : List ℕ) (h a spare : ℕ) (x : Placed)
        (bytes : List ℕ)
        → IsPaging p → IsSound p m → IsSlotImage p m old
        → length old ≡ p.pages * p.page_words → length new ≡ p.pages * p.page_words
        → get m h ≡ Some x → get m spare ≡ None → IsFreePlace p m (length bytes) a
        → Rewrites old mid (record { from = a; count = slot_for p (length bytes) })
        (object_word h bytes)
        → Clears mid new (record { from = x.place; count = slot_for p (length x.bytes) })
        → IsSlotImage p (insert (remove m h) h (record { place = a; bytes = bytes })) new }
    ensures moved { (p : Paging) (m : Held) (old mid new : List ℕ) (h q a spare : ℕ) (x y : Placed)
        (bytes : List ℕ) → IsPaging p → IsSound p m → IsSlotImage p m old
        → length old ≡ p.pages * p.page_words → length new ≡ p.pages * p.page_words
        → get m h ≡ Some x → get m spare ≡ None → IsFreePlace p m (length bytes) a
        → Rewrites old mid (record { from = a; count = slot_for p (length bytes) })
        (object_word h bytes)
        → get m q ≡ Some y → MustMove p m x → MayFill p m x y
        → MovesWords mid new (record {
          from = y.place;
          count = slot_for p
              (length y.bytes);
        }) x.place
        → IsSlotImage p
        (insert (insert (remove m h) q (record { place = x.place; bytes = y.bytes })) h
        (record { place = a; bytes = bytes }))
        new }
{}

/// The word at the address of object `h` is its header. It holds the number `h`, which is below
/// 2^32, in the lower half and the object's length in bytes in the upper half.
pub fn headers_show_number_and_length()
    ensures { (m : Held) (words : List ℕ) (h : ℕ) (x : Placed) → IsImage m words → get m h ≡ Some x
        → h < 2 ^ 32
        → (slice_index words x.place % 2 ^ 32 ≡ h) × (slice_index words x.place / 2 ^ 32
        ≡ length x.bytes) }
{}

/// If words can represent the objects `m` (`AreStorable`), the words of a region and the addresses
/// by number (`at`) determine `m`: `held_at` computes the objects from both.
pub fn words_show_what_is_held()
    ensures { (m : Held) (at : FinMap nat_cmp ℕ) (words : List ℕ) → IsImage m words → at ≡ places m
        → AreStorable m → held_at words at ≡ m }
{}

/// The objects that `held_at` computes from the words and from the addresses by number (`at`) have
/// these addresses, and the bytes that the words hold there. Each number of their contents is a
/// byte.
pub fn held_at_has_places()
    ensures places { (words : List ℕ) (at : FinMap nat_cmp ℕ) → places (held_at words at) ≡ at }
    ensures found { (words : List ℕ) (at : FinMap nat_cmp ℕ) (h : ℕ) (x : Placed)
        → get (held_at words at) h ≡ Some x
        → (get at h ≡ Some x.place) × (x.bytes ≡ bytes_at words x.place) }
    ensures bytes { (words : List ℕ) (at : FinMap nat_cmp ℕ) (h : ℕ) (x : Placed)
        → get (held_at words at) h ≡ Some x → AreBytes x.bytes }
{}

/// If words can represent the objects `m` (`AreStorable`), they still can after object `h` is added, if `h` is below
/// 2^32 and its contents are bytes (`comes`), and after an object is removed, also if another one moves (`goes`). Zeros
/// are bytes (`zeros`), and a resize or a write of bytes leaves contents that are bytes (`resized`, `written`).
pub fn objects_stay_storable()
    ensures comes { (m : Held) (h : ℕ) (x : Placed) → AreStorable m → h < 2 ^ 32 → AreBytes x.bytes
        → AreStorable (insert m h x) }
    ensures goes { (m : Held) (h a : ℕ) (moved : Option ℕ) → AreStorable m
        → AreStorable (without m h a moved) }
    ensures zeros { (n : ℕ) → AreBytes (replicate n 0) }
    ensures resized { (v : List ℕ) (n : ℕ) → AreBytes v → AreBytes (resized v n) }
    ensures written { (v : List ℕ) (at : ℕ) (bytes : List ℕ) → at + length bytes ≤ length v
        → AreBytes v → AreBytes bytes → AreBytes (written v at bytes) }
{}

/// Byte `k` of object `h`, which is `x`, is byte k modulo 8 of word k / 8, where word 0 is the one
/// after the object's header.
pub fn bytes_are_read_back()
    ensures { (m : Held) (words : List ℕ) (h k : ℕ) (x : Placed) → IsImage m words
        → get m h ≡ Some x
        → AreBytes x.bytes → k < length x.bytes
        → byte_of (k % 8) (slice_index words (x.place + 1 + k / 8)) ≡ slice_index x.bytes k }
{}

/// Two words `u` and `v` of 64 bits with the same eight bytes are equal (`same`). Each word `i` of
/// an object with the number `h` and the bytes `v` fits 64 bits, if `h` and the length fit 32
/// (`fits`).
pub fn a_word_is_its_bytes()
    ensures same { (u v : ℕ) → u < 2 ^ 64 → v < 2 ^ 64 → ((j : ℕ) → j < 8
        → byte_of j u ≡ byte_of j v) → u ≡ v }
    ensures fits { (h : ℕ) (v : List ℕ) (i : ℕ) → h < 2 ^ 32 → length v < 2 ^ 32 → AreBytes v
        → object_word h v i < 2 ^ 64 }
{}

/// Writing `bytes` over the bytes `v` from position `at` on (`written`) puts them there and changes no
/// other position nor the length, if they end within `v`.
pub fn a_part_is_written()
    ensures len { (v : List ℕ) (at : ℕ) (bytes : List ℕ) → at + length bytes ≤ length v
        → length (written v at bytes) ≡ length v }
    ensures before { (v : List ℕ) (at : ℕ) (bytes : List ℕ) → at + length bytes ≤ length v
        → (k : ℕ) → k < at → slice_index (written v at bytes) k ≡ slice_index v k }
    ensures inside { (v : List ℕ) (at : ℕ) (bytes : List ℕ) → at + length bytes ≤ length v
        → (k : ℕ) → k < length bytes
        → slice_index (written v at bytes) (at + k) ≡ slice_index bytes k }
    ensures behind { (v : List ℕ) (at : ℕ) (bytes : List ℕ) → at + length bytes ≤ length v
        → (k : ℕ) → at + length bytes ≤ k → slice_index (written v at bytes) k ≡ slice_index v k }
{}
