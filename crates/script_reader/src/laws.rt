//! Laws that callers use in proofs: what a reader returns, over all its calls, are the items of the bytes
//! that it was fed. An item is a command, the `heap` line, or the first bad line.
ghost use Rattle.std.specs.Prelude.{◌≡◌, ◌↔◌, ℕ, List, [], ◌∷◌, Bool, true, false, ◌++◌};
ghost use Rattle.script_reader.specs.ReaderCalls.{AllGiven, AreCalls, ReaderCall, bytes_fed, is_finished, is_stopped, items_given};
ghost use Rattle.script_reader.specs.Items.{AreFirstOf, bad, items};
ghost use Rattle.script_reader.specs.Reading.{Answers, Reading, fresh, items_left};
ghost use Rattle.script_reader.specs.declared.next.Next.{Next};
ghost use Rattle.script_reader.specs.declared.next.Next.TheVariants.{NeedMore, Bad, End};

/// The items of the first bytes of a script (`bytes`) stay the script's first items, whatever bytes
/// follow (`more`). `ended` is whether the script ends after `more`.
pub fn items_stay()
    ensures { (bytes more : List ℕ) (ended : Bool) → AreFirstOf (items bytes false) (items (bytes ++ more) ended) }
{}

/// However a script is cut into chunks, and whenever `next_command` is called: the items that the
/// calls returned, up to the first bad line, are the first items of the bytes fed (clause `first`).
/// Followed by the items that the reader has left, they are all items of the bytes fed (clause
/// `rest`).
pub fn answers_are_items()
    ensures first { (calls : List ReaderCall) (now : Reading) → AreCalls fresh calls now
        → AreFirstOf (items_given calls) (items (bytes_fed calls) (is_finished calls)) }
    ensures rest { (calls : List ReaderCall) (now : Reading) → AreCalls fresh calls now
        → items (bytes_fed calls) (is_finished calls) ≡ items_given calls ++ items_left now [] false }
{}

/// What `next_command` returns after some calls of a reader. It returns `NeedMore` if and only if
/// the end was not announced, every item of the bytes fed was returned, and none of them is a bad
/// line; `End` if and only if the end was announced, and the same is true of the items. If no bad
/// line was returned before, it returns `Bad` if and only if the next item is a bad line.
pub fn answers_come_exactly()
    ensures need_more { (calls : List ReaderCall) (now new : Reading) (next : Next) → AreCalls fresh calls now → Answers now next new
        → (next ≡ NeedMore ↔ AllGiven calls × (is_finished calls ≡ false)) }
    ensures end { (calls : List ReaderCall) (now new : Reading) (next : Next) → AreCalls fresh calls now → Answers now next new
        → (next ≡ End ↔ AllGiven calls × (is_finished calls ≡ true)) }
    ensures bad { (calls : List ReaderCall) (now new : Reading) (next : Next) (line : ℕ) → AreCalls fresh calls now → Answers now next new
        → is_stopped calls ≡ false → (next ≡ Bad line ↔ items (bytes_fed calls) (is_finished calls) ≡ items_given calls ++ bad line ∷ []) }
{}
