//! The counters of a session: the last step bound; how many objects frees and resizes moved into
//! the slots that they freed; and the words of these slots.
ghost use Rattle.std.specs.Prelude.{◌≡◌};
ghost use Rattle.id_table.specs.Counters.{no_counts, with_move};

use cf_base::Handle;

/// The counters of a session, which the reply to `steps` shows with pages.
#[derive(Clone, Copy, Debug, PartialEq, Eq)]
pub struct Counters {
    /// The step bound of the last malloc, free or resize that called the manager; 0 before the first one.
    pub bound: u64,
    /// How many objects a free or a resize moved into the slot that it freed. A resized object that
    /// itself takes another slot isn't counted. Saturates at `2^64 - 1`.
    pub moves: u64,
    /// The words of the slots of the objects that `moves` counts. Saturates at `2^64 - 1`.
    pub words: u64,
}

impl Counters {
    /// The counters of a new session: all are 0.
    pub fn new() -> Counters
        ensures { result ≡ no_counts }
    {
        Counters {
            bound: 0,
            moves: 0,
            words: 0,
        }
    }

    /// After a free or a resize of a session: if another object moved into the slot that it freed
    /// (`moved`), adds 1 to `moves`, and the words of this slot (`slot_words`) to `words`. Both
    /// counters saturate at `2^64 - 1`.
    pub fn count_move(&mut self, moved: Option<Handle>, slot_words: u32)
        ensures { self.new ≡ with_move self.old moved slot_words }
    {
        if moved.is_some() {
            self.moves = self.moves.saturating_add(1);
            self.words = self.words.saturating_add(slot_words as u64);
        }
    }
}
