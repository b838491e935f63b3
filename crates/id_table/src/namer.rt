//! The trait `Namer`: makes, writes and frees the objects of a manager, which ids name.
ghost use Rattle.std.specs.Prelude.{◌≡◌, ◌+◌, ◌≤◌, ℕ, None, Some, length};
ghost use Rattle.std.specs.FinMap as map;
ghost use Rattle.cf_model.specs.Steps.{number_of};
ghost use Rattle.id_table.specs.Ids.{AreWithin};
ghost use Rattle.id_table.specs.Named.{FreesNamed, HasBytes, MakesNamed, WritesNamed};
ghost use Rattle.id_table.specs.Sessions.{IsGoing, SessionState, run_at};

use cf_base::Handle;
use cf_model::Manager;

/// What names the objects of one manager by ids of 16 bits, and keeps the counters of its calls:
/// the session of a script, or a table of another program. Each call that changes an object gets
/// the manager, whose run must be in progress (`IsGoing`) and still is after it.
pub trait Namer {
    /// The live ids with the numbers of their handles; the last step bound; how many objects frees
    /// and resizes moved into the slots that they freed; and the words of these slots.
    ghost state: { Self → SessionState };

    /// `Namer`: the handle of the object that an id names; none if the id isn't live.
    fn handle(&self, id: u16) -> Option<Handle>
        ensures found { number_of result ≡ map.get (state self.now).ids id }
        ensures within { AreWithin (state self.now).ids };

    /// `Namer`: makes an object of `bytes` zero bytes by a malloc of the manager, and lets `id`
    /// name it. The id must not be live before. Returns whether the manager made the object; if
    /// not, no id and no object changes. In both cases the step bound becomes that of a malloc.
    fn malloc<H: Manager>(&mut self, heap: &mut H, id: u16, bytes: u32) -> bool
        requires going { IsGoing (run_at (state self.old) (H.state heap.old)) }
        requires fresh { map.get (state self.old).ids id ≡ None }
        ensures step { MakesNamed (run_at (state self.old) (H.state heap.old)) id bytes result (run_at (state self.new) (H.state heap.new)) }
        ensures going { IsGoing (run_at (state self.new) (H.state heap.new)) };

    /// `Namer`: writes 1 to 4,096 bytes into the object of a live id, from byte `at` of the object
    /// on. They must not pass the object's end.
    fn write<H: Manager>(&mut self, heap: &mut H, id: u16, at: u32, bytes: &[u8])
        requires going { IsGoing (run_at (state self.old) (H.state heap.old)) }
        requires some { 1 ≤ length bytes.now }
        requires few { length bytes.now ≤ 4096 }
        requires within { HasBytes (run_at (state self.old) (H.state heap.old)) id (at + length bytes.now) }
        ensures step { WritesNamed (run_at (state self.old) (H.state heap.old)) id at bytes.now (run_at (state self.new) (H.state heap.new)) }
        ensures going { IsGoing (run_at (state self.new) (H.state heap.new)) };

    /// `Namer`: frees the object of a live id, which isn't live afterwards. The step bound becomes
    /// that of this free. If another object moved into the slot, counts it and the slot's words.
    fn free<H: Manager>(&mut self, heap: &mut H, id: u16)
        requires going { IsGoing (run_at (state self.old) (H.state heap.old)) }
        requires live { (h : ℕ) × (map.get (state self.old).ids id ≡ Some h) }
        ensures step { FreesNamed (run_at (state self.old) (H.state heap.old)) id (run_at (state self.new) (H.state heap.new)) }
        ensures going { IsGoing (run_at (state self.new) (H.state heap.new)) };
}
