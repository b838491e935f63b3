//! The handles that C has: each is the number of an object and a generation, which a free of that number raises.
ghost use Rattle.std.specs.Prelude.{◌≡◌, ℕ, ◌*◌, ◌%◌, ◌^◌, ◌<◌, ◌≤◌, IfSome, length};
ghost use Rattle.std.specs.Int.{IsNextPowerOfTwo};
ghost use Rattle.cf_base.specs.Needed.{one_block};
ghost use Rattle.c_base.specs.HandleRules.{AreFirstHandles};
ghost use Rattle.c_base.specs.Handles.{base_of, handle_of, largest, moved_handle, next, number_in, raised};

use crate::codes::NONE;
use cf_base::{BytesNeeded, Handle, numbers_from};
use std::alloc::Global;
use std::marker::Model;

/// For each object number from 0 to `mask`, the handle that names it now (`of`). The low bits of a
/// handle, those that are 1 in `mask`, are the number, and the others the generation. A handle
/// above `limit` is of the last generation.
#[derive(Drop)]
pub struct Handles {
    of: Vec<u32>,
    mask: u32,
    limit: u32,
}

impl Model for Handles {
    ghost use Rattle.std.specs.Prelude.{ℕ, List};
    ghost use Rattle.std.specs.Coded.{coded_ℕ, coded_list};
    ghost use Rattle.c_base.specs.HandleRules.{AreCounted};

    ghost Value = { List ℕ };

    ghost coded = { coded_list coded_ℕ };

    ghost view = { λ h. h.of.items };

    ghost invariant = { λ h. AreCounted h.of.items h.mask h.limit };
}

/// C's handle of number 0 in a heap just opened with `count` numbers, 1 to 131,071: the least
/// multiple of `count` that is larger than `last`, the largest handle before; or 0 if fewer than
/// three times `count` values of 32 bits are larger.
fn base(count: u32, last: u32) -> u32
    requires some { 1 ≤ count }
    requires few { count < 131072 }
    ensures { result ≡ base_of count last }
{
    if last as u64 + 3 * count as u64 <= u32::MAX as u64 {
        last - last % count + count
    } else {
        0
    }
}

impl Handles {
    /// The handles of a heap just opened with `proxies` proxies, 1 to 65,536: as many as `proxies`
    /// rounded up to a power of two. They are larger than `last`, or from 0 on if too few are
    /// larger. Returns `None` if out of memory.
    pub fn new(alloc: Global, proxies: u32, last: u32) -> Option<Handles>
        requires some { 1 ≤ proxies }
        requires few { proxies ≤ 65536 }
        ensures { IfSome result (λ h. AreFirstHandles proxies last h) }
    {
        let count = proxies.next_power_of_two();
        let base = base(count, last);
        let of = numbers_from(alloc, base, count).ok()?;
        Some(Handles {
            of,
            mask: count - 1,
            limit: u32::MAX - 2 * count,
        })
    }

    /// The memory that the handles of a heap with `proxies` proxies, 1 to 65,536, need: one block,
    /// with 4 bytes for each handle.
    pub fn bytes_needed(proxies: u32) -> BytesNeeded
        requires some { 1 ≤ proxies }
        requires few { proxies ≤ 65536 }
        ensures needed { (count : ℕ) × IsNextPowerOfTwo proxies count × (result ≡ one_block (4 * count)) }
        ensures few { result.total < 2 ^ 32 }
    {
        BytesNeeded::block(4 * u64::from(proxies.next_power_of_two()))
    }

    /// How many numbers have a handle of C.
    pub fn count(&self) -> u32
        ensures value { result ≡ length self.now }
        ensures few { result < 131072 }
    {
        self.mask + 1
    }

    /// Returns the number in C's handle: the low bits of the handle.
    fn number(&self, handle: u32) -> u32
        ensures value { result ≡ handle % length self.now }
        ensures within { result < length self.now }
    {
        handle & self.mask
    }

    /// The handle that C has for object `number`, of which only the low bits count.
    pub fn handle_of(&self, number: u32) -> u32
        ensures { result ≡ handle_of self.now number }
    {
        self.of[self.number(number) as usize]
    }

    /// The object number that a handle of C names: the low bits of the handle, if the number there
    /// has this handle now; else `NONE`, which no object has.
    pub fn number_in(&self, handle: u32) -> u32
        ensures { result ≡ number_in self.now handle }
    {
        let number = self.number(handle);
        if self.of[number as usize] == handle {
            number
        } else {
            NONE
        }
    }

    /// C's handle after this one with the same number; after the last one the first.
    fn next(&self, handle: u32) -> u32
        ensures { result ≡ next (length self.now) handle }
    {
        if handle <= self.limit {
            handle + (self.mask + 1)
        } else {
            self.number(handle)
        }
    }

    /// Gives the number in `handle` (its low bits) C's next handle (`next`), after a free of the
    /// object that `handle` named.
    pub fn raise(&mut self, handle: u32)
        ensures { self.new ≡ raised self.old (handle % length self.old) }
    {
        let number = self.number(handle) as usize;
        self.of[number] = self.next(self.of[number]);
    }

    /// C's handle of the object that moved; `NONE` if no object did.
    pub fn of_moved(&self, moved: Option<Handle>) -> u32
        ensures { result ≡ moved_handle self.now moved }
    {
        match moved {
            Some(h) => self.handle_of(h.0),
            None => NONE,
        }
    }

    /// Returns the largest of all these handles of C.
    pub fn largest(&self) -> u32
        ensures { result ≡ largest self.now }
    {
        self.of.iter().fold(0, |most, handle| most.max(*handle))
    }
}
