//! How many pages each page list has (`Counts`), two counts for each class. The counts are plain
//! numbers, so reading them costs no step.
ghost use Rattle.std.specs.Prelude.{◌≡◌, ◌+◌, ◌-◌, ◌*◌, ◌^◌, ◌<◌, IfOk, length, replicate, slice_index, slice_set};
ghost use Rattle.class_lists.specs.PageLists.{list_number};

use crate::Which;
use std::alloc::{AllocError, Global};
use std::marker::Model;

/// The lengths of the two lists of each class. Contracts see one list of counts, in which each
/// class has two neighbouring entries: its full pages, then its partly full ones (`list_number`).
/// Calls take only classes that have counts.
#[derive(Drop)]
pub(crate) struct Counts {
    /// By class, the number of full pages.
    full: Vec<u32>,
    /// By class, the number of partly full pages.
    not_full: Vec<u32>,
}

impl Model for Counts {
    ghost use Rattle.std.specs.Prelude.{◌≡◌, ℕ, List, length};
    ghost use Rattle.class_lists.specs.Counts.{interleaved};

    ghost Value = { List ℕ };

    ghost view = { λ c. interleaved c.full.items c.not_full.items };

    ghost invariant = { λ c. length c.not_full.items ≡ length c.full.items };
}

impl Counts {
    /// Makes counts of 0 for the two lists of each of `classes` classes. Fails if an allocation
    /// fails.
    pub(crate) fn new(alloc: Global, classes: u32) -> Result<Counts, AllocError>
        ensures { IfOk result (λ counts. counts ≡ replicate (2 * classes) 0) }
    {
        Ok(Counts {
            full: vec![in alloc; 0; classes as usize]?,
            not_full: vec![in alloc; 0; classes as usize]?,
        })
    }

    /// By the counts, how many pages are in the list `which` of class `c`.
    pub(crate) fn of(&self, c: u32, which: Which) -> u32
        requires { list_number c which < length self.now }
        ensures { result ≡ slice_index self.now (list_number c which) }
    {
        match which {
            Which::Full => self.full[c as usize],
            Which::NotFull => self.not_full[c as usize],
        }
    }

    /// Sets the count of the list `which` of class `c` to `len` pages.
    pub(crate) fn put(&mut self, c: u32, which: Which, len: u32)
        requires { list_number c which < length self.old }
        ensures { self.new ≡ slice_set self.old (list_number c which) len }
    {
        match which {
            Which::Full => self.full[c as usize] = len,
            Which::NotFull => self.not_full[c as usize] = len,
        }
    }
}
