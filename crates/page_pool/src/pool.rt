//! `PagePool`, the numbers of the free pages of a region.
ghost use Rattle.std.specs.Prelude.{◌≡◌, ◌<◌, ◌∷◌, false, length, IfOk};
ghost use Rattle.std.specs.List.{range_with_len};
ghost use Rattle.step_ledger.specs.Counting.{RoseBy};
ghost use Rattle.page_pool.specs.Pool.{is_in_pool, IsPool, TakesFront};
ghost use Rattle.page_pool.specs.Needed.{pool_bytes};

use cf_base::{BytesNeeded, OutOfMemory, numbers_below};
use std::alloc::Global;
use std::marker::Model;
use step_ledger::{Cells, Steps};

/// The free pages of a region. The page that was returned last is taken first.
#[derive(Drop)]
pub struct PagePool {
    /// The free pages are those from index `first` on; the next one to be taken is at `first`.
    stack: Cells<u32>,
    /// The index of the page that is taken next; the length of `stack` if no page is free.
    first: usize,
}

impl Model for PagePool {
    ghost use Rattle.page_pool.specs.Pool.{Pool, pool_code};
    ghost use Rattle.page_pool.specs.Layout.{pool_of, IsValid};

    ghost Value = { Pool };

    ghost coded = { pool_code };

    ghost view = { λ p. pool_of p.stack p.first };

    ghost invariant = { λ p. IsValid p.stack p.first };
}

impl PagePool {
    /// Makes a pool of the pages 0 to n - 1, all free; page 0 is taken first. Only this call
    /// allocates. It fails with `OutOfMemory` if the allocation fails.
    pub fn new(alloc: Global, n: u32) -> Result<PagePool, OutOfMemory>
        ensures pool { IfOk result (λ p. p ≡ record { pages = n; free = range_with_len 0 n }) }
        ensures kept { IfOk result (λ p. IsPool p) }
    {
        match numbers_below(alloc, n) {
            Ok(pages) => Ok(PagePool {
                stack: Cells::new(pages),
                first: 0,
            }),
            Err(_) => Err(OutOfMemory),
        }
    }

    /// The memory that a new pool of `n` pages asks for.
    pub fn bytes_needed(n: u32) -> BytesNeeded
        ensures { result ≡ pool_bytes n }
    {
        BytesNeeded::block(4 * u64::from(n))
    }

    /// How many free pages the pool has.
    pub fn left(&self) -> u32
        ensures len { result ≡ length self.now.free }
        ensures kept { IsPool self.now }
    {
        (self.stack.len() - self.first) as u32
    }

    /// Removes the first free page from the pool and returns it; none if no page is free, and then
    /// nothing changes. Costs one step.
    pub fn take(&mut self, steps: &mut Steps) -> Option<u32>
        ensures taken { TakesFront self.old result self.new }
        ensures steps { RoseBy steps.old steps.new 1 }
        ensures kept { IsPool self.new }
    {
        if self.first == self.stack.len() {
            steps.tick(1); // finding that no page is free
            return None;
        }
        let page = self.stack.get(self.first, steps);
        self.first += 1;
        Some(page)
    }

    /// Adds `page`, which must be a page of the region and not free, to the free pages: the next
    /// `take` returns it. Costs one step.
    pub fn give(&mut self, page: u32, steps: &mut Steps)
        requires within { page < self.old.pages }
        requires taken { is_in_pool self.old.free page ≡ false }
        ensures pool { self.new ≡ record self.old { free = page ∷ self.old.free } }
        ensures steps { RoseBy steps.old steps.new 1 }
        ensures kept { IsPool self.new }
    {
        self.first -= 1;
        self.stack.set(self.first, page, steps);
    }
}
