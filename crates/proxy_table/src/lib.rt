//! The table from the numbers of objects to their addresses (`ProxyTable`). A move of an object
//! changes its address here and nowhere else.
#![tactic(auto)]

ghost use Rattle.std.specs.Prelude.{◌≡◌, ◌∷◌, ◌<◌, ◌↔◌, IfNone, IfOk, IfSome, IsNone, IsSome, IsTrue, None, Some, if◌then◌else◌, is_some};
ghost use Rattle.std.specs.FinMap as map;
ghost use Rattle.step_ledger.specs.Counting.{RoseBy};
ghost use Rattle.proxy_table.specs.Proxies.{AreBelowLimit, no_proxies, with_place, without_place};
ghost use Rattle.cf_base.specs.Maps.{vacant};
ghost use Rattle.proxy_table.specs.Needed.{proxy_bytes};
ghost use Rattle.proxy_table.specs.Layout.{IsFalling};

use cf_base::{BytesNeeded, Handle, OutOfMemory};
use std::alloc::{AllocError, Global};
use std::marker::Model;
use step_ledger::{Cells, Steps};

/// A finite map from numbers below a limit to addresses in words. A number is live if it has an
/// address, else free. `bind` uses the free number that was released last; in a new table it uses
/// number 0 first.
#[derive(Drop)]
pub struct ProxyTable {
    /// The address of each number; none if it is free.
    places: Cells<Option<u32>>,
    /// The first `left` entries are the free numbers; the last of these is used next.
    free: Cells<u32>,
    /// How many numbers are free.
    left: u32,
}

impl Model for ProxyTable {
    ghost use Rattle.proxy_table.specs.Proxies.{Proxies, proxies_code};

    ghost Value = { Proxies };

    ghost coded = { proxies_code };

    ghost use Rattle.proxy_table.specs.Layout.{proxies_of, IsValid};

    ghost view = { λ t. proxies_of t.places t.free t.left };

    ghost invariant = { λ t. IsValid t.places t.free t.left };
}

impl ProxyTable {
    /// Makes a proxy table of `n` numbers, all free. Only this call allocates. It fails with `OutOfMemory` if an
    /// allocation fails.
    pub fn new(alloc: Global, n: u32) -> Result<ProxyTable, OutOfMemory>
        ensures none { IfOk result (λ table. table ≡ no_proxies n) }
        ensures kept { IfOk result AreBelowLimit }
    {
        let Ok(places) = vacancies(alloc, n) else {
            return Err(OutOfMemory);
        };
        let Ok(free) = falling(alloc, n) else {
            return Err(OutOfMemory);
        };
        Ok(ProxyTable {
            places: Cells::new(places),
            free: Cells::new(free),
            left: n,
        })
    }

    /// The memory that a new proxy table of `n` numbers asks for.
    pub fn bytes_needed(n: u32) -> BytesNeeded
        ensures { result ≡ proxy_bytes n }
    {
        BytesNeeded::block(8 * u64::from(n)).and(BytesNeeded::block(4 * u64::from(n)))
    }

    /// How many numbers are live in the table.
    pub fn live(&self) -> u32
        ensures count { result ≡ map.len self.now.places }
        ensures kept { AreBelowLimit self.now }
    {
        self.places.len() as u32 - self.left
    }

    /// Returns whether every number of the proxy table is live.
    pub fn is_full(&self) -> bool
        ensures value { IsTrue result ↔ (map.len self.now.places ≡ self.now.limit) }
        ensures kept { AreBelowLimit self.now }
    {
        self.left == 0
    }

    /// Returns the address of the table's number `h`; none if `h` isn't live. Costs one step.
    pub fn lookup(&self, h: Handle, steps: &mut Steps) -> Option<u32>
        ensures found { result ≡ map.get self.now.places h.0 }
        ensures kept { AreBelowLimit self.now }
        ensures steps { RoseBy steps.old steps.new 1 }
    {
        let number = h.0 as usize;
        if number < self.places.len() {
            self.places.get(number, steps)
        } else {
            steps.tick(1); // finding that there is no such number
            None
        }
    }

    /// Gives the table's first free number the address `addr`, which makes it live, and returns the number; none if
    /// every number is live, and then nothing changes. Costs two steps, or one if it returns none.
    pub fn bind(&mut self, addr: u32, steps: &mut Steps) -> Option<Handle>
        ensures none { IsNone result ↔ (map.len self.old.places ≡ self.old.limit) }
        ensures fresh { IfSome result (λ h. map.get self.old.places h.0 ≡ None) }
        ensures within { IfSome result (λ h. h.0 < self.old.limit) }

        ensures full { IfNone result (self.new ≡ self.old) }
        ensures first { IfSome result (λ h. self.old.free ≡ h.0 ∷ self.new.free) }
        ensures places { IfSome result (λ h. self.new ≡ with_place self.old h.0 addr) }
        ensures live { IfSome result (λ h. map.get self.new.places h.0 ≡ Some addr) }
        ensures kept { AreBelowLimit self.new }

        ensures steps { RoseBy steps.old steps.new (if is_some result then 2 else 1) }
    {
        if self.left == 0 {
            steps.tick(1); // finding that no number is free
            return None;
        }
        self.left -= 1;
        let number = self.free.get(self.left as usize, steps);
        self.places.set(number as usize, Some(addr), steps);
        Some(Handle(number))
    }

    /// Changes the address of the table's number `h`, which must be live, to `addr`. Costs one step.
    pub fn rebind(&mut self, h: Handle, addr: u32, steps: &mut Steps)
        requires live { IsSome (map.get self.old.places h.0) }
        ensures places { self.new ≡ with_place self.old h.0 addr }
        ensures free { self.new.free ≡ self.old.free }
        ensures kept { AreBelowLimit self.new }
        ensures steps { RoseBy steps.old steps.new 1 }
    {
        self.places.set(h.0 as usize, Some(addr), steps);
    }

    /// Makes the table's number `h`, which must be live, free; the next `bind` uses it. Costs two steps.
    pub fn release(&mut self, h: Handle, steps: &mut Steps)
        requires live { IsSome (map.get self.old.places h.0) }
        ensures places { self.new ≡ without_place self.old h.0 }
        ensures kept { AreBelowLimit self.new }
        ensures steps { RoseBy steps.old steps.new 2 }
    {
        self.places.set(h.0 as usize, None, steps);
        self.free.set(self.left as usize, h.0, steps);
        self.left += 1;
    }
}

/// Returns a list of `n` proxy entries without an address. Fails if the allocation fails.
fn vacancies(alloc: Global, n: u32) -> Result<Vec<Option<u32>>, AllocError>
    ensures { IfOk result (λ places. places.items ≡ vacant n) }
{
    vec![in alloc; None; n as usize]
}

/// For a proxy table, returns the numbers below `n`, the greatest first. Fails if the allocation
/// fails.
fn falling(alloc: Global, n: u32) -> Result<Vec<u32>, AllocError>
    ensures { IfOk result (λ numbers. IsFalling n numbers.items) }
{
    let mut numbers = Vec::with_capacity(alloc, n as usize)?;
    for i in 0..n {
        numbers.push(n - 1 - i)?;
    }
    Ok(numbers)
}
