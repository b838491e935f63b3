//! The table from ids to the handles of their objects.
ghost use Rattle.std.specs.Prelude.{◌≡◌, ◌↔◌, IfOk, IsTrue, option_map};
ghost use Rattle.std.specs.FinMap as map;
ghost use Rattle.cf_base.specs.declared.results.Handle.{Handle as AHandle};
ghost use Rattle.id_table.specs.Ids.{AreWithin};
ghost use Rattle.cf_base.specs.Maps.{vacant};

use cf_base::{Handle, OutOfMemory};
use std::alloc::{AllocError, Global};
use std::marker::Model;

/// How many ids there are: the numbers of 16 bits.
const IDS: usize = 65_536;

/// The live ids, each with the handle of its object: a finite map from the ids 0 to 65,535 to the
/// numbers of handles. `numbers` has an entry for each id, `live` counts those with a handle.
#[derive(Drop)]
pub struct IdTable {
    numbers: Vec<Option<u32>>,
    live: u32,
}

impl Model for IdTable {
    ghost use Rattle.cf_base.specs.Maps.{numbered};
    ghost use Rattle.id_table.specs.Ids.{Ids, ids_code};
    ghost use Rattle.id_table.specs.Layout.{IsValid};

    ghost Value = { Ids };

    ghost coded = { ids_code };

    ghost view = { λ t. numbered 0 t.numbers.items };

    ghost invariant = { λ t. IsValid t.numbers.items t.live };
}

impl IdTable {
    /// A table without live ids. Only this call allocates; it fails only if memory runs out.
    pub fn new(alloc: Global) -> Result<IdTable, OutOfMemory>
        ensures { IfOk result (λ ids. ids ≡ map.empty) }
    {
        match vacancies(alloc, IDS) {
            Ok(numbers) => Ok(IdTable { numbers, live: 0 }),
            Err(_) => Err(OutOfMemory),
        }
    }

    /// How many ids are live in the table, at most 65,536.
    pub fn live(&self) -> u32
        ensures count { result ≡ map.len self.now }
        ensures kept { AreWithin self.now }
    {
        self.live
    }

    /// Whether no id is live in the table.
    pub fn is_empty(&self) -> bool
        ensures { IsTrue result ↔ (self.now ≡ map.empty) }
    {
        self.live == 0
    }

    /// In an `IdTable`, the handle of the object with this id; none if the id isn't live.
    pub fn handle(&self, id: u16) -> Option<Handle>
        ensures found { option_map (λ (h : AHandle). h.0) result ≡ map.get self.now id }
        ensures kept { AreWithin self.now }
    {
        match self.numbers[id as usize] {
            Some(number) => Some(Handle(number)),
            None => None,
        }
    }

    /// In an `IdTable`, makes `h` the handle of an id, in place of its old handle, if it had one.
    /// The id is live then.
    pub fn bind(&mut self, id: u16, h: Handle)
        ensures { self.new ≡ map.insert self.old id h.0 }
    {
        let fresh = self.numbers[id as usize].is_none();
        self.live += fresh as u32;
        self.numbers[id as usize] = Some(h.0);
    }

    /// In an `IdTable`, removes the handle of an id, if it has one. The id isn't live then.
    pub fn unbind(&mut self, id: u16)
        ensures { self.new ≡ map.remove self.old id }
    {
        let gone = self.numbers[id as usize].is_some();
        self.live -= gone as u32;
        self.numbers[id as usize] = None;
    }
}

/// The entries of n ids without a handle, each `None`. Fails only if memory runs out.
fn vacancies(alloc: Global, n: usize) -> Result<Vec<Option<u32>>, AllocError>
    ensures { IfOk result (λ numbers. numbers.items ≡ vacant n) }
{
    vec![in alloc; None; n]
}
