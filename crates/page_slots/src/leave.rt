//! Leaves the slot of an object that is freed or has moved away: clears it, or moves another object
//! of the same owner there. An owner is a heap, or a task of the heap of tasks.
ghost use Rattle.std.specs.Prelude.{◌≡◌, ◌+◌, is_some};
ghost use Rattle.step_ledger.specs.Counting.{RoseAtMost, RoseBy};
ghost use Rattle.page_model.specs.Order.{word_steps};
ghost use Rattle.proxy_table.specs.Proxies.{AreBelowLimit};
ghost use Rattle.virtual_words.specs.Words.{FitTable, slot_steps};
ghost use Rattle.page_slots.specs.Leaving.{Leaves, MayLeave, leaving_steps, parts};
ghost use Rattle.page_slots.specs.PageTables.{tables_with};
ghost use Rattle.page_slots.specs.Tables.{AreTables, KeepsForeign};

use crate::page_tables::PageTables;
use block_table::BlockTable;
use cf_base::Handle;
use class_lists::ClassLists;
use proxy_table::ProxyTable;
use region::{Header, Region};
use step_ledger::Steps;
use virtual_words::Mapping;

/// A used slot of class `class`, of `words` words, at the address `place`, whose object is freed or
/// has moved away. The header of each object of the slot's owner has the number of the object's
/// handle plus `first`.
#[derive(Clone, Copy)]
pub struct LeftSlot {
    pub class: u32,
    pub place: u32,
    pub words: u32,
    pub first: u32,
}

impl PageTables {
    /// In page tables, clears and frees the slot `s`, and returns none; or, if `moves`, moves there
    /// another object of its class, which the tables choose, and returns this object's handle. For
    /// a move the class must have a partly full page; `MayLeave` has all that is required. The
    /// moved object's proxy gets the new address, and its old slot becomes free. Costs at most 14
    /// steps and one for each word; with a block table 15 and 3/2 for each word.
    #[inline(always)]
    pub fn leave_slot<A: Mapping>(
        &mut self,
        lists: &mut ClassLists,
        proxies: &mut ProxyTable,
        region: &mut Region,
        blocks: &mut Option<BlockTable>,
        s: LeftSlot,
        moves: bool,
        steps: &mut Steps,
    ) -> Option<Handle>
        requires laid { FitTable A.kind blocks.old region.old }
        requires may { MayLeave A.kind (parts A.kind self.old lists.old proxies.old (record { blocks = blocks.old; region = region.old })) s moves }
        ensures moved { is_some result ≡ moves }
        ensures left { Leaves (parts A.kind self.old lists.old proxies.old (record { blocks = blocks.old; region = region.old })) s result
            (parts A.kind self.new lists.new proxies.new (record { blocks = blocks.new; region = region.new })) }
        ensures others { KeepsForeign (tables_with self.old lists.old) (tables_with self.new lists.new) }
        ensures classes { self.new.classes ≡ self.old.classes }
        ensures tables { AreTables self.old.classes (tables_with self.new lists.new) }
        ensures laid { FitTable A.kind blocks.new region.new }
        ensures handles { AreBelowLimit proxies.new }
        ensures most { RoseAtMost steps.old steps.new (13 + word_steps A.kind + slot_steps A.kind s.words) }
        ensures steps { RoseBy steps.old steps.new
            (leaving_steps A.kind (parts A.kind self.old lists.old proxies.old (record { blocks = blocks.old; region = region.old })) s result) }
    {
        if moves {
            let from = self.fill_slot(lists, s.class, steps);
            let header = Header::unpack(A::read(region, blocks, from, steps));
            let other = Handle(header.handle.0 - s.first);
            A::move_slot(region, blocks, from, s.place, s.words, steps);
            proxies.rebind(other, s.place, steps);
            Some(other)
        } else {
            A::clear(region, blocks, s.place, s.words, steps);
            self.drop_slot(lists, s.class, s.place, steps);
            None
        }
    }
}
