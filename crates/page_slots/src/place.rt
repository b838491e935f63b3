//! From addresses to slots and back. Addresses count words.
ghost use Rattle.std.specs.Prelude.{◌≡◌, ◌+◌, ◌*◌, ◌^◌, ◌<◌, length};
ghost use Rattle.size_classes.specs.Table.{IsClassTable};
ghost use Rattle.page_slots.specs.Tables.{address_in, slot_at, slots_in};

use size_classes::Classes;

/// In page tables, the number of the slot of class c that holds an address, counted from 0 on the
/// page of the address.
pub(crate) fn slot_of(classes: &Classes, c: u32, address: u32) -> u32
    requires { c < length classes.now.sizes }
    ensures { result ≡ slot_at classes.now c address }
{
    classes.offset_of(address) / classes.slot_words(c)
}

/// In page tables, the address of slot number `slot` of class c on a page. Pages of the class must
/// have this slot, and the page must end below word 2^32.
pub(crate) fn address_of(classes: &Classes, c: u32, page: u32, slot: u32) -> u32
    requires table { IsClassTable classes.now.page_words classes.now.sizes }
    requires class { c < length classes.now.sizes }
    requires slot { slot < slots_in classes.now c }
    requires small { page * classes.now.page_words + classes.now.page_words < 2 ^ 32 }
    ensures { result ≡ address_in classes.now c page slot }
{
    page * classes.page_words() + slot * classes.slot_words(c)
}
