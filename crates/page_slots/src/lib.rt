//! The tables that every heap with pages uses: the size classes, a map of the used slots of each
//! page, lists of the pages of each class, and a pool of free pages. Slots are taken and freed by
//! the rules of Compact-fit (2008). Only `leave_slot` touches objects: it can move one into the
//! slot that is left. Also laws of the order in which pages and slots are used.
#![tactic(auto)]

mod leave;
mod order_laws;
mod page_tables;
mod place;
mod release;
mod take;

pub use leave::LeftSlot;
pub use order_laws::{
    a_freed_slot_follows_the_order, steps_follow_the_order, the_filler_is_next_to_move,
    the_next_slot_is_taken, the_order_is_of_the_arrangement,
};
pub use page_tables::{CLASSES, PageTables};
