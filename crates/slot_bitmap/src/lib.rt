//! The used and the free slots of a page (`SlotMap`), or of all pages of a heap (`SlotMaps`), as
//! bits in two levels of words. Finding the lowest free slot of a page or its lowest used one reads
//! at most one word of each level.
#![tactic(auto)]

mod bits;
mod page_summary;
mod slot_map;
mod slot_maps;

pub use slot_map::SlotMap;
pub use slot_maps::SlotMaps;
