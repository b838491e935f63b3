//! The size classes of a heap's pages as a table (`Classes`): the words of a slot of each class,
//! the class of an object by its length, and the page of a word of the region.
#![tactic(auto)]

mod needs;
mod table;

pub use table::Classes;
