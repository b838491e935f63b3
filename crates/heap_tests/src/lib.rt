//! Tests of the managers, of the sliced heap, of the heap of tasks, of long objects, of heap images, and of the crate
//! `library_example`. They have a crate of their own, since a crate with tests is proved twice.
#![tactic(auto)]

#[cfg(test)]
mod tests;
