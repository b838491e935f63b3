//! Tests of what lies below heaps and sessions: scripts and their generator, sources, sinks and lines, settings and
//! size classes, tables, bitmaps, pools, lists and regions, and the pages that tasks and programs need. They have a
//! crate of their own, since a crate that contains tests is proved twice.
#![tactic(auto)]

#[cfg(test)]
mod tests;
