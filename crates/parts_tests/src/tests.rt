//! Tests of sources, sinks and lines (`devices`), of scripts, of settings and size classes (`tables`), of what heaps
//! and sessions are made of (`parts`), of quotas (`admitted`), of the pages that a program needs (`sized`), and of
//! generated commands (`generated`).
mod admitted;
mod devices;
mod generated;
mod parts;
mod scripts;
mod sized;
mod tables;
