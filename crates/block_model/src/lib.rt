//! The model of a region that is divided into blocks without a gap (a tiling), as in TLSF (2004)
//! and Half-Fit (1995): what a malloc and a free do to the blocks, what they cost in steps, the words
//! that represent the blocks, the free-list rules of TLSF and of Half-Fit, and the order in which the
//! free blocks are used.
#![tactic(auto)]

pub mod costs;
pub mod free_order;
pub mod half_fit;
pub mod laws;
pub mod tlsf;
pub mod worked;
