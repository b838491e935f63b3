//! The reports of commands `walk` and `frag`: how a heap uses its pages or blocks, and how many
//! bytes its objects asked for, their slots or blocks take, and its pages in use or its region
//! hold. Sessions write them line by line to a sink.
#![tactic(auto)]

mod reports;

pub use reports::{frag_line, put_class, put_total, walk_lines};
