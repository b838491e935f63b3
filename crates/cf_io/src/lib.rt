//! Sources and sinks of bytes, over readers and writers of std and in memory; the line of a reply, which is
//! built in a buffer and then written as a whole; and decimal numbers in text.
#![tactic(auto)]

mod devices;
mod line;
mod numbers;
mod reply_line;
mod schedule;
mod sink;
mod sinks;
mod source;
mod sources;
mod writing;

pub use devices::{StdSink, StdSource};
pub use line::{Full, LINE_CAPACITY, Line};
pub use numbers::{leading_number, number_of};
pub use reply_line::{MOST_LEAD, begin_line, push_field, push_text, put_line};
pub use sink::Sink;
pub use sinks::{MemSink, NullSink};
pub use source::Source;
pub use sources::{LoopSource, MemSource, SureSource};
pub use writing::put_all;
