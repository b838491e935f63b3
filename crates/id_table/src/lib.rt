//! The table from ids to the handles of objects (`IdTable`), the counters of a session
//! (`Counters`), and the trait of what names the objects of a manager by ids (`Namer`).
#![tactic(auto)]

mod counters;
mod ids;
mod namer;

pub use counters::Counters;
pub use ids::IdTable;
pub use namer::Namer;
