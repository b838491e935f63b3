//! A session: it maps a script's ids to the objects of one manager, does the script's commands on that manager,
//! and writes their replies. The sessions of other modes use its short replies too.
#![tactic(auto)]

mod changes;
mod dispatch;
mod namer;
mod outcome;
mod queries;
mod records;
mod reply;
mod session;
mod short;

pub use outcome::Outcome;
pub use reply::ended;
pub use session::Session;
pub use short::{Short, fault_reply, push_bytes, push_short, refusal_reply};
