//! What the libraries for C share, whatever their heap: the codes that calls return, the handles
//! that C has, the structures into which calls write, and how a heap whose address C has is opened,
//! lent and closed.
#![tactic(auto)]

mod block;
mod closable;
mod codes;
mod handles;
pub mod laws;
mod lendable;
mod loan;
mod needed;
mod results;
mod sealed;
mod unboxed;

pub use block::HeapBlock;
pub use closable::{ClosableHeap, Openable};
pub use codes::{
    BOUND, BUSY, CLOSED, DONE, ENTRIES, IMAGE, KIND, LENT, LIVE, MEMORY, NONE, NOT_LENT, OPEN,
    PAGE_BYTES, PAGES, PROXIES, PROXY, QUANTUM, RANGE, REGION, SIZE, SPACE, UNKNOWN, VERSION,
    of_access, of_refusal, of_resize, of_setting,
};
pub use handles::Handles;
pub use lendable::LendableHeap;
pub use loan::{Lendable, Loan};
pub use needed::needed_with;
pub use results::{NphClass, NphCounted, NphFreed, NphHeapTotals, NphNeeded, NphResized};
pub use sealed::{Nothing, Sealed};
pub use unboxed::Unboxed;
