//! The structure into which a call writes the figures of a task for a caller in C. The header `norphuen.h` declares the same
//! type.

/// The figures of a task: the most pages that it may use (`quota`), how many pages hold its objects, and how many objects are
/// live.
#[repr(C)]
#[derive(Clone, Copy, Drop)]
pub struct NphTask {
    pub quota: u32,
    pub pages: u32,
    pub live: u32,
}
