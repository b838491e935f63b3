//! Arguments and results of the calls that set a task's quota, or test whether a quota is enough
//! for the objects that the task declares.

/// Why a new quota for a task is refused. The causes are tested in this order, and the first that
/// holds is returned.
#[derive(Clone, Copy, Debug, PartialEq, Eq)]
pub enum QuotaFault {
    /// With the new quota, the quotas of all tasks would sum to more pages than the region has.
    Sum,
    /// The task already uses more pages than the new quota has.
    Used,
}

/// One entry of what a task declares before it runs: at any time, at most `count` of its live
/// objects have `bytes` bytes. Entries of the same length add up.
#[repr(C)]
#[derive(Clone, Copy, Debug, PartialEq, Eq)]
pub struct Need {
    pub bytes: u32,
    pub count: u32,
}

/// The result of the test whether a quota is enough for a task, whatever it allocates and frees
/// within the numbers that it declares.
#[derive(Clone, Copy, Debug, PartialEq, Eq)]
pub enum Admission {
    /// The quota is enough: no malloc within the declared numbers is refused for space.
    Yes,
    /// The quota is not enough. If the declared objects are allocated in the order of the entries,
    /// the `nth` malloc, counted from 1, is the first that is refused for space.
    No { nth: u32 },
    /// The length of entry number `entry`, counted from 0, doesn't fit a page with a header of 8
    /// bytes; it is the first such entry. An entry of count 0 is tested too.
    Size { entry: u32 },
    /// The task declares more objects in all than it has proxies.
    Proxies,
}
