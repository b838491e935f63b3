//! Why a call of the sliced heap is refused: the causes for a malloc and those for a free.

/// Why a malloc is refused. The causes are tested in this order, and the first that holds is
/// returned.
#[derive(Clone, Copy, Debug, PartialEq, Eq)]
pub enum SliceRefusal {
    /// The object with its header is larger than a page.
    Size,
    /// Every proxy is in use.
    Proxy,
    /// The heap has too few pages for its objects and the new one: for each class the number of
    /// objects is divided by the slots of a page and rounded up, and the sum exceeds the pages.
    Space,
    /// By that sum the pages are enough. But the slot of the pending job counts as used, and no
    /// other slot is left for the object.
    Busy,
}

/// Why a free is refused. The causes are tested in this order, and the first that holds is
/// returned.
#[derive(Clone, Copy, Debug, PartialEq, Eq)]
pub enum SliceFault {
    /// No live object has this handle.
    Unknown,
    /// The object is live, but the job that an earlier free left is still pending.
    Busy,
}
