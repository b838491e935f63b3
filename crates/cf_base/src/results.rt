//! The results, the errors and the figures that the calls of a manager return, and the error of a
//! source or sink.

/// What a malloc returns: the number of the object's proxy. It stays the same when the object
/// moves. After a free a later malloc may return it again, so a caller must not use the handle of
/// a freed object.
#[derive(Clone, Copy, Debug, PartialEq, Eq)]
pub struct Handle(pub u32);

/// Why a malloc was refused, in the order in which the causes are tested.
#[derive(Clone, Copy, Debug, PartialEq, Eq)]
pub enum Refusal {
    /// The object with its header is larger than a page. With long objects: its spine would be.
    Size,
    /// Every proxy is in use. With quotas: every proxy of the task. With long objects: too few
    /// proxies are unused.
    Proxy,
    /// With pages: the class has no free slot, and no page is free. With quotas: the task would
    /// need more pages than its quota. With long objects: the objects would need more pages than
    /// there are. With blocks: every free list that a malloc of this size searches is empty.
    Space,
}

/// Why a read or a write was refused.
#[derive(Clone, Copy, Debug, PartialEq, Eq)]
pub enum AccessFault {
    /// The handle isn't live.
    Unknown,
    /// The range passes the end of the object.
    Range,
}

/// Why a resize was refused, in the order in which the causes are tested.
#[derive(Clone, Copy, Debug, PartialEq, Eq)]
pub enum ResizeFault {
    /// The handle isn't live.
    Unknown,
    /// This kind of manager doesn't resize.
    Kind,
    /// The object with its header would be larger than a page.
    Size,
    /// The new class has no free slot, and no page is free.
    Space,
}

/// The error of a call whose handle isn't live: no object has it.
#[derive(Clone, Copy, Debug, PartialEq, Eq)]
pub struct NotLive;

/// The error of a call that could not allocate.
#[derive(Clone, Copy, Debug, PartialEq, Eq)]
pub struct OutOfMemory;

/// The error of a failed call of a source or sink. It carries no cause.
#[derive(Clone, Copy, Debug, PartialEq, Eq)]
pub struct Failed;

/// The result of a free: how many words the freed slot or block has, and the handle of the object
/// that moved into it, if one did.
#[derive(Clone, Copy, Debug, PartialEq, Eq)]
pub struct Freed {
    pub slot_words: u32,
    pub moved: Option<Handle>,
}

/// The result of a resize: how many words the object's slot had before and has after, and the
/// handle of the other object that moved into the old slot, if one did.
#[derive(Clone, Copy, Debug, PartialEq, Eq)]
pub struct Resized {
    pub old_slot_words: u32,
    pub slot_words: u32,
    pub moved: Option<Handle>,
}

/// The figures of one size class: words per slot, slots per page, live objects, pages that hold
/// them, and how many of these pages are partly full.
#[derive(Clone, Copy, Debug, PartialEq, Eq)]
pub struct Figures {
    pub slot_words: u32,
    pub slots: u32,
    pub live: u32,
    pub pages: u32,
    pub not_full: u32,
}

/// The figures of the whole heap. `asked` is the bytes requested for the `live` objects.
///
/// With pages: `taken` is the bytes of the objects' slots, `held` those of the pages in use. `used`
/// and `free` count pages. `largest` is the words of a page if one is free, else 0. With blocks:
/// `taken` is the bytes of the used blocks, `held` those of the region. `used` and `free` count
/// blocks. `largest` is the words of the largest free block, 0 if there is none.
#[derive(Clone, Copy, Debug, PartialEq, Eq)]
pub struct Totals {
    pub live: u32,
    pub asked: u64,
    pub taken: u64,
    pub held: u64,
    pub used: u32,
    pub free: u32,
    pub largest: u32,
}
