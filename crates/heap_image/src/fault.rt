//! The error that `load` returns: the source failed, its bytes are no image, or memory ran out.

/// Why `load` failed.
#[derive(Clone, Copy, Debug, PartialEq, Eq)]
pub enum LoadFault {
    /// The source failed.
    Read,
    /// The bytes aren't an image. `at` is an offset in bytes from the start of the image: that of the first
    /// field that breaks a rule or is cut by the end, or of the first byte past the image.
    Bad { at: u64 },
    /// Out of memory when the heap was opened.
    OutOfMemory,
}
