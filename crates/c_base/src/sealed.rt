//! What C sees in place of a heap. An export takes no type parameters, and no type that holds or
//! points to a cell of a table. So each library has structs of its own for C, which lie in memory
//! as a `LendableHeap`, a `ClosableHeap` or a `HeapBlock` does; some of their fields have the types
//! here.

/// The type that C sees at the address of an open heap, in place of the heap's type. Only the library uses the
/// bytes there.
#[repr(C)]
#[derive(Drop)]
pub struct Sealed {
    seal: u8,
}

/// A type of no bytes, for a field that only names types.
#[repr(C)]
#[derive(Drop)]
pub struct Nothing {}
