//! The steps of single calls of the managers with pages, each worked out by hand. The longest malloc, free and
//! resize reach their bounds: 17, 20 + s and 34 + s + t with the moving manager, and 18, 22 + s + s/2 and
//! 38 + 3(s + t)/2 with the non-moving one, for slots of s and t words.
use super::calls::{Call, Row, first_other};
use cf_model::Manager;
use moving_heap::MovingHeap;
use nonmoving_heap::NonMovingHeap;
use std::test::Fail;
use step_ledger::Meter;

/// Calls on two pages of 64 words with five proxies. Four objects of 176 bytes, in slots of 23 words, or of 24
/// with the non-moving manager, fill both. With that manager an access of a word also takes a step to look up its
/// block; of words of one block, one look-up serves all.
///
/// A malloc reads the entry of its class (1) and the front of the class's list (1). On a free page it takes
/// the page (1), renews its bitmap (2), sets a slot (3) and links the page (4). On a partly full page it
/// takes the lowest free slot (3) and reads how many slots are used (1). If that page is full then, it is
/// unlinked and linked again (8). At last a malloc takes a proxy (2) and writes the header (1, or 2).
///
/// A free reads the proxy (1), the header (1, or 2), the class (1) and the count of the page (1), and returns the
/// proxy (2). If no object moves, it clears the slot (23, or 30), finds the page's list (1), frees the slot (3) and
/// reads how many slots of the page are still used (1). Then it unlinks the page, and links it again (8) or
/// returns it to the pool (5).
///
/// If another object moves into the freed slot, the free finds that object (3), frees its slot (3) and reads
/// how many slots of its page are still used (1). It unlinks the page, which is empty now, and returns it to
/// the pool (5). It reads the object's header (1, or 2), moves the slot's words (23, or 24 with two look-ups for
/// each block), and changes the object's proxy (1).
static CALLS: [Row; 25] = [
    (Call::Room(176), [1, 1]),
    (Call::Malloc(176), [15, 16]),
    // The longest malloc: it fills its page.
    (Call::Malloc(176), [17, 18]),
    (Call::Malloc(176), [15, 16]),
    (Call::Malloc(176), [17, 18]),
    // Refused for space, and for size.
    (Call::Malloc(176), [1, 1]),
    (Call::Malloc(505), [1, 1]),
    // The proxy, the header, and two words, which are in one block; word 128 is past the region's end.
    (Call::Write(0, 4, 8), [4, 6]),
    (Call::Read(0, 4, 8), [4, 6]),
    (Call::Place(0), [1, 1]),
    (Call::Length(0), [2, 3]),
    (Call::Peek(0), [1, 2]),
    (Call::Peek(128), [0, 0]),
    // No object has the number 4.
    (Call::Read(4, 4, 8), [1, 1]),
    (Call::Write(4, 4, 8), [1, 1]),
    // The moving manager has no blocks, and a slot of 24 words has no block 6.
    (Call::Block(0, 5), [0, 5]),
    (Call::Block(0, 6), [0, 4]),
    (Call::Block(4, 0), [0, 1]),
    (Call::Totals, [0, 0]),
    // A full page becomes partly full.
    (Call::Free(0), [42, 50]),
    // An object moves, and the page that it leaves is returned: the longest free.
    (Call::Free(2), [20 + 23, 22 + 24 + 12]),
    (Call::Free(2), [1, 1]),
    (Call::Free(1), [42, 50]),
    // The last object of its page, which is returned.
    (Call::Free(3), [39, 47]),
    (Call::Room(505), [1, 1]),
];

/// Calls on three pages, most of them resizes, between slots of 23 words, two to a page, and slots of 20, three
/// to a page. With the non-moving manager the first have 24 words.
///
/// A resize reads the proxy (1), the class of the new length (1), the header (1, or 2) and its class (1). If the
/// object stays in its slot, it clears the bytes after the new end in the last word (1, or 2), clears the two words
/// after it (2, or 3), and writes the header (1, or 2).
///
/// A resize to another class reads how many slots of the page are used (1), and takes a slot, the last one of
/// its page (13). It copies the 19 words that stay (19, or 29), clears the bytes after the new end in the last of
/// them (1, or 2), and writes the header (1, or 2) and the proxy (1). Then another object moves into the old slot,
/// as in a free, and the page that it leaves is returned (37, or 51).
static RESIZES: [Row; 15] = [
    (Call::Malloc(176), [15, 16]),
    (Call::Malloc(176), [17, 18]),
    (Call::Malloc(176), [15, 16]),
    (Call::Malloc(152), [15, 16]),
    (Call::Malloc(5), [1, 1]),
    (Call::Malloc(152), [9, 10]),
    // In its slot, and back to the old length.
    (Call::Resize(0, 153), [8, 12]),
    (Call::Resize(0, 176), [5, 7]),
    // Refused as unknown, for size, and for space.
    (Call::Resize(5, 8), [1, 1]),
    (Call::Resize(0, 505), [2, 2]),
    (Call::Resize(0, 8), [5, 6]),
    // The longest resize: to another class, with a move into the old slot.
    (Call::Resize(0, 151), [34 + 23 + 20, 38 + 3 * 22]),
    // The new slot, of 4 words, is on the page that has become free. A resize reads as above (5, or 6), takes the
    // slot as a malloc does (11), copies a word (1, or 3), cuts it (1, or 2), and writes the header (1, or 2) and the
    // proxy (1). It clears the old slot (20, or 25) and frees it on a full page (13). Then accesses that pass the
    // object's new end.
    (Call::Resize(0, 5), [53, 63]),
    (Call::Read(0, 4, 8), [2, 3]),
    (Call::Write(0, 4, 8), [2, 3]),
];

// Each call of `CALLS` and `RESIZES` takes exactly its steps, with both managers.
#[test]
fn each_call_takes_its_steps(rt: HostRuntime) -> Result<(), Fail> {
    let mut meter = Meter::new(&rt);
    let mut moving = MovingHeap::closed(rt.alloc());
    let mut other = NonMovingHeap::closed(rt.alloc());
    for (settings, rows) in [
        ([2, 512, 5], CALLS.as_slice()),
        ([3, 512, 5], RESIZES.as_slice()),
    ] {
        assert_eq!(rt;
            first_other(&mut moving, 0, settings, rows, &mut meter),
            None
        );
        assert_eq!(rt;
            first_other(&mut other, 1, settings, rows, &mut meter),
            None
        );
    }
    Ok(())
}
