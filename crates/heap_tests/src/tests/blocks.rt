//! The steps of single calls of TLSF and Half-Fit, each worked out by hand. The longest malloc and free reach their
//! bounds: 25, and 41 plus the words of the block.
use super::calls::{Call, Row, first_other};
use cf_model::Manager;
use half_fit_heap::HalfFitHeap;
use std::test::Fail;
use step_ledger::Meter;
use tlsf_heap::TlsfHeap;

/// The longest malloc of TLSF, which finds a list by bitmaps, in groups of 16 lists. The region has 1,024 words.
/// 104 bytes need 15 words. List 15, the last of its group, is empty, so the next group is searched. The list that
/// is found has the two freed blocks of 17 words; one is taken, and the other becomes the head. The two words that
/// are over go into a list that already has a block, that of object 4.
///
/// A malloc finds a list (1, or 3 if it is in another group), reads its head (1), and takes a proxy (2). It reads the
/// block's header and link (2). It makes the next block the head of the list, or marks the list empty (3), and changes
/// the link of a next block (2). It writes the block's header and tag (2). If words are over, it writes their header
/// (1), and their size into the header after them, if there is one (2). Then it links them (5, or 7 into a list that
/// has a block).
static LONG_IN_TLSF: [Row; 10] = [
    (Call::Malloc(120), [19, 17]),
    (Call::Malloc(0), [19, 17]),
    (Call::Malloc(120), [19, 17]),
    (Call::Malloc(0), [19, 17]),
    (Call::Malloc(0), [19, 17]),
    (Call::Malloc(0), [19, 17]),
    (Call::Free(0), [29, 29]),
    (Call::Free(2), [32, 32]),
    (Call::Free(4), [15, 15]),
    (Call::Malloc(104), [25, 23]),
];

/// The longest malloc of Half-Fit. Each of the eight objects takes 16,385 of 262,144 words. Five of them, freed,
/// are one free block of 81,925 words, and 131,064 words are free behind the last object. These two free blocks
/// are in list 16, the first of the second group. The malloc takes two words of one of them, and what is over
/// goes into the same list.
static LONG_IN_HALF_FIT: [Row; 14] = [
    (Call::Malloc(131_064), [19, 19]),
    (Call::Malloc(131_064), [19, 19]),
    (Call::Malloc(131_064), [19, 19]),
    (Call::Malloc(131_064), [19, 19]),
    (Call::Malloc(131_064), [19, 19]),
    (Call::Malloc(131_064), [19, 19]),
    (Call::Malloc(131_064), [19, 19]),
    (Call::Malloc(131_064), [19, 19]),
    (Call::Free(0), [16_397, 16_397]),
    (Call::Free(1), [16_409, 16_409]),
    (Call::Free(2), [16_409, 16_409]),
    (Call::Free(3), [16_409, 16_411]),
    (Call::Free(4), [16_409, 16_413]),
    (Call::Malloc(0), [21, 25]),
];

/// The longest free: a block of 20 words between two free blocks of 4, which are the first two of the three in
/// their list. They become one of 28 words, whose list has a block already. Then the other calls, on an object of 20
/// bytes: an access takes the proxy (1), the header (1), and a step for each word that holds one of the bytes. A
/// resize is always refused. The totals look for the largest free block through its list (3, and 2 for each block).
static OTHERS: [Row; 30] = [
    (Call::Malloc(16), [19, 17]),
    (Call::Malloc(0), [19, 17]),
    (Call::Malloc(16), [19, 17]),
    (Call::Malloc(144), [19, 17]),
    (Call::Malloc(16), [19, 17]),
    (Call::Malloc(0), [19, 17]),
    (Call::Malloc(208), [19, 17]),
    (Call::Malloc(0), [19, 17]),
    (Call::Free(0), [16, 16]),
    (Call::Free(2), [19, 19]),
    (Call::Free(4), [19, 19]),
    (Call::Free(6), [41, 41]),
    (Call::Free(3), [41 + 20, 41 + 20]),
    (Call::Free(3), [1, 1]),
    (Call::Totals, [3 + 2, 3 + 2]),
    (Call::Malloc(20), [23, 23]),
    // Bytes in three words; no bytes, at the start of a word and in the middle of one; past the end; no object.
    (Call::Read(3, 4, 16), [2 + 3, 2 + 3]),
    (Call::Read(3, 8, 0), [2, 2]),
    (Call::Read(3, 4, 0), [2, 2]),
    (Call::Read(3, 5, 16), [2, 2]),
    (Call::Read(0, 0, 1), [1, 1]),
    (Call::Write(3, 4, 16), [2 + 3, 2 + 3]),
    (Call::Write(3, 4, 0), [2, 2]),
    (Call::Write(3, 5, 16), [2, 2]),
    (Call::Write(0, 0, 1), [1, 1]),
    (Call::Resize(3, 8), [1, 1]),
    (Call::Resize(0, 8), [1, 1]),
    (Call::Place(3), [1, 1]),
    (Call::Peek(1_023), [1, 1]),
    (Call::Peek(1_024), [0, 0]),
];

/// Mallocs on one page of 64 words with two proxies, each after `has_room`. 505 bytes fit no page. 472 bytes need a
/// block of 61 words, which leaves a free block of 3; only TLSF's search for it takes four steps, since it begins
/// at list 47, the last of its group, and finds the block of 64 words in list 48. 100 bytes need 15 words, and no
/// block has them. 0 bytes need 2 words, and get the block of 3. The last malloc finds no free proxy. Then look-ups of
/// lengths.
static REFUSED: [Row; 13] = [
    (Call::Room(505), [0, 0]),
    (Call::Malloc(505), [0, 0]),
    (Call::Room(472), [4, 2]),
    (Call::Malloc(472), [19, 17]),
    (Call::Room(100), [2, 2]),
    (Call::Malloc(100), [2, 2]),
    (Call::Room(0), [2, 2]),
    (Call::Malloc(0), [11, 11]),
    (Call::Room(0), [0, 0]),
    (Call::Malloc(0), [0, 0]),
    (Call::Length(0), [2, 2]),
    (Call::Length(1), [2, 2]),
    (Call::Length(2), [1, 1]),
];

/// Three free blocks of 20 words, the largest ones, in one list.
static LARGEST: [Row; 7] = [
    (Call::Malloc(144), [19, 17]),
    (Call::Malloc(0), [19, 17]),
    (Call::Malloc(144), [19, 17]),
    (Call::Malloc(0), [19, 17]),
    (Call::Free(0), [34, 34]),
    (Call::Free(2), [35, 35]),
    (Call::Totals, [3 + 2 * 3, 3 + 2 * 3]),
];

// Each call of the lists takes exactly its steps, with TLSF and with Half-Fit.
#[test]
fn each_call_takes_its_steps(rt: HostRuntime) -> Result<(), Fail> {
    let mut meter = Meter::new(&rt);
    let mut tlsf = TlsfHeap::closed(rt.alloc());
    let mut half = HalfFitHeap::closed(rt.alloc());
    for (settings, rows) in [
        ([16, 512, 16], LONG_IN_TLSF.as_slice()),
        ([16, 131_072, 16], LONG_IN_HALF_FIT.as_slice()),
        ([16, 512, 16], OTHERS.as_slice()),
        ([1, 512, 2], REFUSED.as_slice()),
        ([1, 512, 16], LARGEST.as_slice()),
    ] {
        assert_eq!(rt; first_other(&mut tlsf, 0, settings, rows, &mut meter), None);
        assert_eq!(rt; first_other(&mut half, 1, settings, rows, &mut meter), None);
    }
    Ok(())
}
