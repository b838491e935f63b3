//! Tests of `cf_base`, and of `Classes` of `size_classes`, against tables that were worked out by hand: the slot
//! sizes of pages and the classes of objects, the faults of settings in their order, the names of the kinds, and the
//! exit statuses.
use cf_base::{Kind, Layout, SettingFault, Settings, Status, class_in, need_of, slot_sizes};
use size_classes::Classes;
use std::test::Fail;

/// The slot sizes of a page of 64 words, in words: from 4 on, each nine eighths of the one before, rounded
/// up, and at last the page.
const WORDS_OF_64: [u32; 20] = [
    4, 5, 6, 7, 8, 9, 11, 13, 15, 17, 20, 23, 26, 30, 34, 39, 44, 50, 57, 64,
];

/// The slot sizes of the non-moving manager for a page of 64 words, in words: by the same rule in blocks of four
/// words, from 1 block on.
const BLOCKS_OF_64: [u32; 13] = [4, 8, 12, 16, 20, 24, 28, 32, 36, 44, 52, 60, 64];

// `slot_sizes` returns the sizes of the tables above; a page of 16,384 words has 67 classes, or 58 with blocks. The
// same classes are in `Classes`. `need_of` returns the words of an object with its header, and `class_in` the index
// of the smallest size that holds it: 24 bytes need 4 words, 504 bytes a page of 64 words.
#[test]
fn sizes_and_classes_are_those_of_the_tables(rt: HostRuntime) -> Result<(), Fail> {
    let alloc = rt.alloc();
    let words = slot_sizes(alloc, 64, Layout::Words)?;
    let blocks = slot_sizes(alloc, 64, Layout::Blocks)?;
    assert_eq!(rt; words.as_slice(), WORDS_OF_64.as_slice());
    assert_eq!(rt; blocks.as_slice(), BLOCKS_OF_64.as_slice());
    let most = [
        Classes::new(alloc, 16_384, Layout::Words)?.len(),
        Classes::new(alloc, 16_384, Layout::Blocks)?.len(),
    ];
    assert_eq!(rt; most, [67, 58]);
    // the bytes of an object, the words that it needs, its class if slot sizes are in words, and if in blocks
    for (bytes, need, words_class, blocks_class) in [
        (0, 1, Some(0), Some(0)),
        (24, 4, Some(0), Some(0)),
        (25, 5, Some(1), Some(1)),
        (176, 23, Some(11), Some(5)),
        (504, 64, Some(19), Some(12)),
        (505, 65, None, None),
        (u32::MAX, 536_870_913, None, None),
    ] {
        assert_eq!(rt; need_of(bytes), need, "words for {bytes} bytes");
        assert_eq!(rt;
            class_in(&words, bytes),
            words_class,
            "class of {bytes} bytes"
        );
        assert_eq!(rt;
            class_in(&blocks, bytes),
            blocks_class,
            "class of {bytes} bytes in blocks"
        );
    }
    Ok(())
}

// `Settings::check` fails with the first setting that is out of range. The order is: pages, page bytes,
// bound, proxies, and the size of the region, at most 64 MiB. If all are in range, it returns them, with
// the size of a page in words. `Kind::name` returns the name of each kind on the command line, and
// `Status::code` the exit status for each `Status`.
#[test]
fn settings_names_and_statuses_are_those_of_the_tables(rt: HostRuntime) {
    for (pages, page_bytes, k, proxies, fault) in [
        (0, 500, 0, 0, Some(SettingFault::Pages)),
        (4097, 512, 1, 1, Some(SettingFault::Pages)),
        (1, 500, 0, 0, Some(SettingFault::PageBytes)),
        (1, 256, 1, 1, Some(SettingFault::PageBytes)),
        (1, 513, 1, 1, Some(SettingFault::PageBytes)),
        (1, 262_144, 1, 1, Some(SettingFault::PageBytes)),
        (1, 512, 0, 0, Some(SettingFault::Bound)),
        (1, 512, 65, 1, Some(SettingFault::Bound)),
        (1, 512, 1, 0, Some(SettingFault::Proxies)),
        (1, 512, 1, 65_537, Some(SettingFault::Proxies)),
        (4096, 32_768, 1, 4, Some(SettingFault::Region)),
        (2048, 32_768, 1, 4, None),
        (1, 512, 1, 1, None),
        (4096, 16_384, 64, 65_536, None),
        (1, 131_072, 1, 4, None),
    ] {
        let checked = Settings::check(pages, page_bytes, k, proxies);
        assert_eq!(rt; checked.err(), fault, "{pages} {page_bytes} {k} {proxies}");
        if let Ok(s) = checked {
            assert_eq!(rt; (s.pages, s.k, s.proxies), (pages, k, proxies));
            assert_eq!(rt; s.page_words, page_bytes / 8);
        }
    }
    for (kind, name) in [
        (Kind::Moving, "cf"),
        (Kind::NonMoving, "nm"),
        (Kind::Tlsf, "tlsf"),
        (Kind::HalfFit, "half"),
    ] {
        assert_eq!(rt; kind.name(), name);
    }
    for (status, code) in [
        (Status::Done, 0),
        (Status::Words, 2),
        (Status::BadScript, 3),
        (Status::ReadFault, 4),
        (Status::WriteFault, 5),
        (Status::OutOfMemory, 6),
        (Status::TooLong, 7),
        (Status::BadImage, 8),
    ] {
        assert_eq!(rt; status.code(), code, "status {status:?}");
    }
}
