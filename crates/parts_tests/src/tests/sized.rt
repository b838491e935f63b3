//! Tests of `least_pages`, `pages_with_mode`, `is_certified` and `are_budget_levels` against numbers worked out by
//! hand.
use cf_base::{Layout, Settings};
use sizing::{
    CLASSES, ENTRIES, ModeNeeds, Need, PointPages, are_budget_levels, is_certified, least_pages,
    pages_with_mode,
};
use std::test::Fail;

/// The need of `count` objects of `bytes` bytes.
fn need(bytes: u32, count: u32) -> Need {
    Need { bytes, count }
}

// A page has 64 words, of which an object takes one for its header. The 176 bytes of an object need 23
// words. Slots of 23 words, or of 6 blocks, are 2 to a page. 24 and 20 bytes need 4 words, one block: 16
// to a page. 32 bytes need 5 words and 40 bytes 6: slots of 5 and of 6 words are 12 and 10 to a page, but
// both need 2 blocks, 8 to a page. 504 bytes fill a page, 505 need more. And 21 objects are more than the
// proxies.
#[test]
fn each_class_needs_its_own_pages(rt: HostRuntime) -> Result<(), Fail> {
    let Ok(s) = Settings::check(1, 512, 1, 20) else {
        panic!(rt; "the settings are in range");
    };
    let none: [Need; 0] = [];
    let words = [
        least_pages(&s, Layout::Words, &none),
        least_pages(&s, Layout::Words, &[need(24, 16)]),
        least_pages(&s, Layout::Words, &[need(24, 10), need(20, 7)]),
        least_pages(&s, Layout::Words, &[need(32, 9), need(40, 8)]),
        least_pages(&s, Layout::Words, &[need(176, 3), need(504, 2)]),
        least_pages(&s, Layout::Words, &[need(24, 21)]),
        least_pages(&s, Layout::Words, &[need(505, 0)]),
    ];
    let blocks = [
        least_pages(&s, Layout::Blocks, &[need(24, 10), need(20, 7)]),
        least_pages(&s, Layout::Blocks, &[need(32, 9), need(40, 8)]),
        least_pages(&s, Layout::Blocks, &[need(176, 3), need(504, 2)]),
    ];
    assert_eq!(rt;
        words,
        [Some(0), Some(1), Some(2), Some(2), Some(4), None, None],
        "words"
    );
    assert_eq!(rt; blocks, [Some(2), Some(3), Some(4)], "blocks");
    Ok(())
}

// The modes are start, with 17 objects of 24 bytes; work, with 3 of 176 bytes and one of a page; and
// stop, with one of 40 bytes. They need 2, 3 and 1 pages, so 3 serve them all. A mode with 21 objects has
// more than the 20 proxies.
#[test]
fn the_greatest_mode_counts(rt: HostRuntime) -> Result<(), Fail> {
    let Ok(s) = Settings::check(1, 512, 1, 20) else {
        panic!(rt; "the settings are in range");
    };
    let pages = [
        pages_with_mode(&s, Layout::Words, 0, &[need(24, 17)]),
        pages_with_mode(&s, Layout::Words, 2, &[need(176, 3), need(504, 1)]),
        pages_with_mode(&s, Layout::Words, 3, &[need(40, 1)]),
        pages_with_mode(&s, Layout::Words, 3, &[need(24, 21)]),
    ];
    assert_eq!(rt; pages, [Some(2), Some(3), Some(3), None], "modes");
    Ok(())
}

/// A mode with these needs, at most `ENTRIES`; its other entries have no objects.
fn mode(needs: &[Need]) -> ModeNeeds {
    let mut mode = ModeNeeds {
        needs: [need(0, 0); ENTRIES],
    };
    for i in 0..needs.len().min(ENTRIES) {
        mode.needs[i] = needs[i];
    }
    mode
}

/// A list of a certificate, for the mode with the number `mode`: `of_11` pages of class 11, `of_15` of class 15, and
/// none of the others.
fn point(mode: u32, of_11: u32, of_15: u32) -> PointPages {
    let mut pages = [0; CLASSES];
    pages[11] = of_11;
    pages[15] = of_15;
    PointPages { mode, pages }
}

// A page of 64 words has 20 classes. Number 11 has slots of 23 words, two to a page, for objects of 176 bytes;
// number 15 has slots of 39, one to a page, for 300 bytes. Six objects of 176 bytes are on three pages. If two of
// them stay, with bound 2 they can be on two pages, beside three of the other mode. Without a
// bound for each class, or a list for each mode, nothing is certified.
#[test]
fn two_modes_need_five_pages(rt: HostRuntime) -> Result<(), Fail> {
    let modes = [
        mode(&[need(176, 4), need(300, 1), need(176, 2)]),
        mode(&[need(176, 1), need(300, 3), need(176, 1)]),
    ];
    let points = [point(0, 3, 1), point(1, 2, 3)];
    let bounds = [2; 20];
    let found = [
        is_certified(5, 512, Layout::Words, &bounds, &modes, &points, false),
        is_certified(4, 512, Layout::Words, &bounds, &modes, &points, false),
        is_certified(5, 512, Layout::Words, &bounds[1..], &modes, &points, false),
        is_certified(5, 512, Layout::Words, &bounds, &modes, &points[1..], false),
    ];
    assert_eq!(rt; found, [true, false, false, false], "certificates");
    Ok(())
}

// Objects of 160 bytes have slots of class 11 too. Three of 176 bytes are on two pages. One of them
// can stay beside one of 160 bytes and one of 300, on one page of each class. But if two stay, on
// two pages, and the program resizes one of the two to 160 bytes, class 11 keeps both pages.
#[test]
fn a_resize_within_a_class_keeps_an_object_more(rt: HostRuntime) -> Result<(), Fail> {
    let modes = [
        mode(&[need(176, 3)]),
        mode(&[need(176, 1), need(160, 1), need(300, 1)]),
    ];
    let points = [point(0, 2, 0), point(1, 1, 1)];
    let more = [point(0, 2, 0), point(1, 2, 1)];
    let bounds = [2; 20];
    let found = [
        is_certified(2, 512, Layout::Words, &bounds, &modes, &points, false),
        is_certified(2, 512, Layout::Words, &bounds, &modes, &points, true),
        is_certified(3, 512, Layout::Words, &bounds, &modes, &points, true),
        is_certified(3, 512, Layout::Words, &bounds, &modes, &more, true),
        is_certified(2, 512, Layout::Words, &bounds, &modes, &more, false),
    ];
    assert_eq!(rt; found, [true, false, false, true, false], "certificates");
    Ok(())
}

// The objects of the classes 11 and 12, two to a page, cost 100 each, all others more than the
// budget of 500. So the level of these classes, what a full page costs at least, is 200. If one page
// of a class may be partly full, an object of class 12 and four of class 11 take three pages. If two
// may be, two objects of class 12, left of three, and three of class 11 take four. The level 201, or
// a bound too few, is refused.
#[test]
fn a_greater_bound_needs_a_page_more(rt: HostRuntime) -> Result<(), Fail> {
    let mut prices = [501; 20];
    prices[11] = 100;
    prices[12] = 100;
    let mut levels = [0; 20];
    levels[11] = 200;
    levels[12] = 200;
    let mut high = levels;
    high[12] = 201;
    let ones = [1; 20];
    let twos = [2; 20];
    let found = [
        are_budget_levels(2, 512, Layout::Words, &ones, &prices, 500, &levels),
        are_budget_levels(3, 512, Layout::Words, &ones, &prices, 500, &levels),
        are_budget_levels(3, 512, Layout::Words, &twos, &prices, 500, &levels),
        are_budget_levels(4, 512, Layout::Words, &twos, &prices, 500, &levels),
        are_budget_levels(4, 512, Layout::Words, &twos, &prices, 500, &high),
        are_budget_levels(4, 512, Layout::Words, &twos[1..], &prices, 500, &levels),
    ];
    assert_eq!(rt; found, [false, true, false, true, false, false], "budgets");
    Ok(())
}
