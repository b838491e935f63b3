//! Tests of what heaps and sessions are made of: tables, lists, bitmaps, a pool and a region.
ghost use Rattle.std.specs.Prelude.{◌≡◌, ◌<◌, ◌≤◌, length};

use block_table::BlockTable;
use cf_base::Handle;
use class_lists::{ClassLists, Which};
use id_table::IdTable;
use page_pool::PagePool;
use proxy_table::ProxyTable;
use region::Region;
use slot_bitmap::SlotMaps;
use std::test::Fail;
use step_ledger::{Meter, Steps};

// `PagePool::take` returns pages 0 and 1 of a new pool in turn, then none. After pages 0 and 1 are returned
// by `give`, it takes the one that was given last. Each of the six calls with a ledger costs one step.
#[test]
fn the_page_that_was_given_last_is_taken_first(rt: HostRuntime) -> Result<(), Fail> {
    let mut meter = Meter::new(&rt);
    let mut pool = PagePool::new(rt.alloc(), 2)?;
    assert_eq!(rt; pool.take(meter.steps()), Some(0));
    assert_eq!(rt; pool.take(meter.steps()), Some(1));
    assert_eq!(rt; pool.take(meter.steps()), None);
    pool.give(0, meter.steps());
    pool.give(1, meter.steps());
    assert_eq!(rt; pool.take(meter.steps()), Some(1));
    assert_eq!(rt; meter.lap(), 6);
    Ok(())
}

// In a table of one proxy the first address gets the number 0, and a second one gets none.
#[test]
fn one_proxy_is_bound_once(rt: HostRuntime) -> Result<(), Fail> {
    let mut meter = Meter::new(&rt);
    let mut table = ProxyTable::new(rt.alloc(), 1)?;
    let bound = [table.bind(7, meter.steps()), table.bind(8, meter.steps())];
    assert_eq!(rt; bound, [Some(Handle(0)), None]);
    assert_eq!(rt; table.lookup(Handle(0), meter.steps()), Some(7));
    Ok(())
}

// Pages 7 and 0 join the list of partly full pages of class 1 in turn: the last one is in front.
#[test]
fn a_page_that_joins_becomes_the_front(rt: HostRuntime) -> Result<(), Fail> {
    let mut meter = Meter::new(&rt);
    let mut lists = ClassLists::new(rt.alloc(), 3, 8)?;
    lists.push(1, Which::NotFull, 7, meter.steps());
    lists.push(1, Which::NotFull, 0, meter.steps());
    assert_eq!(rt; lists.front(1, Which::NotFull, meter.steps()), Some(0));
    Ok(())
}

// Two pages of 16 blocks; at first each virtual block has the physical block of the same number. `swap_run`
// exchanges the entries of virtual blocks 6 to 11 with those of 16 to 21.
#[test]
fn ranges_of_entries_change_places(rt: HostRuntime) -> Result<(), Fail> {
    let mut meter = Meter::new(&rt);
    let mut table = BlockTable::new(rt.alloc(), 2, 16)?;
    table.swap_run(6, 16, 6, meter.steps());
    let frames = [
        table.frame(0, 5, meter.steps()),
        table.frame(0, 6, meter.steps()),
        table.frame(1, 0, meter.steps()),
    ];
    assert_eq!(rt; frames, [5, 16, 6]);
    Ok(())
}

// Of 8 words, `move_words` moves words 1 and 2 to words 5 and 6; their old place is cleared.
#[test]
fn words_are_moved(rt: HostRuntime) -> Result<(), Fail> {
    let mut meter = Meter::new(&rt);
    let mut region = Region::new(rt.alloc(), 8)?;
    region.write(1, 7, meter.steps());
    region.write(2, 9, meter.steps());
    region.move_words(1, 5, 2, meter.steps());
    assert_eq!(rt;
        region.payload(0, 8, meter.steps()),
        [0, 0, 0, 0, 0, 7, 9, 0].as_slice()
    );
    Ok(())
}

// An id names the handle to which it was last bound, and counts once.
#[test]
fn an_id_names_what_it_was_last_bound_to(rt: HostRuntime) -> Result<(), Fail> {
    let mut ids = IdTable::new(rt.alloc()).map_err(|_| "out of memory")?;
    ids.bind(65_535, Handle(8));
    ids.bind(65_535, Handle(9));
    assert_eq!(rt; (ids.handle(65_535), ids.live()), (Some(Handle(9)), 1));
    Ok(())
}

/// Takes the lowest free slot of a page `n` times, and returns the slot that was taken last; none if `n` is 0 or the
/// last time no slot was free. The number of pages stays.
fn fill(maps: &mut SlotMaps, page: u32, n: u32, steps: &mut Steps) -> Option<u32>
    requires { page < length maps.old.pages }
    ensures { length maps.new.pages ≡ length maps.old.pages }
{
    let mut last = None;
    for _i in 0..n {
        last = maps.take_first(page, steps);
    }
    last
}

/// Makes a table of three pages with up to `slots` slots each, from 1 to 4,096, gives page 1 `slots` slots, and takes
/// all of these. Returns the slot that was taken last, then the lowest used and the lowest free slot of page 1, and the
/// lowest free slots of pages 0 and 2; how many slots of page 1 are used; and the steps in all. Fails if memory runs
/// out.
fn page_filled(rt: &HostRuntime, slots: u32) -> Result<([Option<u32>; 5], u32, u64), Fail>
    requires some { 1 ≤ slots }
    requires few { slots ≤ 4096 }
{
    let mut meter = Meter::new(rt);
    let mut maps = SlotMaps::new(rt.alloc(), 3, slots)?;
    maps.renew(1, slots, meter.steps());
    let found = [
        fill(&mut maps, 1, slots, meter.steps()),
        maps.first_used(1, meter.steps()),
        maps.first_free(1, meter.steps()),
        maps.first_free(0, meter.steps()),
        maps.first_free(2, meter.steps()),
    ];
    Ok((found, maps.count(1, meter.steps()), meter.lap()))
}

// Six tables; the bitmap of a page has 1 to 64 words. The slots of page 1 are taken in order; then none
// is free. Pages 0 and 2 still have the one free slot of a page that no class uses. Taking a slot costs
// three steps; the other calls cost ten in all.
#[test]
fn a_page_is_filled_and_the_others_stay_free(rt: HostRuntime) -> Result<(), Fail> {
    let seen = [
        page_filled(&rt, 1)?,
        page_filled(&rt, 63)?,
        page_filled(&rt, 64)?,
        page_filled(&rt, 65)?,
        page_filled(&rt, 128)?,
        page_filled(&rt, 4096)?,
    ];
    let found = |last| [Some(last), Some(0), None, Some(0), Some(0)];
    assert_eq!(rt;
        seen,
        [
            (found(0), 1, 13),
            (found(62), 63, 199),
            (found(63), 64, 202),
            (found(64), 65, 205),
            (found(127), 128, 394),
            (found(4095), 4096, 12_298),
        ]
    );
    Ok(())
}
