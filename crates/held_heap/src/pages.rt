//! How many pages a program needs, for a caller in C, and the codes of a refusal.
ghost use Rattle.std.specs.Prelude.{◌≡◌};
ghost use Rattle.held_heap.specs.Codes.{needs_code};
ghost use Rattle.held_heap.specs.PagesNeeded.{IsPagesCall};

use c_base::{DONE, ENTRIES, PROXIES, SIZE, of_setting};
use cf_base::Layout;
use sizing::{Need, NeedsFault};

/// Writes into `pages` the least number of pages of `page_bytes` bytes, with slots of this layout,
/// with which no call of a program is refused for space while it keeps to its `needs`
/// (`pages_needed` of `sizing`). `k` must be in its range, 1 to 64, and has no other effect.
/// Returns `DONE`, or the code of the first cause that holds, in the order of `NeedsFault`:
/// `ENTRIES`, `PAGE_BYTES` or `BOUND`, `SIZE` (an entry of `needs`, even of count 0, has a length
/// that doesn't fit a page with a header) or `PROXIES` (the needs are more than 65,536 objects).
/// After a refusal `pages` is unchanged.
pub fn pages_needed(layout: Layout, page_bytes: u32, k: u32, needs: &[Need], pages: &mut u32) -> i32
    ensures { IsPagesCall layout page_bytes k needs.now result pages.old pages.new }
{
    match sizing::pages_needed(page_bytes, k, layout, needs) {
        Ok(found) => {
            *pages = found;
            DONE
        }
        Err(cause) => of_needs(cause),
    }
}

/// The code for C of a refused call of `pages_needed`.
fn of_needs(cause: NeedsFault) -> i32
    ensures { result ≡ needs_code cause }
{
    match cause {
        NeedsFault::Entries => ENTRIES,
        NeedsFault::Setting(e) => of_setting(e),
        NeedsFault::Size => SIZE,
        NeedsFault::Proxies => PROXIES,
    }
}
