//! Reads the first 16 bytes of an image: the mark `CFI1`, then the pages, the bytes of a page and the
//! proxies, each a number of four bytes.
ghost use Rattle.std.specs.Prelude.{◌≡◌, IsTrue, Err};
ghost use Rattle.std.specs.Str.{bytes_eq};
ghost use Rattle.cf_base.specs.Limits.{is_within};
ghost use Rattle.cf_io.specs.Feeds.{SourceFailsIf};
ghost use Rattle.heap_image.specs.Decoded.{decoded, is_page_of, page_bytes_decoded, pages_decoded, proxies_decoded};
ghost use Rattle.heap_image.specs.Feed.{feed_of, is_unread};
ghost use Rattle.heap_image.specs.Image.{mark};
ghost use Rattle.heap_image.specs.Stages.{ReadsSettingsOrStops};

use crate::fault::LoadFault;
use crate::fields_in::{Filled, fill, read_u32};
use cf_base::Settings;
use cf_io::Source;

/// Reads the first 16 bytes of an image: the mark, the pages, the bytes of a page and the proxies. Returns the
/// settings with these numbers and the bound 1. Fails with `Bad` if a field breaks a rule or is cut by the end
/// of the input, and with `Read` if the source failed.
pub(crate) fn read_settings<S: Source>(source: &mut S) -> Result<Settings, LoadFault>
    ensures settings { ReadsSettingsOrStops 16 decoded (feed_of (S.state source.old)) result (feed_of (S.state source.new)) }
    ensures source { SourceFailsIf (is_unread result) (S.state source.old) (S.state source.new) }
{
    let mut bytes = [0; 4];
    match fill(source, &mut bytes) {
        Filled::Whole => {}
        Filled::Cut => return Err(LoadFault::Bad { at: 0 }),
        Filled::Failed => return Err(LoadFault::Read),
    }
    if !is_mark(&bytes) {
        return Err(LoadFault::Bad { at: 0 });
    }
    read_pages(source)
}

/// Whether these bytes are `CFI1`, the mark of an image.
fn is_mark(bytes: &[u8]) -> bool
    ensures { result ≡ bytes_eq bytes.now mark }
{
    bytes == b"CFI1".as_slice()
}

/// Whether the heap of an image may have this number of pages: 1 to 4,096.
fn are_pages(pages: u32) -> bool
    ensures { result ≡ is_within 1 4096 pages }
{
    (1..=4096).contains(&pages)
}

/// Reads the number of pages at byte 4 of the image, then the bytes of a page and the proxies, and returns the
/// settings. Fails as `read_settings` does.
fn read_pages<S: Source>(source: &mut S) -> Result<Settings, LoadFault>
    ensures settings { ReadsSettingsOrStops 12 pages_decoded (feed_of (S.state source.old)) result (feed_of (S.state source.new)) }
    ensures source { SourceFailsIf (is_unread result) (S.state source.old) (S.state source.new) }
{
    let pages = match read_u32(source, 4) {
        Ok(pages) => pages,
        Err(fault) => return Err(fault),
    };
    if !are_pages(pages) {
        return Err(LoadFault::Bad { at: 4 });
    }
    read_page_bytes(source, pages)
}

/// Reads the bytes of a page at byte 8 of the image, then the proxies, and returns the settings; `pages` was
/// read before them, and is 1 to 4,096. Fails as `read_settings` does.
fn read_page_bytes<S: Source>(source: &mut S, pages: u32) -> Result<Settings, LoadFault>
    requires pages { IsTrue (is_within 1 4096 pages) }
    ensures settings { ReadsSettingsOrStops 8 (page_bytes_decoded pages) (feed_of (S.state source.old)) result (feed_of (S.state source.new)) }
    ensures source { SourceFailsIf (is_unread result) (S.state source.old) (S.state source.new) }
{
    let page_bytes = match read_u32(source, 8) {
        Ok(page_bytes) => page_bytes,
        Err(fault) => return Err(fault),
    };
    match Settings::check(pages, page_bytes, 1, 1) {
        Ok(_) => read_proxies(source, pages, page_bytes),
        Err(_) => Err(LoadFault::Bad { at: 8 }),
    }
}

/// Reads the number of proxies at byte 12 of the image, and returns the settings; `pages` and
/// `page_bytes` were read before, and are in range. Fails as `read_settings` does.
fn read_proxies<S: Source>(
    source: &mut S,
    pages: u32,
    page_bytes: u32,
) -> Result<Settings, LoadFault>
    requires pages { IsTrue (is_within 1 4096 pages) }
    requires page { IsTrue (is_page_of pages page_bytes) }
    ensures settings { ReadsSettingsOrStops 4 (proxies_decoded pages page_bytes) (feed_of (S.state source.old)) result (feed_of (S.state source.new)) }
    ensures source { SourceFailsIf (is_unread result) (S.state source.old) (S.state source.new) }
{
    let proxies = match read_u32(source, 12) {
        Ok(proxies) => proxies,
        Err(fault) => return Err(fault),
    };
    match Settings::check(pages, page_bytes, 1, proxies) {
        Ok(settings) => Ok(settings),
        Err(_) => Err(LoadFault::Bad { at: 12 }),
    }
}
