//! Reads one field of an image from a source, whatever the source's chunks: `fill` fills a buffer; `read_u16`
//! and `read_u32` read a number of two or four bytes, the least significant first.
ghost use Rattle.std.specs.Prelude.{◌≡◌, Err};
ghost use Rattle.std.specs.Int.{w16, w32};
ghost use Rattle.cf_io.specs.Feeds.{SourceFailsIf};
ghost use Rattle.heap_image.specs.Feed.{feed_of, is_unfilled, is_unread};
ghost use Rattle.heap_image.specs.Stages.{FillsBuffer, ReadsNumber};

use crate::fault::LoadFault;
use cf_io::Source;

/// Why `fill` stopped, and so whether the buffer is full.
#[derive(Clone, Copy, Debug, PartialEq, Eq)]
pub(crate) enum Filled {
    /// The buffer is full.
    Whole,
    /// The input ended before the buffer was full.
    Cut,
    /// The source failed before the buffer was full.
    Failed,
}

/// Fills the buffer with the next bytes of an image's source, by repeated calls of `take`. Stops when the buffer is
/// full (`Whole`), the input ends (`Cut`) or a call fails (`Failed`), and returns which of the three it was. After
/// `Cut` and `Failed` nothing is claimed of the bytes in the buffer.
pub(crate) fn fill<S: Source>(source: &mut S, buffer: &mut [u8]) -> Filled
    ensures fills { FillsBuffer (feed_of (S.state source.old)) buffer.new result (feed_of (S.state source.new)) }
    ensures source { SourceFailsIf (is_unfilled result) (S.state source.old) (S.state source.new) }
{
    let mut at = 0;
    'fills: while at < buffer.len() {
        match source.take(&mut buffer[at..]) {
            Ok(n) => {
                if n == 0 {
                    return Filled::Cut;
                }
                at += n;
            }
            Err(_) => return Filled::Failed,
        }
    }
    Filled::Whole
}

/// Takes the next two bytes of the source as a number, the least significant first. Fails with
/// `Bad` if the input ends before the last of them, and with `Read` if the source failed. `at` is
/// their offset in the image, which `Bad` shows.
pub(crate) fn read_u16<S: Source>(source: &mut S, at: u64) -> Result<u16, LoadFault>
    ensures reads { ReadsNumber w16 at (feed_of (S.state source.old)) result (feed_of (S.state source.new)) }
    ensures source { SourceFailsIf (is_unread result) (S.state source.old) (S.state source.new) }
{
    let mut bytes = [0; 2];
    match fill(source, &mut bytes) {
        Filled::Whole => Ok(u16::from_le_bytes(bytes)),
        Filled::Cut => Err(LoadFault::Bad { at }),
        Filled::Failed => Err(LoadFault::Read),
    }
}

/// Takes the next four bytes of the source as a number, the least significant first. Fails with
/// `Bad` if the input ends before the last of them, and with `Read` if the source failed. `at` is
/// their offset in the image, which `Bad` shows.
pub(crate) fn read_u32<S: Source>(source: &mut S, at: u64) -> Result<u32, LoadFault>
    ensures reads { ReadsNumber w32 at (feed_of (S.state source.old)) result (feed_of (S.state source.new)) }
    ensures source { SourceFailsIf (is_unread result) (S.state source.old) (S.state source.new) }
{
    let mut bytes = [0; 4];
    match fill(source, &mut bytes) {
        Filled::Whole => Ok(u32::from_le_bytes(bytes)),
        Filled::Cut => Err(LoadFault::Bad { at }),
        Filled::Failed => Err(LoadFault::Read),
    }
}
