//! The lines of this program's own scripts, a letter and three numbers each, and the table of
//! handles and bytes that the calls use.
use cf_base::Handle;
use cf_io::number_of;
use std::alloc::Global;

/// The number of bytes of a line.
pub(crate) const LINE: usize = 24;

/// The number of ids.
const IDS: usize = 65_536;

/// No object has this number: it marks an id without a handle.
pub(crate) const NONE: u32 = 4_294_967_295;

/// The most bytes of a read or a write.
const MOST: usize = 1_000_000;

/// A line: its letter `op` and its three numbers. The head of `main.rt` says what they mean for each letter.
#[derive(Clone, Copy)]
pub(crate) struct Line {
    pub(crate) op: u8,
    pub(crate) id: u32,
    pub(crate) first: u32,
    pub(crate) second: u32,
}

impl Line {
    /// Reads a line: a letter, then numbers of 5, 7 and 7 digits, each after one byte of any value. `None` if
    /// the text is too short, or a number has a byte that is no digit.
    pub(crate) fn read(text: &[u8]) -> Option<Line> {
        Some(Line {
            op: *text.first()?,
            id: number_of(text.get(2..7)?)?,
            first: number_of(text.get(8..15)?)?,
            second: number_of(text.get(16..23)?)?,
        })
    }
}

/// The handle of each id, and one buffer: a write takes its bytes from it, a read puts its bytes there.
#[derive(Drop)]
pub(crate) struct Table {
    handles: Vec<u32>,
    bytes: Vec<u8>,
}

impl Table {
    /// Makes a table in which no id has a handle; `None` if memory runs out.
    pub(crate) fn new(alloc: Global) -> Option<Table> {
        let handles = Vec::from_elem(alloc, NONE, IDS).ok()?;
        let bytes = Vec::from_elem(alloc, 7, MOST).ok()?;
        Some(Table { handles, bytes })
    }

    /// For a profiler, returns the handle that was last set for an id; `NONE` if none was, or the id is above 65,535.
    pub(crate) fn handle(&self, id: u32) -> Handle {
        match self.handles.get(id as usize) {
            Some(number) => Handle(*number),
            None => Handle(NONE),
        }
    }

    /// Sets the handle of an id in the bench table, `NONE` to remove it; does nothing if the id is above 65,535.
    pub(crate) fn name(&mut self, id: u32, h: Handle) {
        if let Some(number) = self.handles.get_mut(id as usize) {
            *number = h.0;
        }
    }

    /// Lends the first `count` of the bench table's bytes, or all if there are fewer.
    pub(crate) fn bytes(&mut self, count: u32) -> &mut [u8] {
        let most = self.bytes.len().min(count as usize);
        &mut self.bytes[..most]
    }
}
