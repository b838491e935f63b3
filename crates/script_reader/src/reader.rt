//! `Reader`: takes the bytes of a script in chunks, and returns its items one after the other: the
//! `heap` line, each command, and the first bad line, at which it stops. More than 8,999 bytes
//! without a line feed count as a whole line, a bad one.
ghost use Rattle.std.specs.Prelude.{◌≡◌, ◌≤◌, ◌+◌, ◌==◌, true, false, length, take, drop, position, MatchOption, None};
ghost use Rattle.script_reader.specs.Answered.{IsNextLine, line_passed, is_blank_or_comment};
ghost use Rattle.script_reader.specs.Items.{line_says};
ghost use Rattle.script_reader.specs.Lines.{is_last_line};
ghost use Rattle.script_reader.specs.Owned.{owned_next};
ghost use Rattle.script_reader.specs.Reading.{Answers, HasNoLine, IsFirstLine, PassesOver, fed_with, fresh, holds_line_feed, taken};

use crate::line::{LONGEST, is_silent, read_line};
use crate::next::Next;
use crate::next_ref::NextRef;
use crate::payload_buffer::PayloadBuffer;
use crate::stage::{Stage, stage_after};
use crate::tokens::line_feed_at;
use arrayvec::ArrayVec;
use std::marker::Model;

/// The most bytes that a reader keeps: bytes that were fed, but not read yet.
const MOST_KEPT: usize = 9_000;

/// The length of the buffer in bytes: so large that the kept bytes, when they move to its start, never overlap
/// their old place.
const BUFFER: usize = 2 * MOST_KEPT;

/// Reads a script from bytes that are fed in chunks. The kept bytes are those that were fed but not read
/// yet. They are at most 9,000, and are in the reader itself, which allocates nothing.
#[derive(Drop)]
pub struct Reader {
    /// Bytes of the script in order: before `start` bytes that were read, from `start` on the kept bytes.
    buffer: ArrayVec<u8, BUFFER>,
    /// The position in the buffer of the first kept byte, where the next line to read begins.
    start: usize,
    /// The number of kept bytes, from the first on, that were searched and hold no line feed.
    searched: usize,
    /// The number of lines read so far, blank lines and comments too.
    passed: u32,
    /// Which lines are allowed next.
    stage: Stage,
    /// Whether the end of the script was announced (`finish`).
    ended: bool,
    /// The number of the bad line, once it was returned; the reader then reads nothing more.
    stopped: Option<u32>,
    /// The number of bytes that were fed in all.
    fed: u32,
}

impl Model for Reader {
    ghost use Rattle.script_reader.specs.Reading.{Reading};

    ghost Value = { Reading };

    ghost use Rattle.script_reader.specs.Layout.{IsValid, reading_of};

    ghost view = { reading_of };

    ghost invariant = { IsValid };
}

impl Reader {
    /// Returns a reader that was fed nothing.
    pub fn new() -> Reader
        ensures { result ≡ fresh }
    {
        Reader {
            buffer: ArrayVec::new(),
            start: 0,
            searched: 0,
            passed: 0,
            stage: Stage::Opening,
            ended: false,
            stopped: None,
            fed: 0,
        }
    }

    /// Feeds the reader: adds a prefix of `chunk` to the kept bytes, and returns the prefix's length. The
    /// prefix is the longest after which at most 9,000 bytes are kept, and at most `2^32 - 1` bytes were fed
    /// in all. The caller feeds the rest of the chunk after it has read commands. Not to be called after
    /// `finish`.
    pub fn feed(&mut self, chunk: &[u8]) -> usize
        requires { self.old.ended ≡ false }
        ensures value { result ≡ taken self.old chunk.now }
        ensures fed { self.new ≡ fed_with self.old (take result chunk.now) }
    {
        let free = MOST_KEPT - (self.buffer.len() - self.start);
        let left = (u32::MAX - self.fed) as usize;
        let n = chunk.len().min(free.min(left));
        if self.buffer.remaining_capacity() < n {
            drop_front(&mut self.buffer, self.start);
            self.start = 0;
        }
        let _ = self.buffer.try_extend_from_slice(&chunk[..n]);
        self.fed += n as u32;
        n
    }

    /// Announces that the script ends with the bytes fed so far: no more are fed, and the last line needs no
    /// line feed.
    pub fn finish(&mut self)
        ensures { self.new ≡ record self.old { ended = true } }
    {
        self.ended = true;
    }

    /// Reads the next line that is neither blank nor a comment, and returns its command, or `Start` for a
    /// `heap` line. Returns `NeedMore` if there is no such whole line and the end was not announced, `End`
    /// if there is none and the end was announced. Returns `Bad` if the line isn't in the grammar or isn't
    /// allowed at its place; from then on every call returns that same `Bad`.
    pub fn next_command(&mut self) -> Next
        ensures { Answers self.old result self.new }
    {
        let mut payload = PayloadBuffer::new();
        self.next_ref(&mut payload).to_next()
    }

    /// Reads the next line and returns the result of `next_command`, but puts the bytes of a write
    /// into `payload`, from which the result borrows them.
    pub fn next_ref<'a>(&mut self, payload: &'a mut PayloadBuffer) -> NextRef<'a>
        ensures { Answers self.old (owned_next result) self.new }
    {
        let mut next = NextRef::NeedMore;
        self.read_next(payload, &mut next);
        next
    }

    /// Reads the next line as `next_ref` does, but puts the result into `next`, so that the result
    /// isn't copied.
    pub fn read_next<'a>(&mut self, payload: &'a mut PayloadBuffer, next: &mut NextRef<'a>)
        ensures { Answers self.old (owned_next next.new) self.new }
    {
        if let Some(line) = self.stopped {
            *next = NextRef::Bad { line };
            return;
        }
        match self.next_line() {
            Some(cut) => self.read_first_line(cut, payload, next),
            None => *next = self.without_line(),
        }
    }

    /// The result of a call if the kept bytes hold no whole line, and no bad line was returned
    /// before: `End` if the end was announced, else `NeedMore`.
    fn without_line<'a>(&self) -> NextRef<'a>
        requires going { self.now.stopped ≡ None }
        requires none { HasNoLine self.now.kept self.now.ended }
        ensures { Answers self.now (owned_next result) self.now }
    {
        if self.ended {
            NextRef::End
        } else {
            NextRef::NeedMore
        }
    }

    /// Passes the blank lines and comments that the kept bytes begin with, and returns where the line after
    /// them ends. `None` if no whole line comes after them. No bad line may have been returned before.
    fn next_line(&mut self) -> Option<Cut>
        requires { self.old.stopped ≡ None }
        ensures passes { PassesOver self.old self.new }
        ensures found { MatchOption result (HasNoLine self.new.kept self.new.ended) (λ cut. IsNextLine self.new cut.len cut.next) }
    {
        'lines: loop {
            let cut = self.find_line()?;
            if !self.is_silent(cut) {
                return Some(cut);
            }
            self.pass_line(cut);
        }
    }

    /// Returns where the first line of the kept bytes ends. `None` if they hold no whole line; the
    /// next call then searches only bytes fed later.
    fn find_line(&mut self) -> Option<Cut>
        ensures same { self.new ≡ self.old }
        ensures found { MatchOption result (HasNoLine self.old.kept self.old.ended)
            (λ cut. IsFirstLine self.old.kept self.old.ended cut.len cut.next) }
    {
        let kept = &self.buffer.as_slice()[self.start..];
        let cut = first_line(kept, self.searched, self.ended);
        if cut.is_none() {
            self.searched = kept.len();
        }
        cut
    }

    /// Whether the first line of the kept bytes, which ends at `cut`, is blank or a comment.
    fn is_silent(&self, cut: Cut) -> bool
        requires { cut.len ≤ length self.now.kept }
        ensures { result ≡ is_blank_or_comment (line_says (take cut.len self.now.kept)) }
    {
        let kept = &self.buffer.as_slice()[self.start..];
        is_silent(&kept[..cut.len])
    }

    /// Passes the first line of the kept bytes, which ends at `cut`: its bytes are kept no longer, and the line
    /// is counted.
    fn pass_line(&mut self, cut: Cut)
        requires some { 1 ≤ cut.next }
        requires within { cut.next ≤ length self.old.kept }
        ensures { self.new ≡ line_passed self.old cut.next }
    {
        self.start += cut.next;
        self.searched = 0;
        self.passed += 1;
    }

    /// Reads and passes the first line of the kept bytes, which ends at `cut` and is neither blank nor a comment.
    /// Puts the line's command, or the settings of a `heap` line, into `next`, and the bytes of a write into
    /// `payload`. If the line is bad, `next` is `Bad` with the line's number, and the reader stops. It must not
    /// have stopped before.
    fn read_first_line<'a>(
        &mut self,
        cut: Cut,
        payload: &'a mut PayloadBuffer,
        next: &mut NextRef<'a>,
    )
        requires going { self.old.stopped ≡ None }
        requires line { IsNextLine self.old cut.len cut.next }
        ensures { Answers self.old (owned_next next.new) self.new }
    {
        let kept = &self.buffer.as_slice()[self.start..];
        let formed = read_line(&kept[..cut.len], payload, next);
        self.pass_line(cut);
        match stage_after(self.stage, formed, *next) {
            Some(stage) => self.stage = stage,
            None => {
                let line = self.passed;
                self.stopped = Some(line);
                *next = NextRef::Bad { line };
            }
        }
    }
}

/// Drops the first `start` bytes from the buffer, which must have as many, and moves the others to
/// the buffer's start. Their old and their new place must not overlap.
fn drop_front(buffer: &mut ArrayVec<u8, BUFFER>, start: usize)
    requires within { start ≤ length buffer.old.items }
    requires apart { length buffer.old.items ≤ start + start }
    ensures { buffer.new.items ≡ drop start buffer.old.items }
{
    let left = buffer.len() - start;
    let (front, back) = buffer.as_mut_slice().split_at_mut(start);
    front[..left].copy_from_slice(back);
    buffer.truncate(left);
}

/// Where the first line of the kept bytes ends: the line has `len` bytes, its line feed not
/// counted, and the next line starts at byte `next` of the kept bytes.
#[derive(Clone, Copy)]
struct Cut {
    len: usize,
    next: usize,
}

/// The position of the first line feed in `kept`, if there is one. The caller knows that none is before `from`,
/// so the search begins at `from`.
fn line_feed_from(kept: &[u8], from: usize) -> Option<usize>
    requires within { from ≤ length kept.now }
    requires searched { holds_line_feed (take from kept.now) ≡ false }
    ensures { result ≡ position (λ x. x == 10) kept.now }
{
    let at = line_feed_at(&kept[from..])?;
    Some(from + at)
}

/// Where the first line of the bytes `kept` ends. `None` if they hold no whole line. The first `searched` bytes
/// hold no line feed; `ended` is whether the script ends with these bytes.
fn first_line(kept: &[u8], searched: usize, ended: bool) -> Option<Cut>
    requires within { searched ≤ length kept.now }
    requires searched { holds_line_feed (take searched kept.now) ≡ false }
    ensures { MatchOption result (HasNoLine kept.now ended) (λ cut. IsFirstLine kept.now ended cut.len cut.next) }
{
    match line_feed_from(kept, searched) {
        Some(len) => Some(Cut { len, next: len + 1 }),
        None if is_line(kept, ended) => Some(Cut {
            len: kept.len(),
            next: kept.len(),
        }),
        None => None,
    }
}

/// Whether the bytes `rest`, which hold no line feed, count as a line: there is at least one byte,
/// and the script has ended (`ended`) or there are more bytes than a line may have. In the latter
/// case the line is bad.
fn is_line(rest: &[u8], ended: bool) -> bool
    ensures { result ≡ is_last_line ended rest.now }
{
    rest.len() > 0 && (ended || rest.len() > LONGEST)
}
