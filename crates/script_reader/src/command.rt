//! `Command`: the commands of a script, of every mode, each with the form of its line.

use crate::payload::Payload;

/// A command of a script. The comment of each variant begins with the form of its line, in which ID is the
/// script's name for an object.
#[derive(Debug, PartialEq, Eq, Drop)]
pub enum Command {
    /// `m ID BYTES`: makes object ID, with BYTES bytes.
    Malloc { id: u16, bytes: u32 },
    /// `f ID`: frees object ID.
    Free { id: u16 },
    /// `w ID AT HEX`: writes the bytes HEX into object ID from byte AT on.
    Write { id: u16, at: u32, bytes: Payload },
    /// `r ID AT LEN`: prints LEN bytes of object ID, at most 4,096, from byte AT on.
    Read { id: u16, at: u32, len: u16 },
    /// `q ID`: prints the address of object ID.
    Place { id: u16 },
    /// `b ID I`: prints the number of the physical block that holds block I of object ID; I counts
    /// from 0.
    Block { id: u16, i: u32 },
    /// `p WORD`: prints the word of the region with this number.
    Peek { word: u32 },
    /// `walk`: reports on the classes in use and the pages, or on the blocks.
    Walk,
    /// `frag`: reports the bytes asked for, taken and held.
    Frag,
    /// `steps`: prints the steps of the last malloc, free or, with pages, resize; with pages also
    /// their bound, how many objects moved into freed slots, and the words of these slots.
    Steps,
    /// `k SLOTWORDS K`: of the class whose slots have SLOTWORDS words, at most K pages may be partly full
    /// from now on; K is from 1 to 64.
    Bound { slot_words: u32, k: u32 },
    /// `z ID BYTES`: changes the length of object ID to BYTES bytes.
    Resize { id: u16, bytes: u32 },
    /// `s`: does one slice of the pending job.
    Slice,
    /// `t TASK`: makes TASK, from 0 to 15, the present task: later commands act for it.
    Task { task: u32 },
    /// `quota TASK PAGES`: sets the quota of TASK, the most pages that it may use.
    Quota { task: u32, pages: u32 },
    /// `need TASK BYTES COUNT`: declares that TASK needs at most COUNT live objects of BYTES bytes.
    Need { task: u32, bytes: u32, count: u32 },
    /// `admit TASK`: asks whether the quota of TASK is enough for the objects that it declared.
    Admit { task: u32 },
}
