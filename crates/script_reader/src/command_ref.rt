//! `CommandRef`: a command like `Command`, but the bytes of a write are borrowed.
ghost use Rattle.std.specs.Prelude.{◌≡◌};
ghost use Rattle.script_reader.specs.Commands.{IsWellFormed};
ghost use Rattle.script_reader.specs.Owned.{owned_command};

use crate::command::Command;
use crate::payload::Payload;

/// A command of a script; the variants are those of `Command`, but a write borrows its bytes. A `Command`
/// itself has space for 4,096 bytes, so moving it costs time; a `CommandRef` is only a few words long.
#[derive(Clone, Copy, Debug, PartialEq, Eq)]
pub enum CommandRef<'a> {
    Malloc { id: u16, bytes: u32 },
    Free { id: u16 },
    Write { id: u16, at: u32, bytes: &'a [u8] },
    Read { id: u16, at: u32, len: u16 },
    Place { id: u16 },
    Block { id: u16, i: u32 },
    Peek { word: u32 },
    Walk,
    Frag,
    Steps,
    Bound { slot_words: u32, k: u32 },
    Resize { id: u16, bytes: u32 },
    Slice,
    Task { task: u32 },
    Quota { task: u32, pages: u32 },
    Need { task: u32, bytes: u32, count: u32 },
    Admit { task: u32 },
}

impl Command {
    /// The same command, but the bytes of a write are borrowed from this one.
    pub fn as_ref(&self) -> CommandRef
        ensures { owned_command result ≡ self.now }
    {
        match self {
            Command::Malloc { id, bytes } => CommandRef::Malloc {
                id: *id,
                bytes: *bytes,
            },
            Command::Free { id } => CommandRef::Free { id: *id },
            Command::Write { id, at, bytes } => CommandRef::Write {
                id: *id,
                at: *at,
                bytes: bytes.bytes(),
            },
            Command::Read { id, at, len } => CommandRef::Read {
                id: *id,
                at: *at,
                len: *len,
            },
            Command::Place { id } => CommandRef::Place { id: *id },
            Command::Block { id, i } => CommandRef::Block { id: *id, i: *i },
            Command::Peek { word } => CommandRef::Peek { word: *word },
            Command::Walk => CommandRef::Walk,
            Command::Frag => CommandRef::Frag,
            Command::Steps => CommandRef::Steps,
            Command::Bound { slot_words, k } => CommandRef::Bound {
                slot_words: *slot_words,
                k: *k,
            },
            Command::Resize { id, bytes } => CommandRef::Resize {
                id: *id,
                bytes: *bytes,
            },
            Command::Slice => CommandRef::Slice,
            Command::Task { task } => CommandRef::Task { task: *task },
            Command::Quota { task, pages } => CommandRef::Quota {
                task: *task,
                pages: *pages,
            },
            Command::Need { task, bytes, count } => CommandRef::Need {
                task: *task,
                bytes: *bytes,
                count: *count,
            },
            Command::Admit { task } => CommandRef::Admit { task: *task },
        }
    }
}

impl<'a> CommandRef<'a> {
    /// The same command, with a copy of the bytes of a write. Its fields must be in the ranges of
    /// the grammar (`IsWellFormed`).
    pub fn to_command(self) -> Command
        requires { IsWellFormed (owned_command self) }
        ensures { result ≡ owned_command self.entry }
    {
        match self {
            CommandRef::Malloc { id, bytes } => Command::Malloc { id, bytes },
            CommandRef::Free { id } => Command::Free { id },
            CommandRef::Write { id, at, bytes } => match Payload::new(bytes) {
                Some(bytes) => Command::Write { id, at, bytes },
                None => unreachable!(),
            },
            CommandRef::Read { id, at, len } => Command::Read { id, at, len },
            CommandRef::Place { id } => Command::Place { id },
            CommandRef::Block { id, i } => Command::Block { id, i },
            CommandRef::Peek { word } => Command::Peek { word },
            CommandRef::Walk => Command::Walk,
            CommandRef::Frag => Command::Frag,
            CommandRef::Steps => Command::Steps,
            CommandRef::Bound { slot_words, k } => Command::Bound { slot_words, k },
            CommandRef::Resize { id, bytes } => Command::Resize { id, bytes },
            CommandRef::Slice => Command::Slice,
            CommandRef::Task { task } => Command::Task { task },
            CommandRef::Quota { task, pages } => Command::Quota { task, pages },
            CommandRef::Need { task, bytes, count } => Command::Need { task, bytes, count },
            CommandRef::Admit { task } => Command::Admit { task },
        }
    }
}
