//! `NextRef`: what a call of the reader returns, like `Next`, but the bytes of a write are borrowed.
ghost use Rattle.std.specs.Prelude.{◌≡◌};
ghost use Rattle.script_reader.specs.Owned.{owned_next};
ghost use Rattle.script_reader.specs.Answered.{IsInRange};

use crate::command_ref::CommandRef;
use crate::next::Next;
use cf_base::Settings;

/// What a call of the reader returns; the variants are those of `Next`, but a write borrows its
/// bytes.
#[derive(Clone, Copy, Debug, PartialEq, Eq)]
pub enum NextRef<'a> {
    Start(Settings),
    Command(CommandRef<'a>),
    NeedMore,
    Bad { line: u32 },
    End,
}

impl<'a> NextRef<'a> {
    /// The same result of the reader, with a copy of the bytes of a write. The fields of a command
    /// must be in the ranges of the grammar.
    pub(crate) fn to_next(self) -> Next
        requires { IsInRange (owned_next self) }
        ensures { result ≡ owned_next self.entry }
    {
        match self {
            NextRef::Start(settings) => Next::Start(settings),
            NextRef::Command(command) => Next::Command(command.to_command()),
            NextRef::NeedMore => Next::NeedMore,
            NextRef::Bad { line } => Next::Bad { line },
            NextRef::End => Next::End,
        }
    }
}
