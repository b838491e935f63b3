//! `Next`, the result of a call of the reader.
use crate::command::Command;
use cf_base::Settings;

/// The next item of a script, or why there is none.
#[derive(Debug, PartialEq, Eq, Drop)]
pub enum Next {
    /// The `heap` line, with its settings.
    Start(Settings),
    /// The next command.
    Command(Command),
    /// The bytes fed hold no further whole line: more must be fed, or the end of the script
    /// announced.
    NeedMore,
    /// The line of this number, counted from 1, isn't in the grammar, or isn't allowed at its
    /// place.
    Bad { line: u32 },
    /// The end of the script was announced, and no line is left.
    End,
}
