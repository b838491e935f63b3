//! The reader of scripts: it turns the bytes of a script, fed in chunks of any size, into items by
//! the grammar of scripts: the `heap` line, commands, and the first bad line. Also the writer of a
//! command's line (`command_text`), a generator of commands (`Generator`), and laws of the three.
#![tactic(auto)]

mod command;
mod command_ref;
mod fields;
mod generator;
mod laws;
mod line;
mod line_text;
mod next;
mod next_ref;
mod payload;
mod payload_buffer;
mod read_back;
mod reader;
mod stage;
mod tokens;

pub use command::Command;
pub use command_ref::CommandRef;
pub use generator::Generator;
pub use laws::{answers_are_items, answers_come_exactly, items_stay};
pub use line_text::command_text;
pub use next::Next;
pub use next_ref::NextRef;
pub use payload::Payload;
pub use payload_buffer::PayloadBuffer;
pub use read_back::{
    commands_are_read_back, generated_scripts_are_read_back, scripts_are_read_back,
};
pub use reader::Reader;
