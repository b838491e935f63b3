//! The stages of a script, which determine whether a line is allowed: first the `heap` line, then
//! any `k` commands, then the other commands.
ghost use Rattle.std.specs.Prelude.{◌≡◌};
ghost use Rattle.script_reader.specs.Answered.{saying_if, stage_said};
ghost use Rattle.script_reader.specs.Items as place;
ghost use Rattle.script_reader.specs.Owned.{owned_command, owned_next};

use crate::command_ref::CommandRef;
use crate::next_ref::NextRef;

/// The stage that a script is at after the lines read so far. It determines which lines are allowed next.
#[derive(Clone, Copy, Debug, PartialEq, Eq)]
pub enum Stage {
    /// No item was read; only the `heap` line may follow.
    Opening,
    /// Only the `heap` line and maybe `k` commands were read; any command may follow.
    Bounding,
    /// A command other than `k` was read; any command but `k` may follow.
    Running,
}

/// The stage after one more line. `formed` is whether the line is in the grammar; if it is, `next` has its
/// command or settings. `None` if the line isn't in the grammar, or isn't allowed at this stage.
pub fn stage_after(stage: Stage, formed: bool, next: NextRef) -> Option<Stage>
    ensures { result ≡ stage_said stage (saying_if formed (owned_next next.entry)) }
{
    if !formed {
        return None;
    }
    match next {
        NextRef::Start(_) => match stage {
            Stage::Opening => Some(Stage::Bounding),
            _ => None,
        },
        NextRef::Command(command) => stage_after_command(stage, is_bound(command)),
        _ => None,
    }
}

/// The stage after one more command; `bounds` is whether the command is `k`. `None` if the command isn't
/// allowed at this stage.
fn stage_after_command(stage: Stage, bounds: bool) -> Option<Stage>
    ensures { result ≡ place.stage_after_command stage bounds }
{
    match stage {
        Stage::Opening => None,
        Stage::Bounding => Some(if bounds {
            Stage::Bounding
        } else {
            Stage::Running
        }),
        Stage::Running => { if bounds { None } else { Some(Stage::Running) } }
    }
}

/// Whether the command is `k`, which sets the bound of a class.
fn is_bound(command: CommandRef) -> bool
    ensures { result ≡ place.is_bound (owned_command command.entry) }
{
    matches!(command, CommandRef::Bound { .. })
}
