//! `answer_each`: does one command of a script on each manager in order, and writes their replies, each
//! line after the name of the manager's kind. The run of each manager with its session must be in
//! progress (`IsGoing`), and the command well formed (`IsWellFormed`).
ghost use Rattle.std.specs.Prelude.{◌≡◌, ◌≤◌, is_some, length, map};
ghost use Rattle.std.specs.List.{All};
ghost use Rattle.run_model.specs.Terms.{IsGoing, IsWellFormed, owned_command, SinkFailsIf};
ghost use Rattle.cf_model.specs.Ordered.{KeepsPromise};
ghost use Rattle.cf_session.specs.Apply.{run_at};
ghost use Rattle.top_call.specs.SideBySide.{EachInPart, EachTurn, lead_of, zipped};
ghost use Rattle.top_call.specs.Progress.{AnswersNamed, AnswersWith};
ghost use Rattle.std.specs.Result.{is_err};

use cf_base::{Failed, Kind};
use cf_io::Sink;
use cf_model::Manager;
use cf_session::Session;
use script_reader::CommandRef;

/// In mode `compare`, does a command on each manager in order, in the session with the same index
/// (there must be as many sessions as managers), and writes each line of a manager's reply after
/// the name of the manager's kind. Returns `Failed` if the sink failed. Then the managers up to the
/// one whose reply was cut have done the command, and those after it have not.
pub fn answer_each<H: Manager, K: Sink>(
    sessions: &mut Vec<Session>,
    managers: &mut Vec<H>,
    command: CommandRef,
    sink: &mut K,
) -> Result<(), Failed>
    requires count { length sessions.old.items ≡ length managers.old.items }
    requires formed { IsWellFormed (owned_command command) }
    requires going { All IsGoing (zipped sessions.old.items (map (λ m. H.state m) managers.old.items)) }
    ensures step { AnswersWith EachTurn EachInPart (zipped sessions.old.items (map (λ m. H.state m) managers.old.items)) (K.state sink.old).written
        (owned_command command.entry)
        result (zipped sessions.new.items (map (λ m. H.state m) managers.new.items)) (K.state sink.new).written }
    ensures count { length sessions.new.items ≡ length managers.new.items }
    ensures going { All IsGoing (zipped sessions.new.items (map (λ m. H.state m) managers.new.items)) }
    ensures kinds { map (λ m. (H.state m).kind) managers.new.items ≡ map (λ m. (H.state m).kind) managers.old.items }
    ensures promise { map (λ m. is_some (H.state m).order) managers.new.items ≡ map (λ m. is_some (H.state m).order) managers.old.items }
    ensures sink { SinkFailsIf (is_err result) (K.state sink.old) (K.state sink.new) }
{
    for i in 0..managers.len() {
        match answer_one(&mut sessions[i], &mut managers[i], command, sink) {
            Ok(()) => {}
            Err(failed) => return Err(failed),
        }
    }
    Ok(())
}

/// In mode `compare`, does a command on one manager in its session, and writes each line of the
/// reply after the name of the manager's kind. Returns `Failed` if the sink failed; then the
/// command has taken effect, and a prefix of its reply was written.
fn answer_one<H: Manager, K: Sink>(
    session: &mut Session,
    manager: &mut H,
    command: CommandRef,
    sink: &mut K,
) -> Result<(), Failed>
    requires going { IsGoing (run_at session.old (H.state manager.old)) }
    requires formed { IsWellFormed (owned_command command) }
    ensures step { AnswersNamed (run_at session.old (H.state manager.old)) (K.state sink.old).written (owned_command command.entry)
        result (run_at session.new (H.state manager.new)) (K.state sink.new).written }
    ensures going { IsGoing (run_at session.new (H.state manager.new)) }
    ensures kind { (H.state manager.new).kind ≡ (H.state manager.old).kind }
    ensures promise { KeepsPromise (H.state manager.old) (H.state manager.new) }
    ensures sink { SinkFailsIf (is_err result) (K.state sink.old) (K.state sink.new) }
{
    session.apply_ref(manager, command, lead_bytes(manager.kind()), sink)?;
    Ok(())
}

/// The name of a kind, `cf`, `nm`, `tlsf` or `half`, and a space: in mode `compare` each line of a
/// manager's reply begins with these bytes.
pub fn lead_bytes(kind: Kind) -> &'static [u8]
    ensures value { result.now ≡ lead_of kind }
    ensures short { length result.now ≤ 8 }
{
    match kind {
        Kind::Moving => b"cf ",
        Kind::NonMoving => b"nm ",
        Kind::Tlsf => b"tlsf ",
        Kind::HalfFit => b"half ",
    }
}
