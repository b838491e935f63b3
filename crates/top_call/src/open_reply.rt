//! Writes the reply of many managers to the `heap` line: a line with `ok` for each.
ghost use Rattle.std.specs.Prelude.{◌++◌, [], codes, map, ◌≡◌};
ghost use Rattle.run_model.specs.Terms.{led, Writes};
ghost use Rattle.top_call.specs.SideBySide.{lead_of, opened_reply};

use crate::answer::lead_bytes;
use cf_base::{Failed, Kind};
use cf_io::{Line, Sink, put_all};
use cf_model::Manager;

/// In mode `compare`, writes a line for each manager in order: the name of its kind, and `ok`. Returns `Failed` if the
/// sink failed; then a prefix of these lines was written.
pub fn put_opened<H: Manager, K: Sink>(managers: &Vec<H>, sink: &mut K) -> Result<(), Failed>
    ensures { Writes (K.state sink.old) (led [] (opened_reply (map (λ m. (H.state m).kind) managers.now.items))) result (K.state sink.new) }
{
    for i in 0..managers.len() {
        match put_opened_line(managers[i].kind(), sink) {
            Ok(()) => {}
            Err(failed) => return Err(failed),
        }
    }
    Ok(())
}

/// In mode `compare`, writes the line of one manager: the name of its kind, and `ok`. Returns `Failed` if the sink
/// failed; then a prefix of the line was written.
fn put_opened_line<K: Sink>(kind: Kind, sink: &mut K) -> Result<(), Failed>
    ensures { Writes (K.state sink.old) (lead_of kind ++ codes "ok\n") result (K.state sink.new) }
{
    let mut line = Line::new();
    line.push(lead_bytes(kind)).unwrap();
    line.push(b"ok\n").unwrap();
    put_all(sink, line.bytes())
}
