//! `Namer` for a session: its calls make, write and free objects by the commands `m`, `w` and `f`,
//! and drop the replies.
ghost use Rattle.std.specs.Prelude.{◌≡◌, ◌≢◌};
ghost use Rattle.std.specs.Bool.{OnFalse, OnTrue};

use crate::outcome::Outcome;
use crate::session::Session;
use cf_base::Handle;
use cf_io::NullSink;
use cf_model::Manager;
use id_table::Namer;
use script_reader::CommandRef;

impl Namer for Session {
    ghost state = { λ s. s };

    fn handle(&self, id: u16) -> Option<Handle> {
        self.handle(id)
    }

    fn malloc<H: Manager>(&mut self, heap: &mut H, id: u16, bytes: u32) -> bool {
        match self.apply_ref(heap, CommandRef::Malloc { id, bytes }, b"", &mut NullSink) {
            Ok(outcome) => is_good(outcome),
            Err(_) => unreachable!(),
        }
    }

    fn write<H: Manager>(&mut self, heap: &mut H, id: u16, at: u32, bytes: &[u8]) {
        match self.apply_ref(
            heap,
            CommandRef::Write { id, at, bytes },
            b"",
            &mut NullSink,
        ) {
            Ok(_) => {}
            Err(_) => unreachable!(),
        }
    }

    fn free<H: Manager>(&mut self, heap: &mut H, id: u16) {
        match self.apply_ref(heap, CommandRef::Free { id }, b"", &mut NullSink) {
            Ok(_) => {}
            Err(_) => unreachable!(),
        }
    }
}

/// Whether the outcome of a command is `Good`: its reply is `ok` or begins with `=`.
fn is_good(outcome: Outcome) -> bool
    ensures good { OnTrue result (outcome ≡ Outcome.Good) }
    ensures other { OnFalse result (outcome ≢ Outcome.Good) }
{
    match outcome {
        Outcome::Good => true,
        Outcome::Refused | Outcome::Other => false,
    }
}
