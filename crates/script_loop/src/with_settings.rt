//! A mode handler around another one: it also keeps the settings of the `heap` line. Mode `save` writes them into
//! the image.
ghost use Rattle.script_loop.specs.WithSettings.{Settled, settled, with_settings};

use crate::mode_handler::{ModeHandler, OpenFault};
use cf_base::{Failed, Settings};
use cf_io::Sink;
use script_reader::CommandRef;

/// The inner mode handler, `mode_handler`, and the settings of the `heap` line; none before that
/// line.
#[derive(Drop)]
pub struct WithSettings<A> {
    pub mode_handler: A,
    pub settings: Option<Settings>,
}

impl<H, A: ModeHandler<H>> ModeHandler<H> for WithSettings<A> {
    ghost State = { Settled A.State };

    ghost Plan = { A.Plan };

    ghost state = { λ w heap. settled (A.state w.mode_handler heap) w.settings };

    ghost semantics = { with_settings A.semantics };

    fn open<K: Sink>(
        &mut self,
        heap: &mut H,
        settings: &Settings,
        sink: &mut K,
    ) -> Result<(), OpenFault> {
        self.settings = Some(*settings);
        self.mode_handler.open(heap, settings, sink)
    }

    fn answer<K: Sink>(
        &mut self,
        heap: &mut H,
        command: CommandRef,
        sink: &mut K,
    ) -> Result<(), Failed> {
        self.mode_handler.answer(heap, command, sink)
    }
}
