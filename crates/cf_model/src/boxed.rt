//! `Boxed`: a manager behind a box, and its implementation of `Manager`.

use crate::{Manager, StepBounds, Usage};
use cf_base::{
    AccessFault, Figures, Freed, Handle, Kind, NotLive, OutOfMemory, Refusal, ResizeFault, Resized,
    Settings, Totals,
};
use step_ledger::Steps;

/// A manager of any kind, behind a box. Each call of a `Boxed` makes the same call of `inner`, and the
/// state of the `Boxed` is that of `inner`. It claims no step bounds of its own (`StepBounds`).
#[derive(Drop)]
pub struct Boxed {
    pub inner: Box<dyn Manager>,
}

impl StepBounds for Boxed {
    ghost use Rattle.std.specs.Prelude.{None};

    ghost most = { None };
}

// Each call is that of the manager in the box.
impl Manager for Boxed {
    ghost state = { λ b. (Manager-box b.inner).Manager.state b.inner.value };

    fn kind(&self) -> Kind {
        self.inner.kind()
    }

    fn is_open(&self) -> bool {
        self.inner.is_open()
    }

    fn open_heap(&mut self, s: &Settings) -> Result<(), OutOfMemory> {
        self.inner.open_heap(s)
    }

    fn malloc(&mut self, bytes: u32, steps: &mut Steps) -> Result<Handle, Refusal> {
        self.inner.malloc(bytes, steps)
    }

    fn free(&mut self, h: Handle, steps: &mut Steps) -> Result<Freed, NotLive> {
        self.inner.free(h, steps)
    }

    fn write(
        &mut self,
        h: Handle,
        at: u32,
        bytes: &[u8],
        steps: &mut Steps,
    ) -> Result<(), AccessFault> {
        self.inner.write(h, at, bytes, steps)
    }

    fn read(
        &self,
        h: Handle,
        at: u32,
        out: &mut [u8],
        steps: &mut Steps,
    ) -> Result<(), AccessFault> {
        self.inner.read(h, at, out, steps)
    }

    fn resize(&mut self, h: Handle, bytes: u32, steps: &mut Steps) -> Result<Resized, ResizeFault> {
        self.inner.resize(h, bytes, steps)
    }

    fn set_bound(&mut self, slot_words: u32, k: u32) -> bool {
        self.inner.set_bound(slot_words, k)
    }

    fn place(&self, h: Handle, steps: &mut Steps) -> Option<u32> {
        self.inner.place(h, steps)
    }

    fn peek(&self, word: u32, steps: &mut Steps) -> Option<u64> {
        self.inner.peek(word, steps)
    }

    fn block(&self, h: Handle, i: u32, steps: &mut Steps) -> Option<u32> {
        self.inner.block(h, i, steps)
    }

    fn classes(&self) -> u32 {
        self.inner.classes()
    }

    fn figures(&self, c: u32) -> Option<Figures> {
        self.inner.figures(c)
    }

    fn totals(&self, steps: &mut Steps) -> Totals {
        self.inner.totals(steps)
    }

    fn length(&self, h: Handle, steps: &mut Steps) -> Option<u32> {
        self.inner.length(h, steps)
    }

    fn has_room(&self, bytes: u32, steps: &mut Steps) -> Result<(), Refusal> {
        self.inner.has_room(bytes, steps)
    }

    fn usage(&self) -> Usage {
        self.inner.usage()
    }

    fn cost(&self) -> u64 {
        self.inner.cost()
    }
}
