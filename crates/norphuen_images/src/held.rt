//! `HeldImages`: an open heap whose objects have ids, for a C library. Each call from C returns a code, and writes its other results
//! through references. An id is a number below 65,536. A call that is refused changes nothing.
ghost use Rattle.std.specs.Prelude.{◌≡◌, ◌≤◌, IfErr, IfOk, length};
ghost use Rattle.heap_image.specs.Heaps.{heap_image};
ghost use Rattle.std.specs.FinMap as map;
ghost use Rattle.norphuen_images.specs.CallerImages.{images_opening};
ghost use Rattle.norphuen_images.specs.Calls.{HoldsImage, IsImageBytesCall, IsImagesFreeCall, IsImagesLengthCall, IsImagesReadCall, IsImagesWriteCall, IsLoadFault, IsMakeCall, IsSaveCall, number_by};

use crate::slices::{SliceSink, SliceSource};
use c_base::{DONE, LIVE, NONE, Openable, RANGE, UNKNOWN, of_access, of_refusal};
use cf_base::{BytesNeeded, Handle, Settings};
use cf_model::Manager;
use heap_image::{LoadFault, Names, live_objects_have_an_image, load, save};
use id_table::Namer;
use moving_heap::MovingHeap;
use std::alloc::Global;
use std::marker::Model;
use std::mem::size_of;
use std::rt::Memory;
use step_ledger::Meter;

/// How many ids there are.
const IDS: u32 = 65_536;

/// The bytes of the table of ids.
const IDS_BYTES: u64 = 524_288;

/// The bytes of the memory block of an open heap.
const HELD_BYTES: u64 = 1512;

const _: () = prove!(size_of::<HeldImages>() == 1512);

/// An open heap, the ids of its objects, and its settings. Calls that count steps do so on
/// ledgers made from `memory`; nothing reads these counts.
#[derive(Drop)]
pub struct HeldImages {
    heap: MovingHeap,
    names: Names,
    settings: Settings,
    memory: Memory,
}

impl Model for HeldImages {
    ghost use Rattle.cf_base.specs.Settings.{profile_of};
    ghost use Rattle.id_table.specs.Sessions.{RunState, run_at};
    ghost use Rattle.norphuen_images.specs.State.{IsNamed, run_code};

    ghost Value = { RunState };

    ghost coded = { run_code };

    ghost view = { λ h. run_at h.names h.heap.state };

    ghost invariant = { λ h. IsNamed (profile_of h.settings) (run_at h.names h.heap.state) };
}

impl Openable for HeldImages {
    ghost opening = { images_opening };

    /// For C, the memory that opening a heap with ids asks for.
    fn bytes_needed(s: &Settings) -> BytesNeeded {
        let own = BytesNeeded::block(IDS_BYTES).and(BytesNeeded::block(HELD_BYTES));
        MovingHeap::bytes_needed(s).and(own)
    }

    /// For C, opens a heap in which no id has an object. Returns `None` if out of memory.
    fn open(memory: Memory, s: &Settings, _last: u32) -> Option<Box<HeldImages, Global>> {
        let alloc = Global::new(memory);
        let Ok(names) = Names::new(memory, alloc) else {
            return None;
        };
        let mut heap = MovingHeap::closed(alloc);
        match heap.open_heap(s) {
            Ok(()) => {}
            Err(_) => return None,
        }
        let held = HeldImages {
            heap,
            names,
            settings: *s,
            memory,
        };
        Box::new(alloc, held).ok()
    }

    /// The largest handle: 0, since objects with ids have no handles.
    fn last(&self) -> u32 {
        0
    }
}

impl HeldImages {
    /// Opens C's heap in a memory block of its own with the settings and the objects of an image, and with the bound `k`.
    /// `k` must be 1 to 64. Fails with `Bad` if the bytes are no image, and with `OutOfMemory` if out of memory.
    pub(crate) fn load(memory: Memory, bytes: &[u8], k: u32) -> Result<Box<HeldImages>, LoadFault>
        requires least { 1 ≤ k }
        requires most { k ≤ 64 }
        ensures ok { IfOk result (λ b. HoldsImage bytes.now k b.value) }
        ensures err { IfErr result (IsLoadFault bytes.now) }
    {
        let alloc = Global::new(memory);
        let Ok(mut names) = Names::new(memory, alloc) else {
            return Err(LoadFault::OutOfMemory);
        };
        let mut heap = MovingHeap::closed(alloc);
        let mut source = SliceSource {
            bytes,
            given: 0,
            calls: 0,
        };
        let mut settings = match load(&mut source, &mut heap, &mut names) {
            Ok(settings) => settings,
            Err(fault) => return Err(fault),
        };
        // With the bound 1 the load finds out whether the objects fit. Then each class has at most one partly full page, so every
        // greater bound holds too.
        heap.set_bounds(k);
        settings.k = k;
        // For its contract: each live id has 16 bits.
        let _first = names.handle(0);
        let held = HeldImages {
            heap,
            names,
            settings,
            memory,
        };
        match Box::new(alloc, held) {
            Ok(b) => Ok(b),
            Err(_) => Err(LoadFault::OutOfMemory),
        }
    }

    /// For C, the number of the handle of the object that an id names; `NONE` if no object has the id.
    fn number(&self, id: u32) -> u32
        ensures { result ≡ number_by (map.get self.now.session.ids id) }
    {
        let names = &self.names;
        if id >= IDS {
            return NONE;
        }
        match names.handle(id as u16) {
            Some(h) => h.0,
            None => NONE,
        }
    }

    /// For C, makes an object of `bytes` zeros under the id. Returns `DONE`; else `UNKNOWN` if the id is 65,536 or
    /// more, `LIVE` if an object has it already, or the code of the refused malloc: `SIZE`, `PROXY` or `SPACE`.
    pub fn make(&mut self, id: u32, bytes: u32) -> i32
        ensures { IsMakeCall self.old id bytes result self.new }
    {
        if id >= IDS {
            return UNKNOWN;
        }
        if self.names.handle(id as u16).is_some() {
            return LIVE;
        }
        let mut meter = Meter::for_library(self.memory);
        match self.heap.has_room(bytes, meter.steps()) {
            Err(cause) => of_refusal(cause),
            Ok(()) => {
                let _made = self.names.malloc(&mut self.heap, id as u16, bytes);
                // For its contract: each live id has 16 bits.
                let _first = self.names.handle(0);
                DONE
            }
        }
    }

    /// `HeldImages`: frees the object that C names by the id. Returns `DONE`, or `UNKNOWN` if no object has the id.
    pub fn free(&mut self, id: u32) -> i32
        ensures { IsImagesFreeCall self.old id result self.new }
    {
        if id >= IDS || self.names.handle(id as u16).is_none() {
            return UNKNOWN;
        }
        self.names.free(&mut self.heap, id as u16);
        // For its contract: each live id has 16 bits.
        let _first = self.names.handle(0);
        DONE
    }

    /// For C, writes the bytes into the object of the id, from its byte `at` on. Returns `DONE`; `UNKNOWN` if no object
    /// has the id, or `RANGE` if `at` plus their number exceeds the object's length.
    pub fn write(&mut self, id: u32, at: u32, bytes: &[u8]) -> i32
        ensures { IsImagesWriteCall self.old id at bytes.now result self.new }
    {
        let number = self.number(id);
        let mut meter = Meter::for_library(self.memory);
        match self.heap.write(Handle(number), at, bytes, meter.steps()) {
            Ok(()) => DONE,
            Err(cause) => of_access(cause),
        }
    }

    /// For C, fills `out` with the bytes of the object of the id, from its byte `at` on. Returns `DONE`; `UNKNOWN` if
    /// no object has the id, or `RANGE` if `at` plus their number exceeds the object's length, and then `out` is
    /// unchanged.
    pub fn read(&mut self, id: u32, at: u32, out: &mut [u8]) -> i32
        ensures { IsImagesReadCall self.old id at out.old result out.new self.new }
    {
        let number = self.number(id);
        let mut meter = Meter::for_library(self.memory);
        match self.heap.read(Handle(number), at, out, meter.steps()) {
            Ok(()) => DONE,
            Err(cause) => of_access(cause),
        }
    }

    /// For C, writes the length in bytes of the object of the id into `bytes`. Returns `DONE`, or `UNKNOWN` if no
    /// object has the id; then `bytes` is unchanged.
    pub fn length(&mut self, id: u32, bytes: &mut u32) -> i32
        ensures { IsImagesLengthCall self.old id bytes.old result bytes.new self.new }
    {
        let number = self.number(id);
        let mut meter = Meter::for_library(self.memory);
        match self.heap.length(Handle(number), meter.steps()) {
            Some(n) => {
                *bytes = n;
                DONE
            }
            None => UNKNOWN,
        }
    }

    /// For C, the length of the heap's image in bytes: 20, six for each object, and the objects'
    /// bytes.
    fn image_length(&self) -> u64
        ensures { result ≡ length (heap_image self.now) }
    {
        let mut meter = Meter::for_library(self.memory);
        let totals = self.heap.totals(meter.steps());
        live_objects_have_an_image();
        20 + 6 * u64::from(totals.live) + totals.asked
    }

    /// For C, writes the length of the heap's image, in bytes, into `bytes`. Always returns `DONE`.
    pub fn image_bytes(&mut self, bytes: &mut u64) -> i32
        ensures { IsImageBytesCall self.old result bytes.new self.new }
    {
        *bytes = self.image_length();
        DONE
    }

    /// For C, writes the heap's image to the start of `out`, and its length into `written`. Returns `DONE`, or `RANGE`
    /// if the image is longer than `out`; then nothing is written.
    pub fn save(&mut self, out: &mut [u8], written: &mut u64) -> i32
        ensures { IsSaveCall self.old (record { out = out.old; written = written.old }) result (record { out = out.new; written = written.new }) self.new }
    {
        let n = self.image_length();
        if (out.len() as u64) < n {
            return RANGE;
        }
        self.fill(&mut out[..n as usize]);
        *written = n;
        DONE
    }

    /// For C, fills a slice of the image's length with the image.
    fn fill(&self, out: &mut [u8])
        requires { length out.old ≡ length (heap_image self.now) }
        ensures { out.new ≡ heap_image self.now }
    {
        let mut sink = SliceSink {
            bytes: out,
            at: 0,
            faults: 0,
            failed: false,
        };
        self.save_to(&mut sink);
    }

    /// For C, writes the image to a sink over a slice of the image's length, to which nothing was written before.
    fn save_to(&self, sink: &mut SliceSink<'_>)
        requires none { sink.old.at ≡ 0 }
        requires exact { length sink.old.bytes.now ≡ length (heap_image self.now) }
        ensures same_reference { sink.new.bytes.ghost_name ≡ sink.old.bytes.ghost_name }
        ensures full { length sink.new.bytes.now ≡ length sink.old.bytes.now → sink.new.bytes.now ≡ heap_image self.now }
    {
        let mut meter = Meter::for_library(self.memory);
        // Whether the save fails or not, the image fills the slice.
        let _done = save(&self.settings, &self.heap, &self.names, sink, &mut meter);
    }
}
