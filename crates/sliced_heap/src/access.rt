//! Reads and writes bytes of the objects of an open sliced heap, also of an object in motion, whose words are in two
//! halves; returns an object's address and length; and reads a word of the region (`peek`).
ghost use Rattle.std.specs.Prelude.{◌≡◌, if◌then◌else◌, is_some, length, slice_get, IsErr};
ghost use Rattle.step_ledger.specs.Counting.{RoseBy};
ghost use Rattle.slice_model.specs.Runs.{Happens, Read, Write};
ghost use Rattle.sliced_heap.specs.Halves.{halves_of};
ghost use Rattle.sliced_heap.specs.Access.{IsSlicedFound, access_fault, bytes_or_fault, place_in, sliced_find_steps, sliced_length_in};
ghost use Rattle.sliced_heap.specs.Costs.{sliced_access_steps, sliced_length_steps};
ghost use Rattle.sliced_heap.specs.Heap.{job_of, sliced_seen};
ghost use Rattle.sliced_heap.specs.Layout.{IsValid, plan_of, sliced_order_in, sliced_state_of, working_of};

use crate::halves::{Halves, read_halves, read_word, write_halves};
use crate::open_heap::{OpenHeap, Pending};
use cf_base::{AccessFault, Handle};
use region::Header;
use step_ledger::Steps;

impl OpenHeap {
    /// In a sliced heap, returns word number `word` of the region, or `None` past the region's end.
    /// Costs one step; none past the end.
    pub fn peek(&self, word: u32, steps: &mut Steps) -> Option<u64>
        ensures value { result ≡ slice_get self.now.region word }
        ensures steps { RoseBy steps.old steps.new (if is_some result then 1 else 0) }
    {
        if word < self.region.len() {
            Some(self.region.read(word, steps))
        } else {
            None
        }
    }

    /// In a sliced heap, the address of object `h`, or `None` if the handle is not live. While a
    /// job moves the object, this is the address to which the job moves it. Costs one step.
    pub fn place(&self, h: Handle, steps: &mut Steps) -> Option<u32>
        requires { IsValid (sliced_seen self.now) }
        ensures value { result ≡ place_in (sliced_state_of (sliced_seen self.now)).held h.0 }
        ensures steps { RoseBy steps.old steps.new 1 }
    {
        self.proxies.lookup(h, steps)
    }

    /// In a sliced heap, the length of object `h` in bytes, or `None` if the handle is not live.
    /// Costs two steps; one if not live.
    pub fn length(&self, h: Handle, steps: &mut Steps) -> Option<u32>
        requires { IsValid (sliced_seen self.now) }
        ensures value { result ≡ sliced_length_in (sliced_state_of (sliced_seen self.now)).held h.0 }
        ensures steps { RoseBy steps.old steps.new (sliced_length_steps result) }
    {
        let Some(place) = self.proxies.lookup(h, steps) else {
            return None;
        };
        let header = read_word(&self.region, self.halves(h, place), 0, steps);
        Some(Header::unpack(header).length)
    }

    /// In a sliced heap, fills `out` with the bytes of object `h` from byte `at` on. Fails, with `out` unchanged,
    /// with `Unknown` if the handle is not live, else with `Range` if `at` plus their number exceeds the object's
    /// length. Costs two steps, and one for each word that holds one of the bytes; if it fails, one (`Unknown`) or
    /// two.
    pub fn read(
        &self,
        h: Handle,
        at: u32,
        out: &mut [u8],
        steps: &mut Steps,
    ) -> Result<(), AccessFault>
        requires { IsValid (sliced_seen self.now) }
        ensures step { Happens (plan_of (sliced_seen self.now)) (working_of (sliced_seen self.now)) (Read (record { number = h.0; from = at }) (length out.old)
            (bytes_or_fault result out.new)) (working_of (sliced_seen self.now)) }
        ensures refused { IsErr result → out.new ≡ out.old }
        ensures steps { RoseBy steps.old steps.new (sliced_access_steps result at (length out.old)) }
    {
        let len = out.len();
        let halves = self.find(h, at, len, steps)?;
        read_halves(&self.region, halves, at, out, steps);
        Ok(())
    }

    /// In a sliced heap, writes `bytes` into object `h` from byte `at` on. Fails, with nothing changed, with
    /// `Unknown` if the handle is not live, else with `Range` if `at` plus their number exceeds the object's length.
    /// Costs as many steps as a read of as many bytes from there.
    pub fn write(
        &mut self,
        h: Handle,
        at: u32,
        bytes: &[u8],
        steps: &mut Steps,
    ) -> Result<(), AccessFault>
        requires { IsValid (sliced_seen self.old) }
        ensures step { Happens (plan_of (sliced_seen self.old)) (working_of (sliced_seen self.old)) (Write (record { number = h.0; from = at }) bytes.now
            (access_fault result)) (working_of (sliced_seen self.new)) }
        ensures order { sliced_order_in (sliced_seen self.new) ≡ sliced_order_in (sliced_seen self.old) }
        ensures kept { IsValid (sliced_seen self.new) }
        ensures plan { plan_of (sliced_seen self.new) ≡ plan_of (sliced_seen self.old) }
        ensures steps { RoseBy steps.old steps.new (sliced_access_steps result at (length bytes.now)) }
    {
        let len = bytes.len();
        let halves = self.find(h, at, len, steps)?;
        write_halves(&mut self.region, halves, at, bytes, steps);
        Ok(())
    }

    /// In a sliced heap, returns the two halves in which the words of object `h` lie: those that
    /// the job has already moved to the object's address, and the others. Fails with `Unknown` if
    /// the handle is not live, else with `Range` if `at` and `count` sum to more than the object's
    /// length in bytes. Costs two steps; one at `Unknown`.
    fn find(
        &self,
        h: Handle,
        at: u32,
        count: usize,
        steps: &mut Steps,
    ) -> Result<Halves, AccessFault>
        requires { IsValid (sliced_seen self.now) }
        ensures found { IsSlicedFound (sliced_seen self.now) (record { number = h.0; from = at }) count result }
        ensures steps { RoseBy steps.old steps.new (sliced_find_steps result) }
    {
        let Some(place) = self.proxies.lookup(h, steps) else {
            return Err(AccessFault::Unknown);
        };
        let halves = self.halves(h, place);
        let length = Header::unpack(read_word(&self.region, halves, 0, steps)).length as usize;
        if length < count || length - count < at as usize {
            return Err(AccessFault::Range);
        }
        Ok(halves)
    }

    /// In a sliced heap, the two halves in which the words of object `h` with address `place` lie.
    /// Unless the pending job moves `h`, all its words are at that address.
    fn halves(&self, h: Handle, place: u32) -> Halves
        ensures { result ≡ halves_of (job_of self.now.job) h.0 place }
    {
        let together = Halves {
            to: place,
            from: place,
            done: 0,
        };
        match self.job {
            Pending::Idle => together,
            Pending::Clear(_) => together,
            Pending::Move(q, k) => {
                if q == h {
                    Halves {
                        to: place,
                        from: k.address,
                        done: k.done,
                    }
                } else {
                    together
                }
            }
        }
    }
}
