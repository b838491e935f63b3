//! `Payload`: the bytes that a write command writes, owned by the command.
ghost use Rattle.std.specs.Prelude.{◌≡◌, ◌≤◌, ◌<◌, ◌⊎◌, length, MatchOption};

use arrayvec::ArrayVec;
use cf_base::CHUNK;
use std::marker::Model;

/// The bytes of one write, from 1 to 4,096 of them, in the struct itself. A `PayloadBuffer` instead is filled
/// again with the bytes of each write.
#[derive(Debug, PartialEq, Eq, Drop)]
pub struct Payload {
    bytes: ArrayVec<u8, CHUNK>,
}

impl Model for Payload {
    ghost use Rattle.std.specs.Prelude.{ℕ, List, ◌≤◌, length};
    ghost use Rattle.cf_base.specs.declared.numbers.TheConstants.{CHUNK};

    ghost Value = { List ℕ };

    ghost view = { λ p. p.bytes.items };

    ghost inverse = { λ bytes. record { bytes = record { items = bytes } } };

    ghost invariant = { λ p. (1 ≤ length p.bytes.items) × (length p.bytes.items ≤ CHUNK) };
}

impl Payload {
    /// Returns a payload of these bytes. `None` if and only if there are no bytes or more than 4,096.
    pub fn new(bytes: &[u8]) -> Option<Payload>
        ensures { MatchOption result ((length bytes.now ≡ 0) ⊎ (CHUNK < length bytes.now))
            (λ p. (p ≡ bytes.now) × (1 ≤ length bytes.now) × (length bytes.now ≤ CHUNK)) }
    {
        if bytes.len() == 0 {
            return None;
        }
        let mut kept = ArrayVec::new();
        match kept.try_extend_from_slice(bytes) {
            Ok(()) => Some(Payload { bytes: kept }),
            Err(_) => None,
        }
    }

    /// The payload's bytes, from 1 to 4,096 of them.
    pub fn bytes(&self) -> &[u8]
        ensures value { result.now ≡ self.now }
        ensures some { 1 ≤ length self.now }
        ensures fits { length self.now ≤ CHUNK }
    {
        self.bytes.as_slice()
    }
}
