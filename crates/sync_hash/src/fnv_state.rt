ghost use Rattle.std.specs.Prelude.{◌≡◌, [], ◌∷◌};
ghost use Rattle.wire_bytes.specs.Field.{field_bytes};
ghost use Rattle.sync_hash.specs.Fnv.{fnv_start, fnv_from, fnv_of};

use std::marker::Model;

const START: u64 = 14_695_981_039_346_656_037;

const PRIME: u64 = 1_099_511_628_211;

/// The FNV-1a number of the bytes that were written so far.
#[derive(Drop)]
pub(crate) struct FnvState {
    hash: u64,
}

impl Model for FnvState {
    ghost use Rattle.std.specs.Prelude.{ℕ};

    ghost Value = { ℕ };

    ghost view = { λ fnv. fnv.hash };
}

impl FnvState {
    /// Before the first byte.
    pub(crate) fn new() -> FnvState
        ensures { result ≡ fnv_start }
    {
        FnvState { hash: START }
    }

    /// Goes on with these bytes.
    #[tactic(auto, unfolding(crate::specs::Fnv::fnv_step))]
    pub(crate) fn write(&mut self, bytes: &[u8])
        ensures { self.new ≡ fnv_from self.old bytes.now }
    {
        for byte in bytes {
            self.hash = (self.hash ^ u64::from(*byte)).wrapping_mul(PRIME);
        }
    }

    /// Goes on with one byte.
    pub(crate) fn write_u8(&mut self, number: u8)
        ensures { self.new ≡ fnv_from self.old (number ∷ []) }
    {
        self.write(&[number]);
    }

    /// Goes on with the two bytes of a number, the lowest first.
    #[tactic(auto, unfolding(wire_bytes::specs::Field::field_bytes))]
    pub(crate) fn write_u16(&mut self, number: u16)
        ensures { self.new ≡ fnv_from self.old (field_bytes 2 number) }
    {
        self.write(&number.to_le_bytes());
    }

    /// Goes on with the four bytes of a number, the lowest first.
    #[tactic(auto, unfolding(wire_bytes::specs::Field::field_bytes))]
    pub(crate) fn write_u32(&mut self, number: u32)
        ensures { self.new ≡ fnv_from self.old (field_bytes 4 number) }
    {
        self.write(&number.to_le_bytes());
    }

    /// Goes on with the eight bytes of a number, the lowest first.
    #[tactic(auto, unfolding(wire_bytes::specs::Field::field_bytes))]
    pub(crate) fn write_u64(&mut self, number: u64)
        ensures { self.new ≡ fnv_from self.old (field_bytes 8 number) }
    {
        self.write(&number.to_le_bytes());
    }

    /// The number of all bytes so far.
    pub(crate) fn finish(&self) -> u64
        ensures { result ≡ self.now }
    {
        self.hash
    }
}

/// FNV-1a of 64 bits, as published by Fowler, Noll and Vo: the number begins at
/// 14695981039346656037, and each byte is joined by exclusive or before the number is multiplied by
/// 1099511628211, modulo 2^64.
pub fn fnv(bytes: &[u8]) -> u64
    ensures { result ≡ fnv_of bytes.now }
{
    let mut state = FnvState::new();
    state.write(bytes);
    state.finish()
}
