ghost use Rattle.std.specs.Prelude.{◌≡◌, ◌≤◌, ◌<◌, nat_lt, length, IfOk, IsTrue};
ghost use Rattle.game_save.specs.Fields.{all_of, field_in, is_within, place_in, range_in};
ghost use Rattle.game_save.specs.Fields.{IsWithin, Reads};

use crate::save_fault::SaveFault;
use std::marker::Model;
use wire_bytes::Cursor;

/// The bytes of a save that are left, which are read field by field. A contract sees them with how
/// many there are in all.
#[derive(Drop)]
pub(crate) struct SaveCursor<'a> {
    total: usize,
    left: Cursor<'a>,
}

impl<'a> Model for SaveCursor<'a> {
    ghost use Rattle.game_save.specs.Fields.{Left};

    ghost Value = { Left };

    ghost view = { λ c. record { total = c.total; bytes = c.left } };
}

/// True where a number is from the least on and below the end.
fn is_within(least: u64, end: u64, number: u64) -> bool
    ensures value { result ≡ is_within least end number }
    ensures told { IsTrue result → IsWithin least end number }
{
    least <= number && number < end
}

impl<'a> SaveCursor<'a> {
    /// None of these bytes is read yet.
    pub(crate) fn over(bytes: &'a [u8]) -> Self
        ensures { result ≡ all_of bytes.entry.now }
    {
        SaveCursor {
            total: bytes.len(),
            left: Cursor::over(bytes),
        }
    }

    /// The place of the next byte, from 0.
    pub(crate) fn place(&self) -> u64
        ensures { result ≡ place_in self.now }
    {
        self.total.saturating_sub(self.left.left()) as u64
    }

    /// True where bytes are left.
    pub(crate) fn has_more(&self) -> bool
        ensures { result ≡ nat_lt 0 (length self.now.bytes) }
    {
        self.left.left() > 0
    }

    /// The next byte.
    #[tactic(auto, unfolding(crate::specs::Fields::field_in))]
    pub(crate) fn read_u8(&mut self) -> Result<u8, SaveFault>
        ensures { Reads (field_in 1) self.old self.new result }
    {
        let at = self.place();
        match self.left.read_u8() {
            Ok(number) => Ok(number),
            Err(_) => Err(SaveFault::Torn { at }),
        }
    }

    /// The number of the next two bytes.
    #[tactic(auto, unfolding(crate::specs::Fields::field_in))]
    pub(crate) fn read_u16(&mut self) -> Result<u16, SaveFault>
        ensures { Reads (field_in 2) self.old self.new result }
    {
        let at = self.place();
        match self.left.read_u16() {
            Ok(number) => Ok(number),
            Err(_) => Err(SaveFault::Torn { at }),
        }
    }

    /// The number of the next four bytes.
    #[tactic(auto, unfolding(crate::specs::Fields::field_in))]
    pub(crate) fn read_u32(&mut self) -> Result<u32, SaveFault>
        ensures { Reads (field_in 4) self.old self.new result }
    {
        let at = self.place();
        match self.left.read_u32() {
            Ok(number) => Ok(number),
            Err(_) => Err(SaveFault::Torn { at }),
        }
    }

    /// The number of the next eight bytes.
    #[tactic(auto, unfolding(crate::specs::Fields::field_in))]
    pub(crate) fn read_u64(&mut self) -> Result<u64, SaveFault>
        ensures { Reads (field_in 8) self.old self.new result }
    {
        let at = self.place();
        match self.left.read_u64() {
            Ok(number) => Ok(number),
            Err(_) => Err(SaveFault::Torn { at }),
        }
    }

    /// The next byte, a number from the least on and below the end.
    #[tactic(auto, unfolding(crate::specs::Fields::range_in))]
    pub(crate) fn u8_in(&mut self, least: u64, end: u64) -> Result<u8, SaveFault>
        ensures reads { Reads (range_in 1 least end) self.old self.new result }
        ensures within { IfOk result (IsWithin least end) }
    {
        let at = self.place();
        let number = self.read_u8()?;
        if !is_within(least, end, u64::from(number)) {
            return Err(SaveFault::BadWorld { at });
        }
        Ok(number)
    }

    /// The number of the next two bytes, from the least on and below the end.
    #[tactic(auto, unfolding(crate::specs::Fields::range_in))]
    pub(crate) fn u16_in(&mut self, least: u64, end: u64) -> Result<u16, SaveFault>
        ensures reads { Reads (range_in 2 least end) self.old self.new result }
        ensures within { IfOk result (IsWithin least end) }
    {
        let at = self.place();
        let number = self.read_u16()?;
        if !is_within(least, end, u64::from(number)) {
            return Err(SaveFault::BadWorld { at });
        }
        Ok(number)
    }

    /// The number of the next four bytes, from the least on and below the end.
    #[tactic(auto, unfolding(crate::specs::Fields::range_in))]
    pub(crate) fn u32_in(&mut self, least: u64, end: u64) -> Result<u32, SaveFault>
        ensures reads { Reads (range_in 4 least end) self.old self.new result }
        ensures within { IfOk result (IsWithin least end) }
    {
        let at = self.place();
        let number = self.read_u32()?;
        if !is_within(least, end, u64::from(number)) {
            return Err(SaveFault::BadWorld { at });
        }
        Ok(number)
    }

    /// The number of the next eight bytes, from the least on and below the end.
    #[tactic(auto, unfolding(crate::specs::Fields::range_in))]
    pub(crate) fn u64_in(&mut self, least: u64, end: u64) -> Result<u64, SaveFault>
        ensures reads { Reads (range_in 8 least end) self.old self.new result }
        ensures within { IfOk result (IsWithin least end) }
    {
        let at = self.place();
        let number = self.read_u64()?;
        if !is_within(least, end, number) {
            return Err(SaveFault::BadWorld { at });
        }
        Ok(number)
    }
}
