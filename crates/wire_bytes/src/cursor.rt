ghost use Rattle.std.specs.Prelude.{◌≡◌, ◌≤◌, ◌<◌, ℕ, List, length, IfOk, IfErr, OnErr};
ghost use Rattle.wire_bytes.specs.Read.{ReadsField, TakesField};

use crate::short::Short;
use byteorder::{ByteOrder, LittleEndian};
use std::marker::Model;

/// Bytes that are read field by field, from the first on. A contract sees it as the bytes that are
/// left.
#[derive(Drop)]
pub struct Cursor<'a> {
    left: &'a [u8],
}

impl<'a> Model for Cursor<'a> {
    ghost Value = { List ℕ };

    ghost view = { λ c. c.left.now };
}

/// The bytes of the first field of this width, and the bytes after it.
fn split_field(bytes: &[u8], width: usize) -> (&[u8], &[u8])
    requires { width ≤ length bytes.now }
    ensures { TakesField width bytes.now result.1.now result.0.now }
{
    bytes.split_at(width)
}

impl<'a> Cursor<'a> {
    /// A cursor over all of these bytes.
    pub fn over(bytes: &'a [u8]) -> Self
        ensures { result ≡ bytes.entry.now }
    {
        Cursor { left: bytes }
    }

    /// How many bytes are left.
    pub fn left(&self) -> usize
        ensures { result ≡ length self.now }
    {
        self.left.len()
    }

    /// The bytes that are left.
    pub fn rest(&self) -> &'a [u8]
        ensures { result.now ≡ self.now }
    {
        self.left
    }

    /// The bytes of the next field of this width.
    fn take(&mut self, width: usize) -> Result<&'a [u8], Short>
        ensures ok { IfOk result (λ field. TakesField width self.old self.new field.now) }
        ensures few { OnErr result (length self.old < width) }
        ensures err { OnErr result (self.new ≡ self.old) }
        ensures short { IfErr result
            (λ short. short ≡ record { need = width; have = length self.old }) }
    {
        let left = self.left;
        if left.len() < width {
            return Err(Short {
                need: width,
                have: left.len(),
            });
        }
        let (field, rest) = split_field(left, width);
        self.left = rest;
        Ok(field)
    }

    /// The next byte.
    ///
    /// `Short` exactly where no byte is left; then the cursor stays.
    #[tactic(auto, unfolding(crate::specs::Read::field_at))]
    pub fn read_u8(&mut self) -> Result<u8, Short>
        ensures { ReadsField 1 self.old self.new result }
    {
        let field = self.take(1)?;
        Ok(field[0])
    }

    /// The next two bytes as a number, the lowest first.
    ///
    /// `Short` exactly where fewer are left; then the cursor stays.
    #[tactic(auto, unfolding(crate::specs::Read::field_at))]
    pub fn read_u16(&mut self) -> Result<u16, Short>
        ensures { ReadsField 2 self.old self.new result }
    {
        let field = self.take(2)?;
        Ok(LittleEndian::read_u16(field))
    }

    /// The next four bytes as a number, the lowest first.
    ///
    /// `Short` exactly where fewer are left; then the cursor stays.
    #[tactic(auto, unfolding(crate::specs::Read::field_at))]
    pub fn read_u32(&mut self) -> Result<u32, Short>
        ensures { ReadsField 4 self.old self.new result }
    {
        let field = self.take(4)?;
        Ok(LittleEndian::read_u32(field))
    }

    /// The next eight bytes as a number, the lowest first.
    ///
    /// `Short` exactly where fewer are left; then the cursor stays.
    #[tactic(auto, unfolding(crate::specs::Read::field_at))]
    pub fn read_u64(&mut self) -> Result<u64, Short>
        ensures { ReadsField 8 self.old self.new result }
    {
        let field = self.take(8)?;
        Ok(LittleEndian::read_u64(field))
    }
}
