ghost use Rattle.std.specs.Prelude.{◌≡◌, ◌++◌, OnOk, OnErr};
ghost use Rattle.wire_bytes.specs.Field.{field_bytes};

use base::NoMemory;
use byteorder::{ByteOrder, LittleEndian};

/// Appends a byte. Without memory `out` stays as it was.
#[tactic(auto, unfolding(crate::specs::Field::field_bytes))]
pub fn write_u8(out: &mut Vec<u8>, number: u8) -> Result<(), NoMemory>
    ensures ok { OnOk result (out.new.items ≡ out.old.items ++ field_bytes 1 number) }
    ensures err { OnErr result (out.new.items ≡ out.old.items) }
{
    out.extend_from_slice(&[number])
}

/// Appends the two bytes of a number, the lowest first. Without memory `out` stays as it was.
#[tactic(auto, unfolding(crate::specs::Field::field_bytes))]
pub fn write_u16(out: &mut Vec<u8>, number: u16) -> Result<(), NoMemory>
    ensures ok { OnOk result (out.new.items ≡ out.old.items ++ field_bytes 2 number) }
    ensures err { OnErr result (out.new.items ≡ out.old.items) }
{
    let mut field = [0; 2];
    LittleEndian::write_u16(&mut field, number);
    out.extend_from_slice(&field)
}

/// Appends the four bytes of a number, the lowest first. Without memory `out` stays as it was.
#[tactic(auto, unfolding(crate::specs::Field::field_bytes))]
pub fn write_u32(out: &mut Vec<u8>, number: u32) -> Result<(), NoMemory>
    ensures ok { OnOk result (out.new.items ≡ out.old.items ++ field_bytes 4 number) }
    ensures err { OnErr result (out.new.items ≡ out.old.items) }
{
    let mut field = [0; 4];
    LittleEndian::write_u32(&mut field, number);
    out.extend_from_slice(&field)
}

/// Appends the eight bytes of a number, the lowest first. Without memory `out` stays as it was.
#[tactic(auto, unfolding(crate::specs::Field::field_bytes))]
pub fn write_u64(out: &mut Vec<u8>, number: u64) -> Result<(), NoMemory>
    ensures ok { OnOk result (out.new.items ≡ out.old.items ++ field_bytes 8 number) }
    ensures err { OnErr result (out.new.items ≡ out.old.items) }
{
    let mut field = [0; 8];
    LittleEndian::write_u64(&mut field, number);
    out.extend_from_slice(&field)
}
