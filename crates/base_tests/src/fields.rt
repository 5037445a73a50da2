//! Numbers and their bytes by hand, and the end of the bytes.

use std::alloc::{AllocError, Global};
use std::test::Fail;
use wire_bytes::{Cursor, Short, write_u8, write_u16, write_u32, write_u64};

/// Bytes of fields of one, two, four and eight bytes.
fn written(alloc: Global, number: u64) -> Result<Vec<u8>, AllocError> {
    let mut out = Vec::new(alloc);
    write_u8(&mut out, (number % 256) as u8)?;
    write_u16(&mut out, (number % 65_536) as u16)?;
    write_u32(&mut out, (number % 4_294_967_296) as u32)?;
    write_u64(&mut out, number)?;
    Ok(out)
}

/// The sum of the four fields that `written` writes, or what was too short.
fn read(cursor: &mut Cursor<'_>) -> Result<u128, Short> {
    let byte = u128::from(cursor.read_u8()?);
    let two = u128::from(cursor.read_u16()?);
    let four = u128::from(cursor.read_u32()?);
    let eight = u128::from(cursor.read_u64()?);
    Ok(byte + two + four + eight)
}

#[test]
fn fields_are_little_endian(rt: HostRuntime) -> Result<(), Fail> {
    let bytes = written(rt.alloc(), 0x1122_3344_5566_7788)?;
    let want = [
        0x88, 0x88, 0x77, 0x88, 0x77, 0x66, 0x55, 0x88, 0x77, 0x66, 0x55, 0x44, 0x33, 0x22, 0x11,
    ];
    assert_eq!(rt; bytes.as_slice(), want.as_slice());
    let sum = 0x88 + 0x7788 + 0x5566_7788 + 0x1122_3344_5566_7788;
    assert_eq!(rt; read(&mut Cursor::over(&bytes)), Ok(sum));
    Ok(())
}

#[test]
fn too_few_bytes_are_short(rt: HostRuntime) {
    let bytes = [7; 15];
    for (length, need, have) in [
        (0, 1, 0),
        (1, 2, 0),
        (2, 2, 1),
        (6, 4, 3),
        (7, 8, 0),
        (14, 8, 7),
    ] {
        let mut cursor = Cursor::over(&bytes[..length]);
        assert_eq!(rt; read(&mut cursor), Err(Short { need, have }));
        assert_eq!(rt; cursor.left(), have);
    }
}
