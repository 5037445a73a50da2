ghost use Rattle.std.specs.Prelude.{◌≡◌, ◌++◌, length, IfOk, MatchResult, Ok, Err};
ghost use Rattle.wire_bytes.specs.Field.{field_bytes};
ghost use Rattle.datagram_link.specs.Grams.{datagram_bytes};
ghost use Rattle.datagram_link.specs.Reading.{payload_at, data_at, ack_at, here_at, fields_at};
ghost use Rattle.datagram_link.specs.Reading.{gram_of, seen, ReturnsGram};

use crate::datagram::Datagram;
use crate::datagram_view::DatagramView;
use crate::gram_fault::GramFault;
use crate::limits::MAX_PAYLOAD;
use std::alloc::Global;
use wire_bytes::Cursor;

/// The payload of this length that bytes begin with, and the bytes after it.
#[tactic(auto, unfolding(crate::specs::Reading::payload_at))]
fn read_payload(size: u16, bytes: &[u8]) -> Result<(&[u8], &[u8]), GramFault>
    ensures reads { MatchResult result
        (λ read. payload_at size bytes.now ≡ Ok (read.0.now, read.1.now))
        (λ fault. payload_at size bytes.now ≡ Err fault) }
    ensures joined { IfOk result (λ read. bytes.now ≡ read.0.now ++ read.1.now) }
    ensures size { IfOk result (λ read. length read.0.now ≡ size) }
{
    if size == 0 || size > MAX_PAYLOAD {
        return Err(GramFault::BadLength);
    }
    let size = usize::from(size);
    if bytes.len() < size {
        return Err(GramFault::Short);
    }
    Ok(bytes.split_at(size))
}

/// Reads the fields of a Data.
#[tactic(auto, unfolding(crate::specs::Reading::data_at, crate::specs::Grams::data_bytes))]
fn read_data(bytes: &[u8]) -> Result<(DatagramView<'_>, &[u8]), GramFault>
    ensures reads { MatchResult result
        (λ read. data_at bytes.now ≡ Ok (seen read.0, read.1.now))
        (λ fault. data_at bytes.now ≡ Err fault) }
    ensures spelled { IfOk result (λ read. field_bytes 1 1 ++ bytes.now
        ≡ datagram_bytes (seen read.0) ++ read.1.now) }
{
    let mut c = Cursor::over(bytes);
    let number = c.read_u32()?;
    let size = c.read_u16()?;
    let (payload, rest) = read_payload(size, c.rest())?;
    Ok((DatagramView::Data { number, payload }, rest))
}

/// Reads the field of an Ack.
#[tactic(auto, unfolding(crate::specs::Reading::ack_at, crate::specs::Grams::ack_bytes))]
fn read_ack(bytes: &[u8]) -> Result<(DatagramView<'_>, &[u8]), GramFault>
    ensures reads { MatchResult result
        (λ read. ack_at bytes.now ≡ Ok (seen read.0, read.1.now))
        (λ fault. ack_at bytes.now ≡ Err fault) }
    ensures spelled { IfOk result (λ read. field_bytes 1 2 ++ bytes.now
        ≡ datagram_bytes (seen read.0) ++ read.1.now) }
{
    let mut c = Cursor::over(bytes);
    let next = c.read_u32()?;
    Ok((DatagramView::Ack { next }, c.rest()))
}

/// Reads the field of a Here.
#[tactic(auto, unfolding(crate::specs::Reading::here_at, crate::specs::Grams::here_bytes))]
fn read_here(bytes: &[u8]) -> Result<(DatagramView<'_>, &[u8]), GramFault>
    ensures reads { MatchResult result
        (λ read. here_at bytes.now ≡ Ok (seen read.0, read.1.now))
        (λ fault. here_at bytes.now ≡ Err fault) }
    ensures spelled { IfOk result (λ read. field_bytes 1 4 ++ bytes.now
        ≡ datagram_bytes (seen read.0) ++ read.1.now) }
{
    let mut c = Cursor::over(bytes);
    let port = c.read_u16()?;
    Ok((DatagramView::Here { port }, c.rest()))
}

/// Reads the fields of the datagram with this tag.
#[tactic(auto, unfolding(crate::specs::Reading::fields_at, crate::specs::Grams::call_bytes))]
fn read_fields(tag: u8, bytes: &[u8]) -> Result<(DatagramView<'_>, &[u8]), GramFault>
    ensures reads { MatchResult result
        (λ read. fields_at tag bytes.now ≡ Ok (seen read.0, read.1.now))
        (λ fault. fields_at tag bytes.now ≡ Err fault) }
    ensures spelled { IfOk result (λ read. field_bytes 1 tag ++ bytes.now
        ≡ datagram_bytes (seen read.0) ++ read.1.now) }
{
    match tag {
        1 => read_data(bytes),
        2 => read_ack(bytes),
        3 => Ok((DatagramView::Call, bytes)),
        4 => read_here(bytes),
        _ => Err(GramFault::BadTag),
    }
}

/// The datagram of these bytes, whose payload stands in them, or the first fault from the left. It
/// takes no memory.
#[tactic(auto, unfolding(crate::specs::Reading::gram_of))]
pub(crate) fn view_datagram(bytes: &[u8]) -> Result<DatagramView<'_>, GramFault>
    ensures reads { MatchResult result (λ view. gram_of bytes.now ≡ Ok (seen view))
        (λ fault. gram_of bytes.now ≡ Err fault) }
    ensures spelled { IfOk result (λ view. bytes.now ≡ datagram_bytes (seen view)) }
{
    let mut c = Cursor::over(bytes);
    let tag = c.read_u8()?;
    let (view, rest) = read_fields(tag, c.rest())?;
    if !rest.is_empty() {
        return Err(GramFault::TrailingBytes);
    }
    Ok(view)
}

/// The datagram of these bytes, all of them.
///
/// The first fault from the left is the answer: `Short` exactly where a field runs past the end,
/// `BadTag` at a first byte that is none of 1 to 4, `BadLength` at the length of a payload that is 0
/// or above [`MAX_PAYLOAD`], `TrailingBytes` where bytes follow the last field. `NoMemory` is out
/// of memory, and may take the place of any answer.
pub fn read_datagram(alloc: Global, bytes: &[u8]) -> Result<Datagram, GramFault>
    ensures reads { ReturnsGram result bytes.now }
    ensures spelled { IfOk result (λ datagram. bytes.now ≡ datagram_bytes datagram) }
{
    let view = view_datagram(bytes)?;
    let Ok(datagram) = view.to_datagram(alloc) else {
        return Err(GramFault::NoMemory);
    };
    Ok(datagram)
}
