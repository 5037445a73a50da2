ghost use Rattle.std.specs.Prelude.{◌≡◌, ◌++◌, ◌∷◌, [], length, IfOk, OnOk, OnErr};
ghost use Rattle.datagram_link.specs.Grams.{data_bytes, ack_bytes, here_bytes, call_bytes};
ghost use Rattle.datagram_link.specs.Grams.{datagram_bytes, IsPayload, IsSendable};

use crate::datagram::Datagram;
use crate::limits::MAX_DATAGRAM;
use base::NoMemory;
use std::alloc::Global;
use wire_bytes::{write_u8, write_u16, write_u32};

/// Appends the bytes of a Data with this payload.
#[tactic(auto, unfolding(crate::specs::Grams::data_bytes))]
pub(crate) fn append_data(out: &mut Vec<u8>, number: u32, payload: &[u8]) -> Result<(), NoMemory>
    requires { IsPayload payload.now }
    ensures { OnOk result (out.new.items ≡ out.old.items ++ data_bytes number payload.now) }
{
    write_u8(out, 1)?;
    write_u32(out, number)?;
    write_u16(out, payload.len() as u16)?;
    out.extend_from_slice(payload)
}

/// Appends the bytes of an Ack.
#[tactic(auto, unfolding(crate::specs::Grams::ack_bytes))]
fn append_ack(out: &mut Vec<u8>, next: u32) -> Result<(), NoMemory>
    ensures { OnOk result (out.new.items ≡ out.old.items ++ ack_bytes next) }
{
    write_u8(out, 2)?;
    write_u32(out, next)
}

/// Appends the bytes of a Here.
#[tactic(auto, unfolding(crate::specs::Grams::here_bytes))]
fn append_here(out: &mut Vec<u8>, port: u16) -> Result<(), NoMemory>
    ensures { OnOk result (out.new.items ≡ out.old.items ++ here_bytes port) }
{
    write_u8(out, 4)?;
    write_u16(out, port)
}

/// Appends the bytes of a Call.
#[tactic(auto, unfolding(crate::specs::Grams::call_bytes))]
fn append_call(out: &mut Vec<u8>) -> Result<(), NoMemory>
    ensures { OnOk result (out.new.items ≡ out.old.items ++ call_bytes) }
{
    write_u8(out, 3)
}

/// Appends the bytes of a datagram.
fn append_datagram(out: &mut Vec<u8>, d: &Datagram) -> Result<(), NoMemory>
    requires { IsSendable d.now }
    ensures { OnOk result (out.new.items ≡ out.old.items ++ datagram_bytes d.now) }
{
    match d {
        Datagram::Data { number, payload } => append_data(out, *number, payload.as_slice()),
        Datagram::Ack { next } => append_ack(out, *next),
        Datagram::Call => append_call(out),
        Datagram::Here { port } => append_here(out, *port),
    }
}

/// The one spelling of a datagram, whose payload has 1 to [`crate::MAX_PAYLOAD`] bytes. It fails
/// only where it is out of memory.
pub fn write_datagram(alloc: Global, d: &Datagram) -> Result<Vec<u8>, NoMemory>
    requires { IsSendable d.now }
    ensures { IfOk result (λ bytes. bytes.items ≡ datagram_bytes d.now) }
{
    let mut bytes = Vec::with_capacity(alloc, MAX_DATAGRAM)?;
    append_datagram(&mut bytes, d)?;
    Ok(bytes)
}

/// The bytes of an Ack. They take no memory.
#[tactic(auto, unfolding(crate::specs::Grams::ack_bytes, wire_bytes::specs::Field::field_bytes))]
pub(crate) fn ack_gram(next: u32) -> [u8; 5]
    ensures { result ≡ ack_bytes next }
{
    let field = next.to_le_bytes();
    [2, field[0], field[1], field[2], field[3]]
}
