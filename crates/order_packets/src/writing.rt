ghost use Rattle.std.specs.Prelude.{◌≡◌, ◌++◌, ◌≤◌, OnOk, OnErr, length};
ghost use Rattle.wire_bytes.specs.Write.{Extends};
ghost use Rattle.order_packets.specs.PacketBytes.{up_payload, up_bytes, down_payload, down_bytes};

use crate::down::Down;
use crate::up::Up;
use base::NoMemory;
use game_orders::{Entry, orders_length, write_orders};
use wire_bytes::{write_u8, write_u16, write_u32, write_u64};

/// How many bytes a packet's payload has, at most 166.
#[tactic(auto, using(crate::proofs::PacketLemmas::sizes), unfolding(crate::specs::PacketBytes::up_payload))]
fn up_length(p: &Up) -> usize
    ensures value { result ≡ length (up_payload p.now) }
    ensures limit { result ≤ 166 }
{
    match p {
        Up::Hello { .. } => 11,
        Up::Orders { frame: _, orders } => 5 + orders_length(orders),
        Up::Sync { .. } => 13,
        Up::Bye => 1,
    }
}

/// Appends a packet's payload.
#[tactic(auto, using(wire_bytes::proofs::WriteLemmas::written), unfolding(crate::specs::PacketBytes::up_payload))]
fn append_up_payload(out: &mut Vec<u8>, p: &Up) -> Result<(), NoMemory>
    ensures ok { OnOk result (out.new.items ≡ out.old.items ++ up_payload p.now) }
    ensures err { OnErr result (Extends out.old.items out.new.items) }
{
    match p {
        Up::Hello { version, rules } => {
            write_u8(out, 1)?;
            write_u16(out, *version)?;
            write_u64(out, *rules)
        }
        Up::Orders { frame, orders } => {
            write_u8(out, 2)?;
            write_u32(out, *frame)?;
            write_orders(out, orders)
        }
        Up::Sync { frame, hash } => {
            write_u8(out, 3)?;
            write_u32(out, *frame)?;
            write_u64(out, *hash)
        }
        Up::Bye => write_u8(out, 4),
    }
}

/// Appends the length of a packet's payload, and the payload.
#[tactic(auto, using(wire_bytes::proofs::WriteLemmas::written), unfolding(crate::specs::PacketBytes::framed))]
fn append_up(out: &mut Vec<u8>, p: &Up) -> Result<(), NoMemory>
    ensures ok { OnOk result (out.new.items ≡ out.old.items ++ up_bytes p.now) }
    ensures err { OnErr result (Extends out.old.items out.new.items) }
{
    write_u16(out, up_length(p) as u16)?;
    append_up_payload(out, p)
}

/// Appends the one spelling of a packet to the server. Without memory `out` stays as it was.
pub fn write_up(out: &mut Vec<u8>, p: &Up) -> Result<(), NoMemory>
    ensures ok { OnOk result (out.new.items ≡ out.old.items ++ up_bytes p.now) }
    ensures err { OnErr result (out.new.items ≡ out.old.items) }
{
    let start = out.len();
    let written = append_up(out, p);
    if written.is_err() {
        out.truncate(start);
    }
    written
}

/// How many bytes a packet's payload has, at most 167.
#[tactic(auto, using(crate::proofs::PacketLemmas::sizes), unfolding(crate::specs::PacketBytes::down_payload))]
fn down_length(p: &Down) -> usize
    ensures value { result ≡ length (down_payload p.now) }
    ensures limit { result ≤ 167 }
{
    match p {
        Down::Welcome { .. } => 8,
        Down::Refused { .. } => 2,
        Down::Entry {
            entry: Entry::Play(orders),
            ..
        } => 6 + orders_length(orders),
        Down::Entry {
            entry: Entry::Leave,
            ..
        } => 6,
    }
}

/// Appends a packet's payload.
#[tactic(auto, using(wire_bytes::proofs::WriteLemmas::written), unfolding(crate::specs::PacketBytes::down_payload))]
fn append_down_payload(out: &mut Vec<u8>, p: &Down) -> Result<(), NoMemory>
    ensures ok { OnOk result (out.new.items ≡ out.old.items ++ down_payload p.now) }
    ensures err { OnErr result (Extends out.old.items out.new.items) }
{
    match p {
        Down::Welcome {
            client,
            clients,
            lag,
            seed,
        } => {
            write_u8(out, 17)?;
            write_u8(out, *client)?;
            write_u8(out, *clients)?;
            write_u8(out, *lag)?;
            write_u32(out, *seed)
        }
        Down::Refused { code } => {
            write_u8(out, 18)?;
            write_u8(out, *code)
        }
        Down::Entry {
            client,
            frame,
            entry: Entry::Play(orders),
        } => {
            write_u8(out, 19)?;
            write_u8(out, *client)?;
            write_u32(out, *frame)?;
            write_orders(out, orders)
        }
        Down::Entry {
            client,
            frame,
            entry: Entry::Leave,
        } => {
            write_u8(out, 20)?;
            write_u8(out, *client)?;
            write_u32(out, *frame)
        }
    }
}

/// Appends the length of a packet's payload, and the payload.
#[tactic(auto, using(wire_bytes::proofs::WriteLemmas::written), unfolding(crate::specs::PacketBytes::framed))]
fn append_down(out: &mut Vec<u8>, p: &Down) -> Result<(), NoMemory>
    ensures ok { OnOk result (out.new.items ≡ out.old.items ++ down_bytes p.now) }
    ensures err { OnErr result (Extends out.old.items out.new.items) }
{
    write_u16(out, down_length(p) as u16)?;
    append_down_payload(out, p)
}

/// Appends the one spelling of a packet to a client. Without memory `out` stays as it was.
pub fn write_down(out: &mut Vec<u8>, p: &Down) -> Result<(), NoMemory>
    ensures ok { OnOk result (out.new.items ≡ out.old.items ++ down_bytes p.now) }
    ensures err { OnErr result (out.new.items ≡ out.old.items) }
{
    let start = out.len();
    let written = append_down(out, p);
    if written.is_err() {
        out.truncate(start);
    }
    written
}
