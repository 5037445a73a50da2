//! What a server wrote to a link.

use crate::packets::read_packets;
use base::NoMemory;
use order_packets::{Down, write_down};
use std::alloc::Global;

/// What a server wrote to a link, with the entries of one column after those of another: the first
/// packet, then the entries of client 0, and so on. There is none where the bytes are no whole
/// packets, or where one after the first is no entry.
pub fn by_columns(alloc: Global, bytes: &[u8]) -> Result<Option<Vec<u8>>, NoMemory> {
    let Some(packets) = read_packets::<Down>(alloc, bytes)? else {
        return Ok(None);
    };
    let mut sorted = Vec::new(alloc);
    let Some((first, entries)) = packets.as_slice().split_first() else {
        return Ok(Some(sorted));
    };
    if !entries.iter().all(is_entry) {
        return Ok(None);
    }
    write_down(&mut sorted, first)?;
    for client in 0..=u8::MAX {
        append_column(&mut sorted, entries, client)?;
    }
    Ok(Some(sorted))
}

/// Whether a packet is an entry.
fn is_entry(packet: &Down) -> bool {
    matches!(packet, Down::Entry { .. })
}

/// Whether a packet is an entry of this client.
fn is_entry_of(packet: &Down, column: u8) -> bool {
    match packet {
        Down::Entry { client, .. } => *client == column,
        Down::Welcome { .. } | Down::Refused { .. } => false,
    }
}

/// Appends the entries of a client.
fn append_column(out: &mut Vec<u8>, entries: &[Down], client: u8) -> Result<(), NoMemory> {
    for entry in entries {
        if is_entry_of(entry, client) {
            write_down(out, entry)?;
        }
    }
    Ok(())
}
