use crate::sent_columns::by_columns;
use crate::sent_reports::without_reports;
use base::NoMemory;
use std::alloc::Global;

/// What must have been written to a link.
#[derive(Drop)]
pub enum Sent<'a> {
    /// These bytes.
    Whole(&'a [u8]),
    /// These packets of a server, whose entries may come in any order that keeps that of each
    /// column: here one column stands after another.
    ByColumns(&'a [u8]),
    /// These packets of a player, and any reports between them.
    BesideReports(&'a [u8]),
}

impl Sent<'_> {
    /// Whether what was written is that.
    pub fn is_in(&self, alloc: Global, written: &[u8]) -> Result<bool, NoMemory> {
        match self {
            Sent::Whole(bytes) => Ok(written == *bytes),
            Sent::ByColumns(bytes) => Ok(is_same(by_columns(alloc, written)?, *bytes)),
            Sent::BesideReports(bytes) => Ok(is_same(without_reports(alloc, written)?, *bytes)),
        }
    }
}

/// Whether there are bytes, and they are these.
fn is_same(found: Option<Vec<u8>>, wanted: &[u8]) -> bool {
    match found {
        Some(bytes) => bytes.as_slice() == wanted,
        None => false,
    }
}
