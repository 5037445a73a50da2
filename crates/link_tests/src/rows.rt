//! The rows of the tables: a line each, with bars between its columns.
use std::alloc::{AllocError, Global};
use std::fmt::Debug;
use std::test::Fail;

/// The first column of a row, and the columns after it.
pub fn cut(row: &str) -> Result<(&str, &str), Fail> {
    match row.split_once('|') {
        Some(parts) => Ok(parts),
        None => Err(Fail::new("a row has too few columns")),
    }
}

/// The bytes that these pairs of hexadecimal digits write.
pub fn bytes_of(alloc: Global, digits: &str) -> Result<Vec<u8>, Fail> {
    match hex::decode(alloc, digits) {
        Ok(bytes) => Ok(bytes),
        Err(_) => Err(Fail::new("a row has no bytes")),
    }
}

/// A value as `Debug` writes it.
pub fn text_of<T: Debug>(alloc: Global, value: &T) -> Result<String, AllocError> {
    format!(in alloc; "{value:?}")
}
