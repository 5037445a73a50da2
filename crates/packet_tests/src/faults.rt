//! Faults of drills and scripts.

use drill_words::DrillFault;

/// The letter of a fault, and its line: `W` for a word, `N` for a number, `C` for a client, `O` for
/// too many orders and `E` for too many events; out of memory has `M`.
pub(crate) fn letter(fault: &DrillFault) -> (u8, u32) {
    let letter = match fault.cause() {
        "BadWord" => b'W',
        "BadNumber" => b'N',
        "NoSuchClient" => b'C',
        "TooManyOrders" => b'O',
        "TooManyEvents" => b'E',
        _ => b'M',
    };
    (letter, fault.line())
}
