/// The greatest number of a port.
pub const MAX_PORT: u16 = 65_535;

/// UDP ports, from one number to another.
#[derive(Clone, Copy, Debug, PartialEq, Eq)]
pub struct PortRange {
    /// The lowest one, at least 1.
    pub first: u16,

    /// The highest one, at least `first`.
    pub last: u16,
}
