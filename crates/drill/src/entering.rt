ghost use Rattle.std.specs.Prelude.{◌≡◌};
ghost use Rattle.drill.specs.Entering.{entering_of};

use frame_core::Put;

/// What a client's column answered to orders, as a report prints it.
#[derive(Clone, Copy, Debug)]
pub enum Entering {
    /// The orders were added at their frame.
    Fixed,
    /// The same orders stand at the frame.
    Repeat,
    /// Another entry stands at the frame.
    Conflict,
    /// The client left at this frame, before that of the orders.
    Left(u32),
    /// The column has only this many plays, and the frame of the orders is above that.
    Ahead(u32),
    /// The column has all the plays that a match may have.
    Full,
}

/// The answer of a column, without the entry that contradicts.
pub(crate) fn entering_of(put: &Put) -> Entering
    ensures { result ≡ entering_of put.now }
{
    match put {
        Put::Fixed => Entering::Fixed,
        Put::Repeat => Entering::Repeat,
        Put::Conflict(_) => Entering::Conflict,
        Put::Left(at) => Entering::Left(*at),
        Put::Ahead(length) => Entering::Ahead(*length),
        Put::Full => Entering::Full,
    }
}
