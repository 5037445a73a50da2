use crate::link_seat::LinkSeat;
use game_io::{Sink, Source};
use std::marker::Model;

/// A link that is served: its halves, and what it is served with.
#[derive(Drop)]
pub(crate) struct ServedLink<I: Source + Drop, O: Sink + Drop> {
    pub input: I,
    pub output: O,
    pub seat: LinkSeat,
}

impl<I: Source + Drop, O: Sink + Drop> Model for ServedLink<I, O> {
    ghost use Rattle.match_serve.specs.Seats.{PieceState};

    ghost Value = { PieceState };

    ghost view = { λ piece. record {
      seat = piece.seat;
      input = I.state piece.input;
      output = O.state piece.output;
    } };
}
