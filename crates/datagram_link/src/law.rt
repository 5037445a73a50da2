ghost use Rattle.std.specs.Prelude.{◌≡◌, Ok};
ghost use Rattle.datagram_link.specs.declared.datagram.Datagram.{Datagram};
ghost use Rattle.datagram_link.specs.Grams.{datagram_bytes, FitsDatagram};
ghost use Rattle.datagram_link.specs.Reading.{gram_of};

/// A law of datagrams: what is spelled so is read, as this datagram and no other. The call does
/// nothing.
#[tactic(auto, using(crate::proofs::ReadingLemmas::datagram_again))]
pub fn datagrams_are_read_back()
    ensures { (datagram : Datagram) → FitsDatagram datagram →
        gram_of (datagram_bytes datagram) ≡ Ok datagram }
{}
