ghost use Rattle.std.specs.Prelude.{◌≡◌, ◌++◌, ℕ, List, Some, Ok, Err};
ghost use Rattle.order_packets.specs.declared.down.Down.{Down};
ghost use Rattle.order_packets.specs.declared.feed_fault.FeedFault.{FeedFault};
ghost use Rattle.order_packets.specs.declared.up.Up.{Up};
ghost use Rattle.order_packets.specs.PacketBytes.{up_bytes, down_bytes, FitsUp, FitsDown};
ghost use Rattle.order_packets.specs.PacketReading.{up_at, down_at, packet_at};
ghost use Rattle.order_packets.specs.Feed.{IsEnd, ReadsAll};

/// A law of packets to the server: a stream that begins with a packet's spelling begins with that
/// packet, and then what follows it. The call does nothing.
#[tactic(auto, using(crate::proofs::PacketLemmas::up_again))]
pub fn up_is_read_back()
    ensures { (packet : Up) (rest : List ℕ) → FitsUp packet →
        packet_at up_at (up_bytes packet ++ rest) ≡ Ok (Some (packet, rest)) }
{}

/// A law of packets to a client: a stream that begins with a packet's spelling begins with that
/// packet, and then what follows it. The call does nothing.
#[tactic(auto, using(crate::proofs::PacketLemmas::down_again))]
pub fn down_is_read_back()
    ensures { (packet : Down) (rest : List ℕ) → FitsDown packet →
        packet_at down_at (down_bytes packet ++ rest) ≡ Ok (Some (packet, rest)) }
{}

/// A law of packets to the server: no spelling begins another. The call does nothing.
#[tactic(auto, using(crate::proofs::PacketLemmas::up_alone))]
pub fn no_up_begins_another()
    ensures { (packet other : Up) (rest more : List ℕ) → FitsUp packet → FitsUp other →
        up_bytes packet ++ rest ≡ up_bytes other ++ more → (packet ≡ other) × (rest ≡ more) }
{}

/// A law of packets to a client: no spelling begins another. The call does nothing.
#[tactic(auto, using(crate::proofs::PacketLemmas::down_alone))]
pub fn no_down_begins_another()
    ensures { (packet other : Down) (rest more : List ℕ) → FitsDown packet → FitsDown other →
        down_bytes packet ++ rest ≡ down_bytes other ++ more → (packet ≡ other) × (rest ≡ more) }
{}

/// A law of streams of packets: read from the first byte on to an end, that is to where no packet
/// is, the same bytes give the same packets and leave the same rest. So the packets that a feeder
/// gave are those of all bytes that it was fed, however they were cut. The call does nothing.
#[tactic(auto, using(crate::proofs::StreamLemmas::one_reading))]
pub fn a_stream_is_read_one_way()
    ensures up { (bytes rest more : List ℕ) (packets others : List Up) →
        ReadsAll up_at bytes packets rest → ReadsAll up_at bytes others more →
        IsEnd (packet_at up_at rest) → IsEnd (packet_at up_at more) →
        (packets ≡ others) × (rest ≡ more) }
    ensures down { (bytes rest more : List ℕ) (packets others : List Down) →
        ReadsAll down_at bytes packets rest → ReadsAll down_at bytes others more →
        IsEnd (packet_at down_at rest) → IsEnd (packet_at down_at more) →
        (packets ≡ others) × (rest ≡ more) }
{}

/// A law of streams of packets: a fault stands in its place however the stream goes on. The call
/// does nothing.
#[tactic(auto, using(crate::proofs::StreamLemmas::fault_stays))]
pub fn a_fault_stands_in_its_place()
    ensures up { (bytes more : List ℕ) (fault : FeedFault) →
        packet_at up_at bytes ≡ Err fault → packet_at up_at (bytes ++ more) ≡ Err fault }
    ensures down { (bytes more : List ℕ) (fault : FeedFault) →
        packet_at down_at bytes ≡ Err fault → packet_at down_at (bytes ++ more) ≡ Err fault }
{}
