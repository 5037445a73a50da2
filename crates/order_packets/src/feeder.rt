ghost use Rattle.std.specs.Prelude.{◌≡◌, ◌+◌, ◌<◌, ◌≤◌, ◌^◌, ◌++◌, [], List, ℕ, length};
ghost use Rattle.std.specs.Prelude.{OnOk, OnErr, IfOk};
ghost use Rattle.order_packets.specs.Feed.{unfed, more_fed, next_answer, HasGiven};
ghost use Rattle.order_packets.specs.Feed.{given_by, IfGiven, IfOpen};
ghost use Rattle.order_packets.specs.PacketBytes.{framed};

use crate::feed_fault::FeedFault;
use crate::first_reading::first_packet;
use crate::limits::MAX_PAYLOAD;
use crate::packet::Packet;
use base::NoMemory;
use std::alloc::Global;
use std::marker::{Model, PhantomData};

/// The length of the longest packet: its length in two bytes, and the longest payload.
const LONGEST_PACKET: usize = 2 + MAX_PAYLOAD as usize;

/// Packets of one direction from a stream that comes in pieces, however it was cut.
///
/// It is seen as the place of the next packet in the stream, the bytes from there on that it was
/// fed, and the fault that it has answered, if any. Only these bytes are kept: at most 257 after
/// each packet was asked for.
#[derive(Drop)]
pub struct Feeder<P> {
    bytes: Vec<u8>,
    taken: usize,
    at: u64,
    fault: Option<FeedFault>,
    packets: PhantomData<P>,
}

impl<P> Model for Feeder<P> {
    ghost use Rattle.std.specs.Prelude.{◌≤◌, ◌<◌, ◌+◌, ◌^◌, length, drop};
    ghost use Rattle.order_packets.specs.Feed.{Fed};

    ghost Value = { Fed };

    ghost view = { λ feeder. record {
      at = feeder.at;
      rest = drop feeder.taken feeder.bytes.items;
      fault = feeder.fault;
    } };

    ghost invariant = { λ feeder. (feeder.taken ≤ length feeder.bytes.items)
        × (feeder.at + length (drop feeder.taken feeder.bytes.items) < 2 ^ 64) };
}

impl<P: Packet> Feeder<P> {
    /// A feeder at the beginning of a stream, with room for the longest packet.
    pub fn create(alloc: Global) -> Result<Feeder<P>, NoMemory>
        ensures start { IfOk result (λ feeder. feeder ≡ unfed) }
        ensures stream { IfOk result (λ feeder. HasGiven P.at P.payload [] [] feeder) }
    {
        Ok(Feeder {
            bytes: Vec::with_capacity(alloc, LONGEST_PACKET)?,
            taken: 0,
            at: 0,
            fault: None,
            packets: PhantomData,
        })
    }

    /// Takes the next piece of the stream. The place, the length of what is held and that of the
    /// piece have a sum below 2^64. After a fault was answered nothing changes, and neither where
    /// memory runs out.
    pub fn feed(&mut self, piece: &[u8]) -> Result<(), NoMemory>
        requires { self.old.at + length self.old.rest + length piece.now < 2 ^ 64 }
        ensures ok { OnOk result (self.new ≡ more_fed self.old.fault self.old piece.now) }
        ensures stream { (all : List ℕ) (given : List P) →
            HasGiven P.at P.payload all given self.old →
            OnOk result (HasGiven P.at P.payload (all ++ piece.now) given self.new) }
        ensures err { OnErr result (self.new ≡ self.old) }
    {
        self.append(piece)
    }

    /// Takes the next piece of the stream, unless a fault was answered.
    fn append(&mut self, piece: &[u8]) -> Result<(), NoMemory>
        requires { self.old.at + length self.old.rest + length piece.now < 2 ^ 64 }
        ensures ok { OnOk result (self.new ≡ more_fed self.old.fault self.old piece.now) }
        ensures err { OnErr result (self.new ≡ self.old) }
    {
        if self.fault.is_some() {
            return Ok(());
        }
        self.drop_taken();
        self.bytes.extend_from_slice(piece)
    }

    /// Forgets the bytes of packets that were given, once they are at least as many as are kept: so
    /// each byte is moved at most once for each byte that was given.
    fn drop_taken(&mut self)
        ensures { self.new ≡ self.old }
    {
        if self.taken < self.bytes.len() - self.taken {
            return;
        }
        self.bytes.drain(..self.taken);
        self.taken = 0;
    }

    /// Gives the next packet.
    ///
    /// None exactly where what is held is less than a whole packet, with no fault so far. The fault
    /// that stands in the packet's place is the answer from then on.
    pub fn next(&mut self) -> Result<Option<P>, FeedFault>
        ensures answer { (result, self.new) ≡ next_answer P.at self.old.fault self.old }
        ensures spelled { IfGiven result (λ packet. self.old.rest ≡ framed (P.payload packet)
            ++ self.new.rest) }
        ensures stream { (all : List ℕ) (given : List P) →
            HasGiven P.at P.payload all given self.old →
            HasGiven P.at P.payload all (given ++ given_by result) self.new }
        ensures few { IfOpen result (length self.new.rest ≤ 257) }
    {
        self.take_next()
    }

    /// Takes the next packet from what is held.
    fn take_next(&mut self) -> Result<Option<P>, FeedFault>
        ensures answer { (result, self.new) ≡ next_answer P.at self.old.fault self.old }
        ensures spelled { IfGiven result (λ packet. self.old.rest ≡ framed (P.payload packet)
            ++ self.new.rest) }
        ensures few { IfOpen result (length self.new.rest ≤ 257) }
    {
        if let Some(fault) = self.fault {
            return Err(fault);
        }
        match first_packet::<P>(&self.bytes[self.taken..]) {
            Ok(Some((packet, length))) => {
                self.taken += length;
                self.at += length as u64;
                Ok(Some(packet))
            }
            Ok(None) => Ok(None),
            Err(fault) => {
                self.fault = Some(fault);
                Err(fault)
            }
        }
    }

    /// The place of the next packet in the stream, in bytes from its beginning.
    pub fn at(&self) -> u64
        ensures { result ≡ self.now.at }
    {
        self.at
    }

    /// How many bytes are held, those from the next packet on.
    pub fn held(&self) -> usize
        ensures { result ≡ length self.now.rest }
    {
        self.bytes.len() - self.taken
    }
}
