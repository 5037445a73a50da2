ghost use Rattle.std.specs.Prelude.{◌≡◌, ◌≤◌, ◌∷◌, [], IfOk, IfErr, Ok, Some, None};
ghost use Rattle.datagram_link.specs.Grams.{data_bytes, data_grams, IsPayload};
ghost use Rattle.datagram_link.specs.Sender.{nothing_offered};
ghost use Rattle.datagram_link.specs.Receiver.{nothing_arrived};
ghost use Rattle.datagram_link.specs.Turning.{Turns, Does, SendsAll, turned, turned_by};
ghost use Rattle.datagram_link.specs.declared.datagram.Datagram.TheVariants as Datagram;

use crate::arrival::Arrival;
use crate::datagram_view::DatagramView;
use crate::limits::{MAX_DATAGRAM, RECEIVE_ROOM};
use crate::post::Post;
use crate::reading::view_datagram;
use crate::receiver::Receiver;
use crate::sender::Sender;
use crate::turn::Turn;
use crate::turn_fault::TurnFault;
use crate::writing::{ack_gram, append_data};
use base::NoMemory;
use std::alloc::Global;

/// One end of a link: what it sends and what it receives.
#[derive(Drop)]
pub struct End {
    /// The half that sends.
    pub sender: Sender,
    /// The half that receives.
    pub receiver: Receiver,
}

impl End {
    /// An end that was offered nothing, and to which nothing came. It fails only where it is out of
    /// memory.
    pub fn create(alloc: Global) -> Result<End, NoMemory>
        ensures sender { IfOk result (λ end. end.sender ≡ nothing_offered) }
        ensures receiver { IfOk result (λ end. end.receiver ≡ nothing_arrived) }
    {
        let sender = Sender::create(alloc)?;
        let receiver = Receiver::create(alloc)?;
        Ok(End { sender, receiver })
    }

    /// Makes one turn: receives once, takes what came, and sends.
    ///
    /// `Quiet` where no datagram waited: then each unacknowledged payload is sent, in order.
    /// `Refused` where the bytes that came are no datagram: then nothing is sent, and the end stays
    /// as it was. `Took` otherwise: an Ack goes to the sender; a Data goes to the receiver, and an
    /// Ack of the receiver's next number is sent; a Call and a Here change nothing.
    ///
    /// `Failed` only where the post's count of faults rose in this call. After a receive that
    /// failed nothing has changed. After a send that failed the end is as after the whole turn.
    /// `NoMemory` is out of memory, and leaves the end as it was; a datagram that came is lost then,
    /// as one that the network loses. After either a prefix of what the turn sends was sent.
    pub fn turn<P: Post>(&mut self, alloc: Global, post: &mut P) -> Result<Turn, TurnFault>
        ensures turn { Turns self.old self.new (P.state post.old) (P.state post.new) result }
        ensures later { (P.state post.old).faults ≤ (P.state post.new).faults }
    {
        let mut room = [0; RECEIVE_ROOM];
        match post.receive(&mut room) {
            Err(_) => Err(TurnFault::Failed),
            Ok(Arrival::Quiet) => self.turn_quiet(alloc, post),
            Ok(Arrival::Got(length)) => self.turn_by(alloc, &room[..length], post),
        }
    }

    /// Sends what is sent where nothing came.
    fn turn_quiet<P: Post>(&mut self, alloc: Global, post: &mut P) -> Result<Turn, TurnFault>
        ensures turn { Does (turned self.old None) self.old self.new
            (P.state post.old) (P.state post.new) result }
        ensures later { (P.state post.old).faults ≤ (P.state post.new).faults }
    {
        send_due(alloc, &self.sender, post)?;
        Ok(Turn::Quiet)
    }

    /// Takes the bytes that came, and sends what is sent after them.
    fn turn_by<P: Post>(
        &mut self,
        alloc: Global,
        gram: &[u8],
        post: &mut P,
    ) -> Result<Turn, TurnFault>
        ensures turn { Does (turned self.old (Some gram.now)) self.old self.new
            (P.state post.old) (P.state post.new) result }
        ensures later { (P.state post.old).faults ≤ (P.state post.new).faults }
    {
        match view_datagram(gram) {
            Err(fault) => Ok(Turn::Refused(fault)),
            Ok(DatagramView::Call | DatagramView::Here { .. }) => Ok(Turn::Took),
            Ok(DatagramView::Ack { next }) => {
                self.sender.acked(next);
                Ok(Turn::Took)
            }
            Ok(DatagramView::Data { number, payload }) => {
                self.take_data(alloc, number, payload, post)
            }
        }
    }

    /// Takes a payload that came, and acknowledges it.
    fn take_data<P: Post>(
        &mut self,
        alloc: Global,
        number: u32,
        payload: &[u8],
        post: &mut P,
    ) -> Result<Turn, TurnFault>
        ensures turn { Does (turned_by self.old (Ok (Datagram.Data number payload.now)))
            self.old self.new (P.state post.old) (P.state post.new) result }
        ensures later { (P.state post.old).faults ≤ (P.state post.new).faults }
    {
        let Ok(_) = self.receiver.arrived(alloc, number, payload) else {
            return Err(TurnFault::NoMemory);
        };
        let gram = ack_gram(self.receiver.next());
        match send_gram(post, &gram) {
            Ok(()) => Ok(Turn::Took),
            Err(_) => Err(TurnFault::Failed),
        }
    }
}

/// Sends a datagram.
fn send_gram<P: Post>(post: &mut P, gram: &[u8]) -> Result<(), TurnFault>
    ensures sent { SendsAll (gram.now ∷ []) (P.state post.old) (P.state post.new) result }
    ensures failed { IfErr result (λ fault. fault ≡ TurnFault.Failed) }
    ensures later { (P.state post.old).faults ≤ (P.state post.new).faults }
{
    match post.send(gram) {
        Ok(()) => Ok(()),
        Err(_) => Err(TurnFault::Failed),
    }
}

/// Sends a Data with this payload. `room` is for its bytes.
fn send_data<P: Post>(
    room: &mut Vec<u8>,
    number: u32,
    payload: &[u8],
    post: &mut P,
) -> Result<(), TurnFault>
    requires { IsPayload payload.now }
    ensures sent { SendsAll (data_bytes number payload.now ∷ [])
        (P.state post.old) (P.state post.new) result }
    ensures later { (P.state post.old).faults ≤ (P.state post.new).faults }
{
    room.clear();
    let Ok(()) = append_data(room, number, payload) else {
        return Err(TurnFault::NoMemory);
    };
    send_gram(post, room)
}

/// Sends each unacknowledged payload, in order.
fn send_due<P: Post>(alloc: Global, sender: &Sender, post: &mut P) -> Result<(), TurnFault>
    ensures sent { SendsAll (data_grams sender.now.acknowledged sender.now.waiting)
        (P.state post.old) (P.state post.new) result }
    ensures later { (P.state post.old).faults ≤ (P.state post.new).faults }
{
    let Ok(mut room) = Vec::with_capacity(alloc, MAX_DATAGRAM) else {
        return Err(TurnFault::NoMemory);
    };
    for i in 0..sender.waiting() {
        let (number, payload) = sender.due_at(i);
        send_data(&mut room, number, payload, post)?;
    }
    Ok(())
}
