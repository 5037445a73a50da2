ghost use Rattle.std.specs.Io.{ReadsAtMost};
ghost use Rattle.datagram_link.specs.Grams.{IsPayload};

use crate::fate::Fate;
use crate::inbox::Inbox;
use crate::limits::MAX_UNREAD;
use crate::link_post::LinkPost;
use base::NoMemory;
use datagram_link::{Datagram, End, Offered, Post, TurnFault, WINDOW, write_datagram};
use std::alloc::Global;
use std::io;
use std::io::ErrorKind;

/// What the halves of a link and its thread share.
#[derive(Drop)]
pub(crate) struct LinkState {
    end: End,
    inbox: Inbox,
    fate: Fate,
    /// True once its halves are handed back.
    is_left: bool,
    /// True once its last turn was made.
    is_over: bool,
}

impl LinkState {
    /// A link over which nothing was sent.
    pub(crate) fn create(alloc: Global) -> Result<Self, NoMemory> {
        Ok(LinkState {
            end: End::create(alloc)?,
            inbox: Inbox::new(alloc),
            fate: Fate::Open,
            is_left: false,
            is_over: false,
        })
    }

    /// True as long as the link goes on.
    pub(crate) fn is_open(&self) -> bool {
        self.fate == Fate::Open
    }

    /// The halves are handed back.
    pub(crate) fn leave(&mut self) {
        self.is_left = true;
    }

    /// True once the halves are handed back.
    pub(crate) fn is_left(&self) -> bool {
        self.is_left
    }

    /// The last turn was made.
    pub(crate) fn finish(&mut self) {
        self.is_over = true;
    }

    /// True once the last turn was made.
    pub(crate) fn is_over(&self) -> bool {
        self.is_over
    }

    /// How many payloads are unacknowledged.
    fn unacknowledged(&self) -> u32 {
        self.end.sender.offered() - self.end.sender.acknowledged()
    }

    /// True where a payload that is to be sent has to wait.
    pub(crate) fn is_full(&self) -> bool {
        self.is_open() && self.unacknowledged() == WINDOW
    }

    /// True where who reads has to wait.
    pub(crate) fn is_empty(&self) -> bool {
        self.is_open() && self.inbox.len() == 0
    }

    /// True where all that was sent is acknowledged.
    pub(crate) fn is_acknowledged(&self) -> bool {
        self.unacknowledged() == 0
    }

    /// The link is lost. What came before may still be read.
    pub(crate) fn lose(&mut self) {
        self.fate = Fate::Lost;
    }

    /// The other side has ended the link.
    pub(crate) fn end_by_other(&mut self) {
        self.fate = Fate::Ended;
    }

    /// Nothing more is read: what came is dropped, and the link is lost.
    pub(crate) fn cut(&mut self, alloc: Global) {
        self.inbox = Inbox::new(alloc);
        self.fate = Fate::Lost;
    }

    /// Takes a payload that is to be sent, and answers its number. None where the link has ended,
    /// its window is full, it has carried all payloads that a link carries, or memory runs out.
    pub(crate) fn offer(&mut self, alloc: Global, payload: &[u8]) -> Option<u32>
        requires { IsPayload payload.now }
    {
        if !self.is_open() {
            return None;
        }
        match self.end.sender.offer(alloc, payload) {
            Ok(Offered::Taken(number)) => Some(number),
            Ok(Offered::WindowFull | Offered::Spent) => None,
            Err(_) => None,
        }
    }

    /// Reads what came. No bytes are the end.
    pub(crate) fn read(&mut self, into: &mut [u8]) -> io::Result<usize>
        ensures { ReadsAtMost result into.new }
    {
        let count = self.inbox.take(into);
        if count == 0 && self.fate == Fate::Lost {
            return Err(ErrorKind::ConnectionReset.into());
        }
        Ok(count)
    }

    /// Makes a turn with the datagram that was fetched, if any. Where too much is unread a Data is
    /// passed over, as if the network had lost it.
    pub(crate) fn turn(&mut self, alloc: Global, post: &mut LinkPost) {
        if self.inbox.len() >= MAX_UNREAD && post.has_data() {
            return;
        }
        match self.end.turn(alloc, post) {
            Ok(_) => self.gather(),
            // As a datagram that the network loses.
            Err(TurnFault::NoMemory) => {}
            Err(TurnFault::Failed) => self.lose(),
        }
    }

    /// Puts what came into order to what is to be read.
    fn gather(&mut self) {
        for _payload in 0..WINDOW {
            let Some(payload) = self.end.receiver.pop() else {
                return;
            };
            if self.inbox.push(payload.as_slice()).is_err() {
                self.lose();
                return;
            }
        }
    }

    /// Sends an acknowledgement of what came, as a sign that this side is there.
    pub(crate) fn give_sign(&mut self, alloc: Global, post: &mut LinkPost) {
        let next = self.end.receiver.next();
        let sent = match write_datagram(alloc, &Datagram::Ack { next }) {
            Ok(gram) => post.send(&gram).is_ok(),
            Err(_) => false,
        };
        if !sent {
            self.lose();
        }
    }
}
