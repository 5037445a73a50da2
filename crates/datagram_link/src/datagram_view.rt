ghost use Rattle.std.specs.Prelude.{◌≡◌, IfOk};
ghost use Rattle.datagram_link.specs.Reading.{seen};

use crate::datagram::Datagram;
use crate::payload::Payload;
use base::NoMemory;
use std::alloc::Global;

/// A datagram whose payload stands in the bytes that it was read from.
#[derive(Drop)]
pub(crate) enum DatagramView<'a> {
    Data { number: u32, payload: &'a [u8] },
    Ack { next: u32 },
    Call,
    Here { port: u16 },
}

impl<'a> DatagramView<'a> {
    /// The same with a payload of its own. It fails only where it is out of memory.
    pub(crate) fn to_datagram(&self, alloc: Global) -> Result<Datagram, NoMemory>
        ensures { IfOk result (λ datagram. datagram ≡ seen self.now) }
    {
        match self {
            DatagramView::Data { number, payload } => {
                let payload = Payload::copy_of(alloc, payload)?;
                Ok(Datagram::Data {
                    number: *number,
                    payload,
                })
            }
            DatagramView::Ack { next } => Ok(Datagram::Ack { next: *next }),
            DatagramView::Call => Ok(Datagram::Call),
            DatagramView::Here { port } => Ok(Datagram::Here { port: *port }),
        }
    }
}
