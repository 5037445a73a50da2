//! Datagrams and payloads as bytes.
ghost use Rattle.std.specs.Prelude.{◌≡◌, ◌↔◌, IsTrue, IfOk, take, length, ◌∷◌, [], ◌<◌, ◌≤◌};
ghost use Rattle.datagram_link.specs.Grams.{IsPayload, data_bytes};
ghost use Rattle.datagram_link.specs.declared.limits.TheConstants.{MAX_PAYLOAD};

use base::NoMemory;
use datagram_link::{Datagram, MAX_PAYLOAD, Payload, write_datagram};
use std::alloc::Global;

/// A Call.
pub(crate) const CALL: [u8; 1] = [3];

/// The last datagram of a link: it is at no port from now on.
pub(crate) const FAREWELL: [u8; 3] = [4, 0, 0];

/// The tag of a Data.
const DATA_TAG: u8 = 1;

/// True where these bytes are the last datagram of a link.
pub(crate) fn is_farewell(gram: &[u8]) -> bool
    ensures { IsTrue result ↔ (gram.now ≡ 4 ∷ 0 ∷ 0 ∷ []) }
{
    gram == FAREWELL.as_slice()
}

/// True where these bytes begin as a Data.
pub(crate) fn is_data(gram: &[u8]) -> bool {
    gram.first() == Some(&DATA_TAG)
}

/// The next payload of bytes that are to be sent: the first of them, as many as fit.
pub(crate) fn next_payload(bytes: &[u8]) -> &[u8]
    ensures first { result.now ≡ take (length result.now) bytes.now }
    ensures few { length result.now ≤ MAX_PAYLOAD }
    ensures some { 0 < length bytes.now → 0 < length result.now }
{
    &bytes[..bytes.len().min(MAX_PAYLOAD as usize)]
}

/// The bytes of a Data.
pub(crate) fn data_gram(alloc: Global, number: u32, payload: &[u8]) -> Result<Vec<u8>, NoMemory>
    requires { IsPayload payload.now }
    ensures { IfOk result (λ gram. gram.items ≡ data_bytes number payload.now) }
{
    let payload = Payload::copy_of(alloc, payload)?;
    write_datagram(alloc, &Datagram::Data { number, payload })
}
