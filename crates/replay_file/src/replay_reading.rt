ghost use Rattle.std.specs.Prelude.{◌≡◌, ◌-◌, ◌≤◌, length, IfOk, IfErr};
ghost use Rattle.std.specs.List.{AllByRecursion};
ghost use Rattle.game_orders.specs.declared.limits.TheConstants.{MAX_CLIENTS};
ghost use Rattle.replay_file.specs.declared.replay.Replay.{Replay};
ghost use Rattle.replay_file.specs.FirstFault.{fault_at, IsReadFault, IsReadOf, Spells};
ghost use Rattle.replay_file.specs.PartBytes.{FitsPart};
ghost use Rattle.replay_file.specs.PartKind.{next_of, with_value};
ghost use Rattle.replay_file.specs.PartReading.{next_in};
ghost use Rattle.replay_file.specs.ReadClauses.{AnswersTo, GivesNext, GivesParts};
ghost use Rattle.replay_file.specs.Reading.{read_of, ReturnsRead};

use crate::header_reading::read_header;
use crate::part_fault::PartFault;
use crate::part_kind::PartKind;
use crate::part_reading::read_next;
use crate::parts::Parts;
use crate::replay::Replay;
use crate::replay_fault::ReplayFault;
use crate::standing::Standing;
use game_orders::Frame;
use std::alloc::Global;
use wire_bytes::Cursor;

/// The place of the next byte, of so many.
fn place(total: usize, c: &Cursor<'_>) -> u64
    requires { length c.now ≤ total }
    ensures { result ≡ total - length c.now }
{
    (total - c.left()) as u64
}

/// Reads the next part after parts with this standing, or the end, with the place of a fault.
fn read_next_at(
    total: usize,
    c: &mut Cursor<'_>,
    version: u16,
    standing: &Standing,
    frame: &mut Frame,
) -> Result<Option<PartKind>, ReplayFault>
    requires { length c.old ≤ total }
    ensures { GivesNext total version standing.now c.old c.new
        (with_value (λ next. next_of next frame.new) result) }
{
    let at = place(total, c);
    match read_next(c, version, standing, frame) {
        Ok(next) => Ok(next),
        Err(PartFault::Short) => Err(ReplayFault::Torn { at }),
        Err(PartFault::Bad) => Err(ReplayFault::BadRecord { at }),
    }
}

/// Reads the parts of a replay of this version and so many clients up to the end of the bytes.
fn read_parts(
    alloc: Global,
    total: usize,
    c: &mut Cursor<'_>,
    version: u16,
    clients: u8,
) -> Result<Parts, ReplayFault>
    requires within { length c.old ≤ total }
    requires clients { clients ≤ MAX_CLIENTS }
    ensures { GivesParts total version clients c.old result }
{
    let mut parts = Parts::new(alloc);
    let mut standing = Standing::opening(clients);
    let mut frame = Frame::empty();
    while let Some(kind) = read_next_at(total, c, version, &standing, &mut frame)? {
        standing.pass(kind, &frame);
        parts.push(kind, &frame)?;
    }
    if c.left() > 0 {
        return Err(ReplayFault::TrailingBytes {
            at: place(total, c),
        });
    }
    Ok(parts)
}

/// Reads a header, and the parts up to the end of the bytes.
#[tactic(auto, using(crate::proofs::WholeLemmas::reading_steps))]
fn read_whole(alloc: Global, bytes: &[u8], here: u64) -> Result<Replay, ReplayFault>
    ensures { AnswersTo here bytes.now result }
{
    let mut c = Cursor::over(bytes);
    let header = read_header(&mut c, here)?;
    let parts = read_parts(alloc, bytes.len(), &mut c, header.version, header.clients)?;
    Ok(Replay {
        version: header.version,
        rules: header.rules,
        seed: header.seed,
        clients: header.clients,
        parts,
    })
}

/// The replay that these bytes spell, whose rules number is `here`. Versions 1 and 2 are read.
///
/// The first fault from the left is the answer, with its place. In the header: `BadMagic`, where
/// the first four bytes aren't there or aren't `LSRP`; `Torn` at 4, where the version isn't whole;
/// `BadVersion`; `Torn` at 6, where the rest of the header isn't whole; `OtherRules`; `BadRecord`
/// at 18, where there is no client or there are too many for the version. Then part by part, at the
/// part's place: `Torn`, where a field runs past the end, also where the bytes end without an end;
/// `BadRecord` at the first bad field: an unknown tag, a frame too many, a mark directly after a
/// mark, an entry that is neither 0 nor 1, a play of a departed client, a number of orders above
/// `MAX_ORDERS`, an order's bad tag or flag, and after the last entry a frame without a play. Last
/// `TrailingBytes`, at the first byte after the end. Out of memory may take the place of any answer.
#[tactic(auto, using(crate::proofs::WholeLemmas::only_reading, crate::proofs::ReadingLemmas::answer_read))]
pub fn read_replay(alloc: Global, bytes: &[u8], here: u64) -> Result<Replay, ReplayFault>
    ensures value { ReturnsRead result (read_of here bytes.now) }
    ensures accepted { IfOk result (Spells here bytes.now) }
    ensures refused { IfErr result (IsReadFault here bytes.now) }
    ensures only { (r : Replay) → Spells here bytes.now r → IsReadOf r result }
{
    read_whole(alloc, bytes, here)
}
