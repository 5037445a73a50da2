//! Links that are read and answered.
ghost use Rattle.std.specs.Prelude.{IfOk};
ghost use Rattle.link_tests.specs.Passes.{IsFreshPass, IsReadPass};

use crate::greetings::INVITE;
use crate::rows::{bytes_of, cut, text_of};
use base::{List, NoMemory};
use frame_table::{FrameTable, Pass, Plan, Planned, Seen};
use game_io::{FailingCall, MemSink, MemSource, Remains, Sink, Source};
use match_net::{
    Greeting, ReaderEnd, Reports, SenderEnd, greet, reader_session, report_queue, sender_session,
};
use order_packets::UpFeeder;
use std::alloc::Global;
use std::process::Abort;
use std::sync::Wait;
use std::test::Fail;

/// The bytes of links: how the reading of each ends, and what is then seen of its client's column.
const LINKS: &str = "\
another version|(Refused(Version), Seen { plays: 0, left: true })|0b0001040000000000000000000600020000000000
bye with a trailing byte|(Refused(Feed(TrailingInPacket)), Seen { plays: 0, left: true })|0b00010200dfb701864cbd63af02000400
equal frame twice|(Ended, Seen { plays: 1, left: true })|0b00010200dfb701864cbd63af06000200000000000600020000000000
frame that is ahead|(Refused(Ahead), Seen { plays: 0, left: true })|0b00010200dfb701864cbd63af0600020100000000
length too large|(Refused(Feed(LengthTooLarge)), Seen { plays: 0, left: true })|0b00010200dfb701864cbd63af0101
order cut off|(Refused(Feed(ShortPacket)), Seen { plays: 0, left: true })|0b00010200dfb701864cbd63af070002000000000104
order of an unknown tag|(Refused(Feed(BadOrder)), Seen { plays: 0, left: true })|0b00010200dfb701864cbd63af070002000000000109
orders without a count|(Refused(Feed(ShortPacket)), Seen { plays: 0, left: true })|0b00010200dfb701864cbd63af05000200000000
other frame in its place|(Refused(Conflict), Seen { plays: 1, left: true })|0b00010200dfb701864cbd63af06000200000000000b000200000000010401000000
other rules|(Refused(OtherRules), Seen { plays: 0, left: true })|0b00010200deb701864cbd63af0600020000000000
packet cut off by the end|(Ended, Seen { plays: 0, left: true })|0b00010200dfb701864cbd63af06000200
second hello|(Refused(SecondHello), Seen { plays: 0, left: true })|0b00010200dfb701864cbd63af0b00010200dfb701864cbd63af
seventeen orders|(Refused(Feed(TooManyOrders)), Seen { plays: 0, left: true })|0b00010200dfb701864cbd63af0600020000000011
two short links|(Ended, Seen { plays: 2, left: true })|0b00010200dfb701864cbd63af06000200000000000600020100000000010004
two short links|(Ended, Seen { plays: 1, left: true })|0b00010200dfb701864cbd63af0600020000000000010004
unknown packet|(Refused(Feed(BadTag)), Seen { plays: 0, left: true })|0b00010200dfb701864cbd63af010063
without a hello|(Refused(NoHello), Seen { plays: 0, left: true })|0600020000000000
recorded|(Refused(Ahead), Seen { plays: 1, left: true })|0b00010200dfb701864cbd63af0d000300000000a022d8d8ede31dd70600020000000000060002ffff00000006000201000000007500020200000010040000000004030000000701e803000005ffffffff00000602000000030300000001020007040500000003361bca4c070400010300000006020105ffffffff0300020300000000000000010301000000040700030500000004060005030000000100050300000008000703e803000006000203000000007700020400000010010000000004070002e78eeecb0300000000039e8bd9690506010700900100000202000000ffffffff010402000000060200000003030000000003010401000000040300000004ffffffff0701000000000105000000030000034c751d22000400030200000003040103ffffffff0205010600020500000000fa
recorded|(Refused(Feed(TrailingInPacket)), Seen { plays: 3, left: true })|0b00010200dfb701864cbd63af0600020000000000060002010000000006000202000000000c000200000000010401000000000d00030200000000000000000000001400020300000002015a53b6f70205000703900100000d000302000000d80950a99e4297730600020500000000010004
recorded|(Refused(Feed(BadTag)), Seen { plays: 0, left: true })|0b00410200dfb701864cbd63af010004
recorded|(Refused(Feed(ShortPacket)), Seen { plays: 2, left: true })|0b00010200dfb701864cbd63af790002000000001002ffffffff030000000003aa28247300000101000000000305000302000000000200050100000004000205000000030000000006050000000502000000040001010000000600010703900100000702050000000702e9030000040000000003000000000603000101000000040001060500000006000201000000000000
recorded|(Refused(SecondHello), Seen { plays: 4, left: true })|0b00010200dfb701864cbd63af160002000000000201ffffffff0600010305000000000200160002000000000201ffffffff0600010305000000000200100002010000000102030000000000000000060002020000000077000203000000100501000000000004ba1c9b1806676d5a700671fb61c20701e8030000020500000001000000000270ddfafb05000000000702e9030000020000000000000000010403000000040500000002020000000500000000010100000004000106ffffffff03ffffffff06010001020000000707010b00010200dfb701864cbd63af0d000303000000000000000000000006000204000000001300020500000002069ee41ee30302000000060300010004
recorded|(Refused(OtherRules), Seen { plays: 0, left: true })|0b00010200dfb7ab864cbd63af0e0002000000000101010000000102020600020000000000
recorded|(Ended, Seen { plays: 7, left: true })|0b00010200dfb701864cbd63af06000200000000000d0003000000004a904e45b15641c3060002010000000013000202000000020102000000010301062ad971a8150002030000000206d8f7a6090201000000ffffffff00060002040000000006000205000000000e0002060000000103030000000600000d0003030000008d53b45ff8e1fcc006000207000000
recorded|(Ended, Seen { plays: 7, left: true })|0b00010200dfb701864cbd63af0d000301000000eb1b678d13a5dada06000200000000000e0002010000000103ffffffff070001060002020000000006000203000000000b000204000000010600000000060002050000000006000205000000001800020600000002010300000000030002050000000300000001010004
recorded|(Ended, Seen { plays: 7, left: true })|0b00010200dfb701864cbd63af06000200000000000600020100000000060002020000000006000203000000000d000204000000010501000000070006000205000000000d00030000000025254291ee8a466106000206000000000600020600000000010004
recorded|(Ended, Seen { plays: 6, left: true })|0b00010200dfb701864cbd63af06000200000000000d00020100000001051a804153040006000202000000000d00030400000000000000000000000600020300000000060002040000000006000204000000000600020500000000010004
recorded|(Ended, Seen { plays: 6, left: true })|0b00010200dfb701864cbd63af06000200000000000d000300000000000000000000000006000201000000000d00030100000000000000000000000600020200000000060002030000000006000204000000000600020500000000010004
recorded|(Ended, Seen { plays: 6, left: true })|0b00010200dfb701864cbd63af0d00030000000000000000000000000600020000000000060002010000000006000202000000000d0003020000009d8a185e7a714482180002030000000203020000000600010200000000ffffffff0006000204000000007c000205000000100152c5e6dd060401050aeab0700500010200000007010004010000000203000000ffffffff0006ffffffff0602000000010200000004030001ffffffff050000030100000006070002ffffffff03000000000523562d7b0700030000000003050103030000000600010703e903000005050000000100010004
recorded|(Ended, Seen { plays: 2, left: true })|0b00010200dfb701864cbd63af06000200000000000600020100000000010004
recorded|(Ended, Seen { plays: 2, left: true })|0b00010200dfb701864cbd63af8100020000000010060500000002ffffffffffffffff00030200000000020101010000000106000202000000050000000002000000000500000001015920c057030501030500000004030003ffffffff07000003020000000403010701000000000300000000010301060100000006ffffffff07000100000002030000009288ee19001500020100000002020500000000000000000605000000010004";

/// The bytes of links, and what is written to each.
const ANSWERS: &str = "\
a play without orders, and the farewell|080011000102090000000700130000000000000600140001000000|0b00010200dfb701864cbd63af0600020000000000010004
another version|02001201|0b000104000000000000000000
a fault in the first packet's place||0101
no bytes||";

/// A table of one free column.
fn begin(alloc: Global) -> Result<(FrameTable, Pass), NoMemory>
    ensures { IfOk result (λ made. IsFreshPass made.0 made.1) }
{
    let mut plan = List::new(alloc);
    plan.push(Planned::Free)?;
    let (table, pass) = FrameTable::create(alloc, 1, Plan::new(plan))?;
    Ok((table, pass))
}

/// One end of a queue of reports.
fn one_end(rt: &impl Abort, alloc: Global) -> Result<Reports, Fail> {
    let ends = report_queue(alloc, 1)?;
    let mut ends = ends.ends.into_vec();
    Ok(ends.pop().expect(rt, "one end"))
}

/// Such a table, whose client was let go before its link is read.
fn begin_left<R: Wait>(rt: &R, alloc: Global) -> Result<(FrameTable, Pass), NoMemory>
    ensures { IfOk result (λ made. IsFreshPass made.0 made.1) }
{
    let (table, mut pass) = begin(alloc)?;
    let _left = table.leave(rt, &mut pass, 0);
    Ok((table, pass))
}

/// A link that was read, and the table into which it was.
#[derive(Drop)]
struct ReadLink {
    table: FrameTable,
    pass: Pass,
    greeting: Greeting,
    end: ReaderEnd,
}

/// Greets a link and reads it.
fn read_link<I: Source, R: Wait + Abort>(
    rt: &R,
    alloc: Global,
    begun: (FrameTable, Pass),
    link: &mut I,
) -> Result<ReadLink, Fail>
    requires { IsFreshPass begun.0 begun.1 }
    ensures { IfOk result (λ read. IsReadPass read.table read.pass) }
{
    let (table, mut pass) = begun;
    let mut reports = one_end(rt, alloc)?;
    let mut feeder = UpFeeder::create(alloc)?;
    let greeting = greet(&INVITE, &mut feeder, link)?;
    let end = reader_session(
        rt,
        &table,
        &mut pass,
        &INVITE,
        greeting,
        &mut feeder,
        link,
        &mut reports,
    );
    Ok(ReadLink {
        table,
        pass,
        greeting,
        end,
    })
}

/// How the reading of a link ends, and what is then seen of its client's column.
fn seen_link<R: Wait + Abort>(
    rt: &R,
    alloc: Global,
    begun: (FrameTable, Pass),
    digits: &str,
) -> Result<(ReaderEnd, Seen), Fail>
    requires { IsFreshPass begun.0 begun.1 }
{
    let mut link = MemSource::new(bytes_of(alloc, digits)?, Vec::new(alloc));
    let mut read = read_link(rt, alloc, begun, &mut link)?;
    let seen = read.table.seen(&mut read.pass, 0);
    Ok((read.end, seen))
}

#[test]
fn links(rt: HostRuntime) -> Result<(), Fail> {
    for row in LINKS.lines() {
        let (name, row) = cut(row)?;
        let (want, digits) = cut(row)?;
        let read = seen_link(&rt, rt.alloc(), begin(rt.alloc())?, digits)?;
        assert_eq!(rt; text_of(rt.alloc(), &read)?.as_str(), want, "{name}");
    }
    Ok(())
}

/// The client was let go before its link was read.
#[test]
fn a_client_that_was_kicked(rt: HostRuntime) -> Result<(), Fail> {
    let begun = begin_left(&rt, rt.alloc())?;
    let digits = "0b00010200dfb701864cbd63af010004";
    let (end, _seen) = seen_link(&rt, rt.alloc(), begun, digits)?;
    assert_eq!(rt; end, ReaderEnd::LeftAt(0));
    Ok(())
}

/// What is sent to the client of a link, once that was read.
fn send_to<O: Sink, R: Wait>(rt: &R, alloc: Global, read: ReadLink, link: &mut O) -> SenderEnd
    requires { IsReadPass read.table read.pass }
{
    let ReadLink {
        table,
        mut pass,
        greeting,
        ..
    } = read;
    sender_session(rt, alloc, &table, &mut pass, &INVITE, greeting, link)
}

/// The sending to the client of a link of these bytes, once that was read: how it ends, and what was
/// written.
fn send_link<R: Wait + Abort>(
    rt: &R,
    alloc: Global,
    digits: &str,
    failing: Vec<FailingCall>,
) -> Result<(SenderEnd, Vec<u8>), Fail> {
    let mut link = MemSource::new(bytes_of(alloc, digits)?, Vec::new(alloc));
    let read = read_link(rt, alloc, begin(alloc)?, &mut link)?;
    let mut sink = MemSink::new(alloc, failing);
    let end = send_to(rt, alloc, read, &mut sink);
    Ok((end, Vec::from_slice(alloc, sink.bytes())?))
}

#[test]
fn answers(rt: HostRuntime) -> Result<(), Fail> {
    for row in ANSWERS.lines() {
        let (name, row) = cut(row)?;
        let (want, digits) = cut(row)?;
        let (end, written) = send_link(&rt, rt.alloc(), digits, Vec::new(rt.alloc()))?;
        assert_eq!(rt; end, SenderEnd::Sent, "{name}");
        assert_eq!(rt; written, bytes_of(rt.alloc(), want)?, "{name}");
    }
    Ok(())
}

/// The link fails within the second packet.
#[test]
fn a_link_that_is_cut_off(rt: HostRuntime) -> Result<(), Fail> {
    let mut failing = Vec::new(rt.alloc());
    failing.push(FailingCall {
        call: 1,
        remains: Remains::Prefix(3),
    })?;
    let digits = "0b00010200dfb701864cbd63af0600020000000000010004";
    let (end, written) = send_link(&rt, rt.alloc(), digits, failing)?;
    assert_eq!(rt; end, SenderEnd::Lost);
    assert_eq!(rt;
        written,
        bytes_of(rt.alloc(), "08001100010209000000070013")?
    );
    Ok(())
}
