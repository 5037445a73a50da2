//! Bots, by the bytes of their links.
use crate::players::RULES;
use crate::rows::{bytes_of, cut, text_of};
use crate::steps::{StepsMaker, StepsRule};
use game_io::{MemSink, MemSource};
use match_net::{Bot, PlayEnd, play_match_from};
use std::alloc::Global;
use std::test::Fail;

/// Bots of client 1 of two, whose lag is 2: how many frames each plays, how it ends, its client and
/// how many frames it ticked, what it wrote, and the bytes of its link. Each frame gives as much as
/// the world had counted when the frame was sealed.
const BOTS: &str = "\
no frames|0|(Over, 1, 0)|0b00010200dfb701864cbd63af010004|0800110102020900000006001401000000000600140000000000\n\
three frames, two of them ahead|3|(Over, 1, 3)|0b00010200dfb701864cbd63af0c000200000000010701000000000c000201000000010701000000000d00030000000001000000000000000c000202000000010701010000000d00030100000002000000000000000d0003020000000300000000000000010004|0800110102020900000006001400000000000d00130100000000010701000000000d00130101000000010701000000000d00130102000000010701010000000600140103000000\n\
two frames that are ready at once|4|(BadLink { at: 48, cause: Early }, 1, 2)|0b00010200dfb701864cbd63af0c000200000000010701000000000c000201000000010701000000000d00030000000001000000000000000d00030100000002000000000000000c000202000000010701020000000c00020300000001070102000000|080011010202090000000d00130100000000010701000000000d00130101000000010701000000000600140000000000\n\
its own departure before its last frame|3|(Over, 1, 1)|0b00010200dfb701864cbd63af0c000200000000010701000000000c000201000000010701000000000d00030000000001000000000000000c00020200000001070101000000|0800110102020900000006001400000000000d00130100000000010701000000000600140101000000";

/// How a bot of so many frames ends, by the bytes of its link, and what it wrote.
fn play_link(
    alloc: Global,
    frames: u32,
    digits: &str,
) -> Result<((PlayEnd, u8, u32), Vec<u8>), Fail> {
    let mut input = MemSource::new(bytes_of(alloc, digits)?, Vec::new(alloc));
    let mut output = MemSink::new(alloc, Vec::new(alloc));
    let rule = &StepsRule;
    let bot = Bot { rule, frames };
    let played = play_match_from(alloc, RULES, &bot, &StepsMaker, &mut input, &mut output)?;
    let end = (played.end, played.client, played.frames);
    Ok((end, Vec::from_slice(alloc, output.bytes())?))
}

#[test]
fn bots(rt: HostRuntime) -> Result<(), Fail> {
    for row in BOTS.lines() {
        let (name, row) = cut(row)?;
        let (frames, row) = cut(row)?;
        let (want, row) = cut(row)?;
        let (answer, digits) = cut(row)?;
        let Ok(frames) = frames.parse::<u32>() else {
            return Err(Fail::new("a row has no number of frames"));
        };
        let (played, written) = play_link(rt.alloc(), frames, digits)?;
        assert_eq!(rt; text_of(rt.alloc(), &played)?.as_str(), want, "{name}");
        assert_eq!(rt; written, bytes_of(rt.alloc(), answer)?, "{name}");
    }
    Ok(())
}
