//! The differences of two replays.
ghost use Rattle.std.specs.Prelude.{◌≡◌, ◌≤◌, ◌+◌, IfOk, OnOk};
ghost use Rattle.std.specs.Option.{option_copied};
ghost use Rattle.compare_command.specs.declared.subject.Subject.TheVariants.{Entry as OfEntry};
ghost use Rattle.compare_command.specs.declared.subject.Subject.TheVariants.{Mark};
ghost use Rattle.compare_command.specs.Difference.{Entries, Hashes, compared_if};
ghost use Rattle.compare_command.specs.Each.{is_any, least};
ghost use Rattle.compare_command.specs.Found.{with_found};
ghost use Rattle.compare_command.specs.Replays.{differences_in, entries_to, entry_differences};
ghost use Rattle.compare_command.specs.Replays.{frame_differences};
ghost use Rattle.compare_command.specs.Replays.{mark_differences, match_differences};
ghost use Rattle.compare_command.specs.Replays.{replay_differences};
ghost use Rattle.game_orders.specs.declared.limits.TheConstants.{MAX_FRAMES};
ghost use Rattle.replay_file.specs.ValidReplay.{IsValidReplay};
ghost use Rattle.replay_run.specs.Rerun.{frame_count};

use crate::found::Found;
use crate::subject::Subject;
use crate::values::{Values, numbers, small_numbers};
use crate::walk::{next_frame, next_mark};
use base::NoMemory;
use game_orders::{Entry, Frame};
use replay_file::Replay;
use replay_run::frame_count;

/// Finds the differences of two valid replays.
#[tactic(auto, using(crate::proofs::FoundLemmas::found_steps, replay_run::proofs::RerunLemmas::few_in_all))]
pub(crate) fn compare_replays(found: &mut Found, r: &Replay, s: &Replay) -> Result<(), NoMemory>
    requires first { IsValidReplay r.now }
    requires second { IsValidReplay s.now }
    ensures { OnOk result (found.new ≡ with_found found.old
        (replay_differences r.now s.now)) }
{
    let (frames, others) = (frame_count(r), frame_count(s));
    compare_matches(found, frames, others, r, s)?;
    let common = frames.min(others);
    compare_entries(found, common, r, s)?;
    compare_marks(found, common, r, s)
}

/// Finds those of seed, clients and frames, of which they have so many.
#[tactic(auto, using(crate::proofs::FoundLemmas::found_steps))]
fn compare_matches(
    found: &mut Found,
    frames: u32,
    others: u32,
    r: &Replay,
    s: &Replay,
) -> Result<(), NoMemory>
    requires first { frames ≡ frame_count r.now }
    requires second { others ≡ frame_count s.now }
    ensures { OnOk result (found.new ≡ with_found found.old
        (match_differences r.now s.now)) }
{
    found.compare(Subject::Seed, numbers(r.seed, s.seed))?;
    found.compare(Subject::Clients, small_numbers(r.clients, s.clients))?;
    found.compare(Subject::Frames, numbers(frames, others))
}

/// Finds those of the least of so many frames that differs, where both have as many clients.
#[tactic(auto, using(crate::proofs::FoundLemmas::found_steps))]
fn compare_entries(found: &mut Found, count: u32, r: &Replay, s: &Replay) -> Result<(), NoMemory>
    ensures { OnOk result (found.new ≡ with_found found.old
        (entries_to count r.now s.now)) }
{
    if r.clients == s.clients {
        compare_frames(found, count, r, s)
    } else {
        Ok(())
    }
}

/// Finds those of the least of so many frames that differs.
fn compare_frames(found: &mut Found, count: u32, r: &Replay, s: &Replay) -> Result<(), NoMemory>
    ensures { OnOk result (found.new ≡ with_found found.old
        (least (differences_in r.now s.now) 0 count)) }
{
    let mut left = r.parts.iter();
    let mut others = s.parts.iter();
    let (mut frame, mut other) = (Frame::empty(), Frame::empty());
    for n in 0..count {
        next_frame(&mut left, &mut frame);
        next_frame(&mut others, &mut other);
        if compare_frame(found, n, r.clients, &frame, &other)? {
            return Ok(());
        }
    }
    Ok(())
}

/// Finds those of two frames of this number. Returns whether there is any.
#[tactic(auto, using(crate::proofs::ReplayLemmas::any_found))]
fn compare_frame(
    found: &mut Found,
    n: u32,
    clients: u8,
    frame: &Frame,
    other: &Frame,
) -> Result<bool, NoMemory>
    ensures { IfOk result (λ any.
        (found.new ≡ with_found found.old (frame_differences n clients frame.now other.now))
        × (any ≡ is_any (frame_differences n clients frame.now other.now))) }
{
    let before = found.count();
    compare_each(found, n, clients, frame, other)?;
    Ok(found.count() > before)
}

/// Finds those of each of so many clients in two frames of this number.
fn compare_each(
    found: &mut Found,
    n: u32,
    clients: u8,
    frame: &Frame,
    other: &Frame,
) -> Result<(), NoMemory>
    ensures { OnOk result (found.new ≡ with_found found.old
        (frame_differences n clients frame.now other.now)) }
{
    for client in 0..clients {
        compare_client(found, n, client, frame, other)?;
    }
    Ok(())
}

/// Finds that of a client in two frames of this number.
#[tactic(auto, using(crate::proofs::ReplayLemmas::entry_found))]
fn compare_client(
    found: &mut Found,
    n: u32,
    client: u8,
    frame: &Frame,
    other: &Frame,
) -> Result<(), NoMemory>
    ensures { OnOk result (found.new ≡ with_found found.old
        (entry_differences n frame.now other.now client)) }
{
    let at = usize::from(client);
    compare_entry(found, n, client, frame.get(at), other.get(at))
}

/// Finds that of a client's entries in two frames of this number, if both have one.
#[tactic(auto, using(crate::proofs::FoundLemmas::found_steps))]
fn compare_entry(
    found: &mut Found,
    n: u32,
    client: u8,
    entry: Option<&Entry>,
    other: Option<&Entry>,
) -> Result<(), NoMemory>
    ensures { OnOk result (found.new ≡ with_found found.old
        (compared_if (OfEntry n client) Entries
        (option_copied entry.entry) (option_copied other.entry))) }
{
    match (entry, other) {
        (Some(entry), Some(other)) => {
            found.compare(Subject::Entry(n, client), Values::Entries(entry, other))
        }
        (Some(_), None) | (None, Some(_)) | (None, None) => Ok(()),
    }
}

/// Finds that of the marks with the fewest frames before them that differ, at most so many.
fn compare_marks(found: &mut Found, count: u32, r: &Replay, s: &Replay) -> Result<(), NoMemory>
    requires { count ≤ MAX_FRAMES }
    ensures { OnOk result (found.new ≡ with_found found.old
        (least (mark_differences r.now s.now) 0 (count + 1))) }
{
    let mut left = r.parts.iter();
    let mut others = s.parts.iter();
    let mut frame = Frame::empty();
    for n in 0..count + 1 {
        let mark = next_mark(&mut left, &mut frame);
        let other = next_mark(&mut others, &mut frame);
        if compare_mark(found, n, mark, other)? {
            return Ok(());
        }
    }
    Ok(())
}

/// Finds that of the marks after so many frames, if both have one. Returns whether there is any.
#[tactic(auto, using(crate::proofs::ReplayLemmas::any_found))]
fn compare_mark(
    found: &mut Found,
    n: u32,
    mark: Option<u64>,
    other: Option<u64>,
) -> Result<bool, NoMemory>
    ensures { IfOk result (λ any.
        (found.new ≡ with_found found.old (compared_if (Mark n) Hashes mark other))
        × (any ≡ is_any (compared_if (Mark n) Hashes mark other))) }
{
    let before = found.count();
    compare_hashes(found, n, mark, other)?;
    Ok(found.count() > before)
}

/// Finds that of the marks after so many frames, if both have one.
#[tactic(auto, using(crate::proofs::FoundLemmas::found_steps))]
fn compare_hashes(
    found: &mut Found,
    n: u32,
    mark: Option<u64>,
    other: Option<u64>,
) -> Result<(), NoMemory>
    ensures { OnOk result (found.new ≡ with_found found.old
        (compared_if (Mark n) Hashes mark other)) }
{
    match (mark, other) {
        (Some(mark), Some(other)) => {
            found.compare(Subject::Mark(n), Values::Hashes(mark, other))
        }
        (Some(_), None) | (None, Some(_)) | (None, None) => Ok(()),
    }
}
