//! Rules, a map, and two files after them.
ghost use Rattle.std.specs.Prelude.{◌≡◌, ◌≤◌, [], map, length, IfOk, IfSome, IfNone, Some};
ghost use Rattle.std.specs.Prelude.{option_map};
ghost use Rattle.base.specs.Cause.{Increased};
ghost use Rattle.command_answers.specs.Contents.{contents_of, read_optional};
ghost use Rattle.command_answers.specs.Contents.{AreContents, IsFirstThere, IsWithinLimit};
ghost use Rattle.command_answers.specs.Given.{compared_contents, compared_files};
ghost use Rattle.command_answers.specs.Given.{paired_contents, paired_files};
ghost use Rattle.command_answers.specs.Stop.{ReturnsOrStops, ReturnsOpaque};
ghost use Rattle.command_answers.specs.WantedFiles.{and_then, begins_save, in_order};
ghost use Rattle.command_answers.specs.WantedFiles.{is_too_long, pair_limit, second_file};
ghost use Rattle.command_answers.specs.WantedFiles.{second_limit};
ghost use Rattle.command_answers.specs.declared.files.TheConstants.{MAX_SAVE_BYTES};
ghost use Rattle.command_answers.specs.declared.files.TheConstants.{MAX_REPLAY_BYTES};

use crate::files::{
    GivenFiles, InputFile, MAX_REPLAY_BYTES, MAX_SAVE_BYTES, read_played, read_played_files,
    read_wanted,
};
use crate::stop::Stop;
use game_io::Disk;
use std::alloc::Global;

/// The bytes of rule files, of a map, of a save and of a replay.
#[derive(Drop)]
pub struct PairedFiles {
    /// Those of the rule files and of the map.
    pub files: GivenFiles,
    /// Those of the save.
    pub save: Vec<u8>,
    /// Those of the replay.
    pub replay: Vec<u8>,
}

/// Reads rule files in order, then a map, if one is named, then a save, and then a replay.
pub fn read_paired_files<'a, D: Disk>(
    alloc: Global,
    disk: &mut D,
    names: &[&'a str],
    map_file: Option<&'a str>,
    save: &'a str,
    replay: &'a str,
) -> Result<PairedFiles, Stop<'a>>
    ensures observable { IfSome (D.state disk.old).files
        (λ files. ReturnsOrStops result paired_contents
        (contents_of (paired_files save.now replay.now (map (λ name. name.now) names.now)
        (option_map (λ name. name.now) map_file.entry)) files)
        (IsFirstThere (in_order (paired_files save.now replay.now (map (λ name. name.now) names.now)
        (option_map (λ name. name.now) map_file.entry))) files
        × Increased (D.state disk.old).faults (D.state disk.new).faults)) }
    ensures opaque { IfNone (D.state disk.old).files
        (ReturnsOpaque result
        (λ given. AreContents (paired_files save.now replay.now (map (λ name. name.now) names.now)
        (option_map (λ name. name.now) map_file.entry)) (paired_contents given))
        (in_order (paired_files save.now replay.now (map (λ name. name.now) names.now)
        (option_map (λ name. name.now) map_file.entry)))
        (Increased (D.state disk.old).faults (D.state disk.new).faults)) }
    ensures one_each { IfOk result (λ given. length given.files.rules.items ≡ length names.now) }
    ensures save { IfOk result (λ given. length given.save.items ≤ MAX_SAVE_BYTES) }
    ensures replay { IfOk result (λ given. length given.replay.items ≤ MAX_REPLAY_BYTES) }
    ensures files { (D.state disk.new).files ≡ (D.state disk.old).files }
    ensures later { (D.state disk.old).faults ≤ (D.state disk.new).faults }
{
    let first = InputFile::Save(save);
    let (files, save) = match read_played_files(alloc, disk, names, map_file, first) {
        Ok(given) => given,
        Err(stop) => return Err(stop),
    };
    match read_played(alloc, disk, InputFile::Replay(replay)) {
        Ok(replay) => Ok(PairedFiles {
            files,
            save,
            replay,
        }),
        Err(stop) => Err(stop),
    }
}

/// The bytes of rule files, of a map, and of two files that are compared.
#[derive(Drop)]
pub struct ComparedFiles {
    /// Those of the rule files and of the map.
    pub files: GivenFiles,
    /// Those of the first of the two.
    pub first: Vec<u8>,
    /// Those of the second, which is not read where the first [`is_too_long`].
    pub second: Option<Vec<u8>>,
}

impl ComparedFiles {
    ghost use Rattle.std.specs.Prelude.{◌≡◌, [], option_map, unwrap_or};

    /// The bytes of the second file, none where it was not read.
    pub fn second_bytes(&self) -> &[u8]
        ensures { result.now ≡ unwrap_or (option_map (λ bytes. bytes.items) self.now.second) [] }
    {
        match &self.second {
            Some(bytes) => bytes.as_slice(),
            None => &[],
        }
    }
}

/// Whether the bytes begin as those of a save, with `LSSV`.
pub fn begins_save(bytes: &[u8]) -> bool
    ensures { result ≡ begins_save bytes.now }
{
    bytes.starts_with(b"LSSV")
}

/// How many bytes two files that are compared may have, by those of the first: it is a save where
/// it begins as one, and else a replay.
fn pair_limit(first: &[u8]) -> u32
    ensures { result ≡ pair_limit first.now }
{
    if begins_save(first) {
        MAX_SAVE_BYTES
    } else {
        MAX_REPLAY_BYTES
    }
}

/// Whether the first of two files that are compared has more bytes than both may have:
/// `MAX_SAVE_BYTES` where it begins as a save, else `MAX_REPLAY_BYTES`.
pub fn is_too_long(first: &[u8]) -> bool
    ensures { result ≡ is_too_long first.now }
{
    (pair_limit(first) as usize) < first.len()
}

/// How many bytes the second of two files that are compared may have, where it is read.
fn second_limit(first: &[u8]) -> Option<u32>
    ensures { result ≡ second_limit first.now }
{
    if is_too_long(first) {
        None
    } else {
        Some(pair_limit(first))
    }
}

/// Reads the second of two files that are compared, unless the first has too many bytes.
fn read_second<'a, D: Disk>(
    alloc: Global,
    disk: &mut D,
    name: &'a str,
    first: &[u8],
) -> Result<Option<Vec<u8>>, Stop<'a>>
    ensures observable { IfSome (D.state disk.old).files
        (λ files. ReturnsOrStops result (option_map (λ bytes. bytes.items))
        (read_optional (second_file name.now (Some first.now)) files)
        (IsFirstThere (and_then (second_file name.now (Some first.now)) []) files
        × Increased (D.state disk.old).faults (D.state disk.new).faults)) }
    ensures opaque { IfNone (D.state disk.old).files
        (ReturnsOpaque result
        (λ given. IsWithinLimit (second_file name.now (Some first.now))
        (option_map (λ bytes. bytes.items) given))
        (and_then (second_file name.now (Some first.now)) [])
        (Increased (D.state disk.old).faults (D.state disk.new).faults)) }
    ensures files { (D.state disk.new).files ≡ (D.state disk.old).files }
    ensures later { (D.state disk.old).faults ≤ (D.state disk.new).faults }
{
    match second_limit(first) {
        Some(limit) => read_wanted(alloc, disk, name, limit),
        None => Ok(None),
    }
}

/// Reads rule files in order, then a map, if one is named, and then two files that are compared:
/// two saves where the first begins as one, else two replays. The second is not read where the
/// first [`is_too_long`] for that.
pub fn read_compared_files<'a, D: Disk>(
    alloc: Global,
    disk: &mut D,
    names: &[&'a str],
    map_file: Option<&'a str>,
    first: &'a str,
    second: &'a str,
) -> Result<ComparedFiles, Stop<'a>>
    ensures observable { IfSome (D.state disk.old).files
        (λ files. ReturnsOrStops result compared_contents
        (contents_of (compared_files first.now second.now (map (λ name. name.now) names.now)
        (option_map (λ name. name.now) map_file.entry)) files)
        (IsFirstThere (in_order (compared_files first.now second.now
        (map (λ name. name.now) names.now) (option_map (λ name. name.now) map_file.entry))) files
        × Increased (D.state disk.old).faults (D.state disk.new).faults)) }
    ensures opaque { IfNone (D.state disk.old).files
        (ReturnsOpaque result
        (λ given. AreContents (compared_files first.now second.now
        (map (λ name. name.now) names.now) (option_map (λ name. name.now) map_file.entry))
        (compared_contents given))
        (in_order (compared_files first.now second.now (map (λ name. name.now) names.now)
        (option_map (λ name. name.now) map_file.entry)))
        (Increased (D.state disk.old).faults (D.state disk.new).faults)) }
    ensures one_each { IfOk result (λ given. length given.files.rules.items ≡ length names.now) }
    ensures first { IfOk result (λ given. length given.first.items ≤ MAX_REPLAY_BYTES) }
    ensures second { IfOk result (λ given. IfSome given.second
        (λ second. length second.items ≤ pair_limit given.first.items)) }
    ensures files { (D.state disk.new).files ≡ (D.state disk.old).files }
    ensures later { (D.state disk.old).faults ≤ (D.state disk.new).faults }
{
    let played = InputFile::Compared(first);
    let (files, first) = match read_played_files(alloc, disk, names, map_file, played) {
        Ok(given) => given,
        Err(stop) => return Err(stop),
    };
    match read_second(alloc, disk, second, &first) {
        Ok(second) => Ok(ComparedFiles {
            files,
            first,
            second,
        }),
        Err(stop) => Err(stop),
    }
}
