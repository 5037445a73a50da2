ghost use Rattle.std.specs.Prelude.{◌≡◌, ◌≤◌, ◌∷◌, [], map, length, IfOk, IfSome, IfNone, IsSome};
ghost use Rattle.std.specs.Prelude.{option_map};
ghost use Rattle.base.specs.Cause.{Increased};
ghost use Rattle.command_answers.specs.Contents.{content_of, read_after, IsFirstThere};
ghost use Rattle.command_answers.specs.Contents.{AreWithinLimits};
ghost use Rattle.command_answers.specs.Contents.{read_optional, contents_of, IsWithinLimit};
ghost use Rattle.command_answers.specs.Contents.{AreContents};
ghost use Rattle.command_answers.specs.Reply.{refusal};
ghost use Rattle.command_answers.specs.Given.{given_contents, played_contents};
ghost use Rattle.command_answers.specs.Given.{played_file, played_files};
ghost use Rattle.command_answers.specs.Stop.{IsRefusal, ReturnsOrStops, ReturnsOpaque};
ghost use Rattle.command_answers.specs.WantedFiles.{and_then, in_order};
ghost use Rattle.command_answers.specs.WantedFiles.{rule_file, rules_and_map};

use crate::stop::Stop;
use drill_words::MAX_DRILL_BYTES;
use game_io::{Disk, DiskError};
use std::alloc::Global;

/// The most bytes of a rule file and of a map.
pub const MAX_RULE_BYTES: u32 = 4_194_304;

/// Refuses a whole file.
fn unread<'a>(name: &'a str, cause: &'static str) -> Stop<'a>
    ensures { IsRefusal result (refusal name.now 0 cause.now) }
{
    Stop::Refused {
        name,
        place: 0,
        cause,
    }
}

/// Reads one file.
pub fn read_one<'a, D: Disk>(
    alloc: Global,
    disk: &mut D,
    name: &'a str,
    limit: u32,
) -> Result<Vec<u8>, Stop<'a>>
    ensures observable { IfSome (D.state disk.old).files
        (λ files. ReturnsOrStops result (λ bytes. bytes.items)
        (content_of (record { name = name.now; limit = limit }) (files name.now))
        (IsSome (files name.now) × Increased (D.state disk.old).faults (D.state disk.new).faults)) }
    ensures opaque { IfNone (D.state disk.old).files
        (ReturnsOpaque result (λ bytes. length bytes.items ≤ limit)
        (record { name = name.now; limit = limit } ∷ [])
        (Increased (D.state disk.old).faults (D.state disk.new).faults)) }
    ensures short { IfOk result (λ bytes. length bytes.items ≤ limit) }
    ensures files { (D.state disk.new).files ≡ (D.state disk.old).files }
    ensures later { (D.state disk.old).faults ≤ (D.state disk.new).faults }
{
    match disk.read_file(alloc, name, limit) {
        Ok(bytes) => Ok(bytes),
        Err(DiskError::Missing) => Err(unread(name, "Missing")),
        Err(DiskError::TooLong) => Err(unread(name, "TooLong")),
        Err(DiskError::Failed) => Err(Stop::ReadFault),
        Err(DiskError::NoMemory) => Err(Stop::NoMemory),
    }
}

/// Reads rule files, in order.
pub fn read_rules<'a, D: Disk>(
    alloc: Global,
    disk: &mut D,
    names: &[&'a str],
) -> Result<Vec<Vec<u8>>, Stop<'a>>
    ensures observable { IfSome (D.state disk.old).files
        (λ files. ReturnsOrStops result (λ contents. map (λ bytes. bytes.items) contents.items)
        (read_after [] (map rule_file (map (λ name. name.now) names.now)) files)
        (IsFirstThere (map rule_file (map (λ name. name.now) names.now)) files
        × Increased (D.state disk.old).faults (D.state disk.new).faults)) }
    ensures opaque { IfNone (D.state disk.old).files
        (ReturnsOpaque result
        (λ contents. AreWithinLimits (map rule_file (map (λ name. name.now) names.now))
        (map (λ bytes. bytes.items) contents.items))
        (map rule_file (map (λ name. name.now) names.now))
        (Increased (D.state disk.old).faults (D.state disk.new).faults)) }
    ensures one_each { IfOk result (λ contents. length contents.items ≡ length names.now) }
    ensures files { (D.state disk.new).files ≡ (D.state disk.old).files }
    ensures later { (D.state disk.old).faults ≤ (D.state disk.new).faults }
{
    let mut contents = Vec::new(alloc);
    for name in names {
        let bytes = read_one(alloc, disk, name, MAX_RULE_BYTES)?;
        contents.push(bytes)?;
    }
    Ok(contents)
}

/// The bytes of rule files, and of a map.
#[derive(Drop)]
pub struct GivenFiles {
    /// The bytes of each rule file.
    pub rules: Vec<Vec<u8>>,
    /// The bytes of the map, if one is wanted.
    pub map_file: Option<Vec<u8>>,
}

impl GivenFiles {
    ghost use Rattle.std.specs.Prelude.{◌≡◌, [], map, option_map, unwrap_or};

    /// The bytes of the map, none where no map is wanted.
    pub fn map_bytes(&self) -> &[u8]
        ensures { result.now ≡ unwrap_or (option_map (λ bytes. bytes.items) self.now.map_file) [] }
    {
        match &self.map_file {
            Some(bytes) => bytes.as_slice(),
            None => &[],
        }
    }
}

/// Reads the file of this name, which is wanted.
pub(crate) fn read_wanted<'a, D: Disk>(
    alloc: Global,
    disk: &mut D,
    name: &'a str,
    limit: u32,
) -> Result<Option<Vec<u8>>, Stop<'a>>
    ensures observable { IfSome (D.state disk.old).files
        (λ files. ReturnsOrStops result (option_map (λ bytes. bytes.items))
        (read_optional (Some (record { name = name.now; limit = limit })) files)
        (IsFirstThere (record { name = name.now; limit = limit } ∷ []) files
        × Increased (D.state disk.old).faults (D.state disk.new).faults)) }
    ensures opaque { IfNone (D.state disk.old).files
        (ReturnsOpaque result
        (λ given. IsWithinLimit (Some (record { name = name.now; limit = limit }))
        (option_map (λ bytes. bytes.items) given))
        (record { name = name.now; limit = limit } ∷ [])
        (Increased (D.state disk.old).faults (D.state disk.new).faults)) }
    ensures files { (D.state disk.new).files ≡ (D.state disk.old).files }
    ensures later { (D.state disk.old).faults ≤ (D.state disk.new).faults }
{
    match read_one(alloc, disk, name, limit) {
        Ok(bytes) => Ok(Some(bytes)),
        Err(stop) => Err(stop),
    }
}

/// Reads a map, if one is named.
fn read_named<'a, D: Disk>(
    alloc: Global,
    disk: &mut D,
    name: Option<&'a str>,
) -> Result<Option<Vec<u8>>, Stop<'a>>
    ensures observable { IfSome (D.state disk.old).files
        (λ files. ReturnsOrStops result (option_map (λ bytes. bytes.items))
        (read_optional (option_map rule_file (option_map (λ name. name.now) name.entry)) files)
        (IsFirstThere
        (and_then (option_map rule_file (option_map (λ name. name.now) name.entry)) []) files
        × Increased (D.state disk.old).faults (D.state disk.new).faults)) }
    ensures opaque { IfNone (D.state disk.old).files
        (ReturnsOpaque result
        (λ given. IsWithinLimit (option_map rule_file (option_map (λ name. name.now) name.entry))
        (option_map (λ bytes. bytes.items) given))
        (and_then (option_map rule_file (option_map (λ name. name.now) name.entry)) [])
        (Increased (D.state disk.old).faults (D.state disk.new).faults)) }
    ensures files { (D.state disk.new).files ≡ (D.state disk.old).files }
    ensures later { (D.state disk.old).faults ≤ (D.state disk.new).faults }
{
    match name {
        Some(name) => read_wanted(alloc, disk, name, MAX_RULE_BYTES),
        None => Ok(None),
    }
}

/// Reads rule files in order, and then a map, if one is named.
pub fn read_files<'a, D: Disk>(
    alloc: Global,
    disk: &mut D,
    names: &[&'a str],
    map_file: Option<&'a str>,
) -> Result<GivenFiles, Stop<'a>>
    ensures observable { IfSome (D.state disk.old).files
        (λ files. ReturnsOrStops result given_contents
        (contents_of (rules_and_map (map (λ name. name.now) names.now)
        (option_map (λ name. name.now) map_file.entry)) files)
        (IsFirstThere (in_order (rules_and_map (map (λ name. name.now) names.now)
        (option_map (λ name. name.now) map_file.entry))) files
        × Increased (D.state disk.old).faults (D.state disk.new).faults)) }
    ensures opaque { IfNone (D.state disk.old).files
        (ReturnsOpaque result
        (λ given. AreContents (rules_and_map (map (λ name. name.now) names.now)
        (option_map (λ name. name.now) map_file.entry)) (given_contents given))
        (in_order (rules_and_map (map (λ name. name.now) names.now)
        (option_map (λ name. name.now) map_file.entry)))
        (Increased (D.state disk.old).faults (D.state disk.new).faults)) }
    ensures one_each { IfOk result (λ given. length given.rules.items ≡ length names.now) }
    ensures files { (D.state disk.new).files ≡ (D.state disk.old).files }
    ensures later { (D.state disk.old).faults ≤ (D.state disk.new).faults }
{
    let rules = match read_rules(alloc, disk, names) {
        Ok(rules) => rules,
        Err(stop) => return Err(stop),
    };
    match read_named(alloc, disk, map_file) {
        Ok(map_file) => Ok(GivenFiles { rules, map_file }),
        Err(stop) => Err(stop),
    }
}

/// The most bytes of a save.
pub const MAX_SAVE_BYTES: u32 = 4_194_304;

/// The most bytes of a replay.
pub const MAX_REPLAY_BYTES: u32 = 268_435_456;

/// The name of a file that is read after rules and a map.
#[derive(Clone, Copy, Drop)]
pub enum InputFile<'a> {
    /// That of a drill or a script.
    Script(&'a str),
    /// That of a replay.
    Replay(&'a str),
    /// That of a save, before a replay.
    Save(&'a str),
    /// That of the first of two files that are compared.
    Compared(&'a str),
}

/// Reads the file that comes after rules and a map.
pub(crate) fn read_played<'a, D: Disk>(
    alloc: Global,
    disk: &mut D,
    played: InputFile<'a>,
) -> Result<Vec<u8>, Stop<'a>>
    ensures observable { IfSome (D.state disk.old).files
        (λ files. ReturnsOrStops result (λ bytes. Some bytes.items)
        (read_optional (Some (played_file played.entry)) files)
        (IsFirstThere (played_file played.entry ∷ []) files
        × Increased (D.state disk.old).faults (D.state disk.new).faults)) }
    ensures opaque { IfNone (D.state disk.old).files
        (ReturnsOpaque result
        (λ bytes. IsWithinLimit (Some (played_file played.entry)) (Some bytes.items))
        (played_file played.entry ∷ []) (Increased (D.state disk.old).faults (D.state disk.new).faults)) }
    ensures short { IfOk result (λ bytes. length bytes.items ≤ (played_file played.entry).limit) }
    ensures files { (D.state disk.new).files ≡ (D.state disk.old).files }
    ensures later { (D.state disk.old).faults ≤ (D.state disk.new).faults }
{
    match played {
        InputFile::Script(name) => read_one(alloc, disk, name, MAX_DRILL_BYTES),
        InputFile::Replay(name) => read_one(alloc, disk, name, MAX_REPLAY_BYTES),
        InputFile::Save(name) => read_one(alloc, disk, name, MAX_SAVE_BYTES),
        InputFile::Compared(name) => read_one(alloc, disk, name, MAX_REPLAY_BYTES),
    }
}

/// Reads rule files in order, then a map, if one is named, and then this file.
pub fn read_played_files<'a, D: Disk>(
    alloc: Global,
    disk: &mut D,
    names: &[&'a str],
    map_file: Option<&'a str>,
    played: InputFile<'a>,
) -> Result<(GivenFiles, Vec<u8>), Stop<'a>>
    ensures observable { IfSome (D.state disk.old).files
        (λ files. ReturnsOrStops result (played_contents played.entry)
        (contents_of (played_files played.entry (map (λ name. name.now) names.now)
        (option_map (λ name. name.now) map_file.entry)) files)
        (IsFirstThere (in_order (played_files played.entry (map (λ name. name.now) names.now)
        (option_map (λ name. name.now) map_file.entry))) files
        × Increased (D.state disk.old).faults (D.state disk.new).faults)) }
    ensures opaque { IfNone (D.state disk.old).files
        (ReturnsOpaque result
        (λ given. AreContents (played_files played.entry (map (λ name. name.now) names.now)
        (option_map (λ name. name.now) map_file.entry)) (played_contents played.entry given))
        (in_order (played_files played.entry (map (λ name. name.now) names.now)
        (option_map (λ name. name.now) map_file.entry)))
        (Increased (D.state disk.old).faults (D.state disk.new).faults)) }
    ensures one_each { IfOk result (λ given. length given.0.rules.items ≡ length names.now) }
    ensures short { IfOk result (λ given. length given.1.items ≤ (played_file played.entry).limit) }
    ensures files { (D.state disk.new).files ≡ (D.state disk.old).files }
    ensures later { (D.state disk.old).faults ≤ (D.state disk.new).faults }
{
    let given = match read_files(alloc, disk, names, map_file) {
        Ok(given) => given,
        Err(stop) => return Err(stop),
    };
    match read_played(alloc, disk, played) {
        Ok(bytes) => Ok((given, bytes)),
        Err(stop) => Err(stop),
    }
}
