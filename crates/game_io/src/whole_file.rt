//! How a file of the system is written as a whole.
use std::fs::{File, Metadata, OpenFile, OpenOptions};
use std::io::{ErrorKind, Write};
use std::path::PathBuf;
use std::rt::Files;
use std::{fs, io};

/// The most links that are followed from a name.
const MAX_FOLLOWED: u32 = 40;

/// How many names are tried for the file beside.
const MAX_BESIDE: u32 = 16;

/// Makes these bytes the content of the name. Where it is a regular file or none, it has its old
/// bytes until it has all new ones; links are followed, and the old mode is kept.
pub(crate) fn write_whole<R: Files + AllocGlobal>(
    rt: &R,
    name: &str,
    bytes: &[u8],
) -> io::Result<()> {
    match fs::metadata(rt, name) {
        Ok(old) if old.is_file() => write_over(rt, name, &old, bytes),
        Ok(_) => write_in_place(rt, name, bytes),
        Err(error) if error.kind() == ErrorKind::NotFound => {
            replace(rt, &followed(rt, name)?, None, bytes)
        }
        Err(error) => Err(error),
    }
}

/// Writes to a regular file that is there: in place where no path leads to it, as to an open file that
/// was removed.
fn write_over<R: Files + AllocGlobal>(
    rt: &R,
    name: &str,
    old: &Metadata,
    bytes: &[u8],
) -> io::Result<()> {
    let path = followed(rt, name)?;
    match fs::symlink_metadata(rt, &path) {
        Ok(found) if found.is_file() => replace(rt, &path, Some(old), bytes),
        _ => write_in_place(rt, name, bytes),
    }
}

/// The path that the links at the end of a name lead to, whether it is there or not.
fn followed<R: Files + AllocGlobal>(rt: &R, name: &str) -> io::Result<PathBuf> {
    let mut path = PathBuf::from_str(rt.alloc(), name)?;
    for _link in 0..MAX_FOLLOWED {
        match fs::symlink_metadata(rt, &path) {
            Ok(found) if found.is_symlink() => {
                let target = fs::read_link(rt, &path)?;
                path.pop();
                path.push(target)?;
            }
            _ => return Ok(path),
        }
    }
    Err(ErrorKind::FilesystemLoop.into())
}

/// Writes to what has this name.
fn write_in_place<R: Files>(rt: &R, name: &str, bytes: &[u8]) -> io::Result<()> {
    let mut file = File::create(rt, name)?;
    file.write_all(bytes)?;
    file.flush()
}

/// Writes a new file beside a path, with the mode of the old one, and renames it. Where anything
/// fails the path has what it had, and the new file is taken away.
fn replace<R: Files + AllocGlobal>(
    rt: &R,
    path: &PathBuf,
    old: Option<&Metadata>,
    bytes: &[u8],
) -> io::Result<()> {
    let (beside, file) = create_beside(rt, path)?;
    let replaced = fill_and_rename::<R>(rt, file, old, bytes, &beside, path);
    if replaced.is_err() {
        let _taken_away = fs::remove_file(rt, &beside);
    }
    replaced
}

/// A new empty file in the folder of a path.
fn create_beside<R: Files + AllocGlobal>(rt: &R, path: &PathBuf) -> io::Result<(PathBuf, R::File)> {
    let mut last = io::Error::from(ErrorKind::AlreadyExists);
    for number in 0..MAX_BESIDE {
        let name = format!(in rt.alloc(); ".lockstep-new-{number}")?;
        let beside = path.with_file_name(rt.alloc(), &name)?;
        match OpenOptions::new()
            .write(true)
            .create_new(true)
            .open(rt, &beside)
        {
            Ok(file) => return Ok((beside, file)),
            Err(error) if error.kind() == ErrorKind::AlreadyExists => last = error,
            Err(error) => return Err(error),
        }
    }
    Err(last)
}

/// Fills a new file, flushes it to the disk, and gives it its name.
fn fill_and_rename<R: Files>(
    rt: &R,
    file: R::File,
    old: Option<&Metadata>,
    bytes: &[u8],
    beside: &PathBuf,
    path: &PathBuf,
) -> io::Result<()> {
    let mut file = file;
    if let Some(old) = old {
        file.set_permissions(old.permissions())?;
    }
    file.write_all(bytes)?;
    file.sync_all()?;
    fs::rename(rt, beside, path)
}
