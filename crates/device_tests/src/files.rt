//! Real files that are written as a whole.

use game_io::{Disk, FileDisk};
use std::alloc::{AllocError, Global};
use std::os::unix::fs::{PermissionsExt, symlink};
use std::test::Fail;
use std::{env, fs, process};

/// A folder of its own for one test, and a name in it.
fn name_in(alloc: Global, folder: &str, name: &str) -> Result<String, AllocError> {
    format!(in alloc; "{folder}/{name}")
}

/// The name of a folder for a test, under the one for temporary files.
fn folder_name(rt: &HostRuntime, alloc: Global, id: u32, test: &str) -> Result<String, Fail> {
    let temporary = env::temp_dir(rt)?;
    Ok(format!(in alloc; "{}/game_io-{test}-{id}", temporary.as_path().display())?)
}

/// Makes an empty folder under the one for temporary files.
fn make_folder(rt: &HostRuntime, alloc: Global, id: u32, test: &str) -> Result<String, Fail> {
    let folder = folder_name(rt, alloc, id, test)?;
    fs::create_dir(rt, &folder)?;
    Ok(folder)
}

/// Makes a symbolic link in a folder, and answers its name.
fn make_link(
    rt: &HostRuntime,
    alloc: Global,
    folder: &str,
    name: &str,
    to: &str,
) -> Result<String, Fail> {
    let link = name_in(alloc, folder, name)?;
    symlink(rt, to, &link)?;
    Ok(link)
}

/// Takes all names for files beside one in this folder.
fn take_all_names(rt: &HostRuntime, alloc: Global, folder: &str) -> Result<(), Fail> {
    for number in 0..16 {
        let beside = format!(in alloc; "{folder}/.lockstep-new-{number}")?;
        fs::write(rt, &beside, b"another's")?;
    }
    Ok(())
}

#[test]
fn a_failed_write_leaves_the_old_bytes(rt: HostRuntime) -> Result<(), Fail> {
    let alloc = rt.alloc();
    let folder = make_folder(&rt, alloc, process::id(rt.process()), "kept")?;
    let name = name_in(alloc, &folder, "kept")?;
    fs::write(&rt, &name, b"old")?;
    // With all names taken no file can be made beside it.
    take_all_names(&rt, alloc, &folder)?;
    let mut disk = FileDisk::new(&rt);
    assert!(rt; disk.write_file(alloc, &name, b"new").is_err());
    assert_eq!(rt; disk.faults(), 1);
    assert_eq!(rt; fs::read(&rt, &name)?.as_slice(), b"old".as_slice());
    let freed = name_in(alloc, &folder, ".lockstep-new-7")?;
    fs::remove_file(&rt, &freed)?;
    assert_eq!(rt; disk.write_file(alloc, &name, b"new"), Ok(()));
    assert_eq!(rt; fs::read(&rt, &name)?.as_slice(), b"new".as_slice());
    assert!(rt; !fs::exists(&rt, &freed)?);
    fs::remove_dir_all(&rt, &folder)?;
    Ok(())
}

#[test]
fn links_are_followed_and_the_mode_is_kept(rt: HostRuntime) -> Result<(), Fail> {
    let alloc = rt.alloc();
    let folder = make_folder(&rt, alloc, process::id(rt.process()), "linked")?;
    let name = name_in(alloc, &folder, "file")?;
    let first = make_link(&rt, alloc, &folder, "first", "file")?;
    let second = make_link(&rt, alloc, &folder, "second", &first)?;
    let mut disk = FileDisk::new(&rt);
    // Nothing is there yet.
    assert_eq!(rt; disk.write_file(alloc, &second, b"old"), Ok(()));
    fs::set_permissions(&rt, &name, PermissionsExt::from_mode(0o640))?;
    assert_eq!(rt; disk.write_file(alloc, &second, b"new"), Ok(()));
    assert_eq!(rt; fs::read(&rt, &name)?.as_slice(), b"new".as_slice());
    assert_eq!(rt;
        fs::metadata(&rt, &name)?.permissions().mode() & 0o777,
        0o640
    );
    assert!(rt; fs::symlink_metadata(&rt, &first)?.is_symlink());
    assert!(rt; fs::symlink_metadata(&rt, &second)?.is_symlink());
    // A link that leads to itself leads nowhere.
    let round = make_link(&rt, alloc, &folder, "round", "round")?;
    assert!(rt; disk.write_file(alloc, &round, b"new").is_err());
    fs::remove_dir_all(&rt, &folder)?;
    Ok(())
}

#[test]
fn devices_are_written_in_place(rt: HostRuntime) -> Result<(), Fail> {
    let mut disk = FileDisk::new(&rt);
    assert_eq!(rt; disk.write_file(rt.alloc(), "/dev/null", b"x"), Ok(()));
    assert!(rt; disk.write_file(rt.alloc(), "/dev/full", b"x").is_err());
    assert!(rt; !fs::metadata(&rt, "/dev/null")?.is_file());
    assert_eq!(rt; disk.faults(), 1);
    Ok(())
}
