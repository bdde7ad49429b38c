// The system's files: what is stored is loaded, and a file is replaced when it is closed.
ghost use Rattle.std.specs.Prelude.{◌≡◌, None, IsSome, OnOk};
ghost use Rattle.aq_base.specs.StandardStore.{opened_of};

use crate::folders::{count, empty_folder, holds, path_in};
use aq_base::{Disk, Files, LoadRefusal, StdFiles, StoreRefusal};
use std::os::unix::fs::{MetadataExt, PermissionsExt, symlink};
use std::test::Fail;
use std::{fs, io};

// The system's files, on which no call was made.
fn system(rt: HostRuntime) -> StdFiles<HostRuntime>
    ensures { opened_of result ≡ None }
{
    StdFiles::new(rt.alloc(), Disk::new(rt.alloc(), rt))
}

// Opens a name, and adds a piece.
fn begins<F: Files>(files: &mut F, name: &str, piece: &[u8]) -> Result<(), StoreRefusal>
    requires { (F.outside files.old).opened ≡ None }
    ensures { OnOk result (IsSome (F.outside files.new).opened) }
{
    files.create(name)?;
    files.append(piece)
}

// Stores two pieces under a name.
fn stores<F: Files>(files: &mut F, name: &str, one: &[u8], other: &[u8]) -> Result<(), StoreRefusal>
    requires { (F.outside files.old).opened ≡ None }
{
    begins(files, name, one)?;
    files.append(other)?;
    files.close()
}

#[test]
fn what_is_stored_is_loaded(rt: HostRuntime) -> Result<(), Fail> {
    let folder = empty_folder(rt, "aqfp_std_files_test")?;
    let chip = path_in(rt, folder.as_str(), "chip")?;
    let mut files = system(rt);
    assert!(rt; stores(&mut files, chip.as_str(), b"abc", b"de").is_ok());
    let mut into = Vec::new(rt.alloc());
    assert!(rt; files.load(chip.as_str(), 5, &mut into).is_ok());
    assert_eq!(rt; into.as_slice(), b"abcde".as_slice());
    assert_eq!(rt;
        files.load(chip.as_str(), 3, &mut into),
        Err(LoadRefusal::TooLong { taken: 4 })
    );
    fs::remove_dir_all(&rt, folder.as_str())?;
    Ok(())
}

#[test]
fn what_is_absent_or_a_folder_is_refused(rt: HostRuntime) -> Result<(), Fail> {
    let folder = empty_folder(rt, "aqfp_std_files_refused")?;
    let chip = path_in(rt, folder.as_str(), "chip")?;
    let mut files = system(rt);
    let mut into = Vec::new(rt.alloc());
    assert_eq!(rt;
        files.load(chip.as_str(), 5, &mut into),
        Err(LoadRefusal::Absent)
    );
    assert_eq!(rt;
        files.load(folder.as_str(), 5, &mut into),
        Err(LoadRefusal::Failed)
    );
    assert_eq!(rt; files.create(folder.as_str()), Err(StoreRefusal::Failed));
    assert!(rt; into.is_empty());
    fs::remove_dir_all(&rt, folder.as_str())?;
    Ok(())
}

// Whether a file that a link leads to is replaced when it is closed and not before, and keeps its mode.
fn is_replaced(rt: HostRuntime, folder: &str) -> io::Result<bool> {
    let chip = path_in(rt, folder, "chip")?;
    let link = path_in(rt, folder, "link")?;
    fs::write(&rt, chip.as_str(), "old")?;
    fs::set_permissions(&rt, chip.as_str(), fs::Permissions::from_mode(0o640))?;
    symlink(&rt, "chip", link.as_str())?;
    let mut files = system(rt);
    let is_begun = begins(&mut files, link.as_str(), b"new").is_ok();
    let stands = holds(rt, chip.as_str(), "old")? && count(&rt, folder)? == 3;
    let is_closed = is_begun && files.close().is_ok();
    let mode = fs::metadata(&rt, chip.as_str())?.mode() & 0o777;
    Ok(stands && is_closed && mode == 0o640)
}

#[test]
fn a_file_is_replaced_when_it_is_closed(rt: HostRuntime) -> Result<(), Fail> {
    let folder = empty_folder(rt, "aqfp_std_files_drafts")?;
    assert!(rt; is_replaced(rt, folder.as_str())?);
    let chip = path_in(rt, folder.as_str(), "chip")?;
    let link = path_in(rt, folder.as_str(), "link")?;
    assert!(rt; holds(rt, chip.as_str(), "new")?);
    assert!(rt; fs::symlink_metadata(&rt, link.as_str())?.is_symlink());
    assert_eq!(rt; count(&rt, folder.as_str())?, 2);
    fs::remove_dir_all(&rt, folder.as_str())?;
    Ok(())
}

// Begins a file, and gives it up; and begins another, and drops the store.
fn gives_up(rt: HostRuntime, chip: &str) -> bool {
    let mut files = system(rt);
    if begins(&mut files, chip, b"cut").is_err() {
        return false;
    }
    files.discard();
    let is_begun = begins(&mut files, chip, b"dropped").is_ok();
    drop(files);
    is_begun
}

#[test]
fn a_file_that_is_given_up_stays(rt: HostRuntime) -> Result<(), Fail> {
    let folder = empty_folder(rt, "aqfp_std_files_kept")?;
    let chip = path_in(rt, folder.as_str(), "chip")?;
    fs::write(&rt, chip.as_str(), "old")?;
    assert!(rt; gives_up(rt, chip.as_str()));
    assert!(rt; holds(rt, chip.as_str(), "old")?);
    assert_eq!(rt; count(&rt, folder.as_str())?, 1);
    fs::remove_dir_all(&rt, folder.as_str())?;
    Ok(())
}

#[test]
fn two_stores_take_turns(rt: HostRuntime) -> Result<(), Fail> {
    let folder = empty_folder(rt, "aqfp_std_files_turns")?;
    let chip = path_in(rt, folder.as_str(), "chip")?;
    let mut one = system(rt);
    let mut other = system(rt);
    assert!(rt; begins(&mut one, chip.as_str(), b"first").is_ok());
    assert!(rt; begins(&mut other, chip.as_str(), b"2nd").is_ok());
    assert!(rt; one.close().is_ok());
    assert!(rt; holds(rt, chip.as_str(), "first")?);
    assert!(rt; other.close().is_ok());
    assert!(rt; holds(rt, chip.as_str(), "2nd")?);
    assert_eq!(rt; count(&rt, folder.as_str())?, 1);
    fs::remove_dir_all(&rt, folder.as_str())?;
    Ok(())
}

// Makes a chain of links, each to the one before, of which the first leads to the file 0.
fn link_chain(rt: HostRuntime, folder: &str, links: u32) -> io::Result<()> {
    for number in 0..links {
        let next = number.saturating_add(1);
        let to = format!(in rt.alloc(); "{number}")?;
        let link = format!(in rt.alloc(); "{folder}/{next}")?;
        symlink(&rt, to.as_str(), link.as_str())?;
    }
    Ok(())
}

#[test]
fn as_many_links_are_followed_as_by_the_system(rt: HostRuntime) -> Result<(), Fail> {
    let folder = empty_folder(rt, "aqfp_std_files_links")?;
    let file = path_in(rt, folder.as_str(), "0")?;
    fs::write(&rt, file.as_str(), "old")?;
    link_chain(rt, folder.as_str(), 41)?;
    let last = path_in(rt, folder.as_str(), "40")?;
    let beyond = path_in(rt, folder.as_str(), "41")?;
    let mut files = system(rt);
    assert_eq!(rt; files.create(beyond.as_str()), Err(StoreRefusal::Failed));
    assert!(rt; stores(&mut files, last.as_str(), b"n", b"ew").is_ok());
    assert!(rt; holds(rt, file.as_str(), "new")?);
    fs::remove_dir_all(&rt, folder.as_str())?;
    Ok(())
}
