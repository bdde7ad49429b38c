// Files that replace others, over a runtime of which some calls are refused.
use crate::folders::{count, empty_folder};
use crate::refusing::{Refused, Refusing};
use aq_base::{Disk, Files, StdFiles, StoreRefusal};
use std::fs;
use std::test::Fail;

// What storing some bytes under a name answers, where some calls are refused.
fn store(rt: HostRuntime, chip: &str, refused: Refused) -> Result<(), StoreRefusal> {
    let runtime = Refusing { inner: rt, refused };
    let mut files = StdFiles::new(rt.alloc(), Disk::new(rt.alloc(), runtime));
    files.create(chip)?;
    match files.append(b"new") {
        Ok(()) => files.close(),
        Err(refusal) => {
            files.discard();
            Err(refusal)
        }
    }
}

// Whether a file that stands in a folder is replaced by none.
fn is_kept(rt: HostRuntime, folder: &str, refused: Refused) -> Result<bool, Fail> {
    let chip = format!(in rt.alloc(); "{folder}/chip")?;
    fs::write(&rt, chip.as_str(), "old")?;
    let answer = store(rt, chip.as_str(), refused);
    let left = fs::read_to_string(&rt, chip.as_str())?;
    let files = count(&rt, folder)?;
    Ok(answer == Err(StoreRefusal::Failed) && left.as_str() == "old" && files == 1)
}

// Whether a name under which nothing stands gets no file.
fn is_absent(rt: HostRuntime, folder: &str, refused: Refused) -> Result<bool, Fail> {
    let chip = format!(in rt.alloc(); "{folder}/other")?;
    let answer = store(rt, chip.as_str(), refused);
    Ok(answer == Err(StoreRefusal::Failed) && count(&rt, folder)? == 1)
}

#[test]
fn a_refused_call_leaves_what_stood(rt: HostRuntime) -> Result<(), Fail> {
    let folder = empty_folder(rt, "aqfp_refusing_test")?;
    let folder = folder.as_str();
    for refused in [Refused::Drafts, Refused::Syncs, Refused::Renames] {
        assert!(rt; is_kept(rt, folder, refused)?);
        assert!(rt; is_absent(rt, folder, refused)?);
    }
    fs::remove_dir_all(&rt, folder)?;
    Ok(())
}
