// Folders that the tests fill.
use std::{env, fs, io};

/// An empty folder of this name, among what is temporary.
pub fn empty_folder(rt: HostRuntime, name: &str) -> io::Result<String> {
    let above = env::temp_dir(&rt)?;
    let folder = above.join(rt.alloc(), name)?.into_string();
    let _ = fs::remove_dir_all(&rt, folder.as_str());
    fs::create_dir(&rt, folder.as_str())?;
    Ok(folder)
}

/// How many files a folder has.
pub fn count(rt: &HostRuntime, folder: &str) -> io::Result<usize> {
    let mut count: usize = 0;
    for entry in fs::read_dir(rt, folder)? {
        entry?;
        count = count.saturating_add(1);
    }
    Ok(count)
}

/// The path of a name in a folder.
pub fn path_in(rt: HostRuntime, folder: &str, name: &str) -> io::Result<String> {
    Ok(format!(in rt.alloc(); "{folder}/{name}")?)
}

/// Whether a file holds this text.
pub fn holds(rt: HostRuntime, path: &str, text: &str) -> io::Result<bool> {
    Ok(fs::read_to_string(&rt, path)?.as_str() == text)
}
