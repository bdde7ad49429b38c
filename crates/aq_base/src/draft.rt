// A file that is stored is drafted beside the one that it replaces, and takes its place once it is whole.
ghost use Rattle.std.specs.Prelude.{◌≡◌, OnOk, OnErr, IfOk, string_bytes};
ghost use Rattle.aq_base.specs.Acts.{Adds};
ghost use Rattle.aq_base.specs.Disks.{acts_of};
ghost use Rattle.aq_base.specs.Honest.{Creates, IsKept, IsReady, IsPlaced, Closes, LeavesNone};
ghost use Rattle.aq_base.specs.Honest.{beside, followed, is_absolute, is_idle};
ghost use Rattle.aq_base.specs.Code.Drafts.{Drafts, Ends, Finds, Follows, IsAt, IsNamed, Tries};

use crate::disk::{About, Disk, RuntimeFiles};
use crate::store::StoreRefusal;
use std::alloc::{AllocError, Global};

// How many paths a name may lead through: the system follows 40 links.
const MOST_PATHS: u32 = 41;

// How many names are tried for a draft. Each of them but the last is another run's, or is left of one that was killed.
const MOST_DRAFTS: u32 = 100_000;

// Where the bytes that are stored under a name go.
#[derive(Drop)]
enum Place {
    // Into the file itself, which is no regular one, or can't be asked what it is.
    AsItStands,
    // To a path that is no link, at which a regular file stands, or none.
    At { path: String, old: Option<About> },
}

// The path of a name in the folder of another path.
fn beside(alloc: Global, path: &str, name: &str) -> Result<String, AllocError>
    ensures { IfOk result (λ made. string_bytes made ≡ beside path.now name.now) }
{
    match path.rsplit_once('/') {
        Some((folder, _)) => format!(in alloc; "{folder}/{name}"),
        None => String::from_str(alloc, name),
    }
}

// Whether a path begins at the root.
#[tactic(auto, using(crate::proofs::Folders::folders))]
fn is_absolute(path: &[u8]) -> bool
    ensures { result ≡ is_absolute path.now }
{
    !path.is_empty() && path[0] == b'/'
}

// The path to which a link at a path leads.
fn followed(alloc: Global, path: &str, target: String) -> Result<String, AllocError>
    ensures { IfOk result (λ next. string_bytes next ≡ followed path.now (string_bytes target)) }
{
    if is_absolute(target.as_bytes()) {
        return Ok(target);
    }
    beside(alloc, path, target.as_str())
}

// Whether a link is one by which the system shows an open file, as /dev/fd/3 is. Whoever opened that file goes on with
// it, so that no other may take its place.
fn shows_open_file<R: RuntimeFiles>(disk: &Disk<R>, link: &About) -> bool {
    match disk.about_link("/proc/self") {
        Ok(Some(process)) => process.device == link.device,
        _ => false,
    }
}

// Reads a link, and says where it leads.
#[tactic(auto, using(crate::proofs::Drafting::drafting_calls))]
fn follow<R: RuntimeFiles>(
    alloc: Global,
    disk: &mut Disk<R>,
    path: &str,
) -> Result<String, StoreRefusal>
    ensures led { IfOk result (λ next. Follows path.now (string_bytes next) (acts_of disk.old) (acts_of disk.new)) }
    ensures refused { OnErr result (Adds is_idle (acts_of disk.old) (acts_of disk.new)) }
{
    match disk.read_link(path) {
        Ok(target) => match followed(alloc, path, target) {
            Ok(next) => Ok(next),
            Err(_) => Err(StoreRefusal::Memory),
        },
        Err(why) => Err(why),
    }
}

// A path at which no file stands, unless it names a folder.
fn place_of_none(path: String) -> Place
    ensures { IsAt (string_bytes path) result }
{
    if path.is_empty() || path.as_str().ends_with('/') {
        return Place::AsItStands;
    }
    Place::At { path, old: None }
}

// Follows the links of a name, one at a time.
#[tactic(auto, using(crate::proofs::Drafting::drafting_calls))]
fn place_behind<R: RuntimeFiles>(
    alloc: Global,
    disk: &mut Disk<R>,
    name: &str,
) -> Result<Place, StoreRefusal>
    ensures found { IfOk result (Finds name.now (acts_of disk.old) (acts_of disk.new)) }
    ensures refused { OnErr result (Adds is_idle (acts_of disk.old) (acts_of disk.new)) }
{
    let Ok(first) = String::from_str(alloc, name) else {
        return Err(StoreRefusal::Memory);
    };
    let mut path = first;
    for _ in 0..MOST_PATHS {
        let about = match disk.about_link(path.as_str()) {
            Ok(Some(about)) => about,
            Ok(None) => return Ok(place_of_none(path)),
            Err(why) => return Err(why),
        };
        if about.is_file {
            return Ok(Place::At {
                path,
                old: Some(about),
            });
        }
        if !about.is_link || shows_open_file(disk, &about) {
            return Ok(Place::AsItStands);
        }
        match follow(alloc, disk, path.as_str()) {
            Ok(next) => path = next,
            Err(why) => return Err(why),
        }
    }
    Err(StoreRefusal::Failed)
}

// Where what is stored under a name goes. The system is asked first, since it may refuse to follow the links.
#[tactic(auto, using(crate::proofs::Drafting::drafting_calls))]
fn place_for<R: RuntimeFiles>(
    alloc: Global,
    disk: &mut Disk<R>,
    name: &str,
) -> Result<Place, StoreRefusal>
    ensures found { IfOk result (Finds name.now (acts_of disk.old) (acts_of disk.new)) }
    ensures refused { OnErr result (Adds is_idle (acts_of disk.old) (acts_of disk.new)) }
{
    match disk.about(name) {
        Ok(None) => place_behind(alloc, disk, name),
        Ok(Some(about)) => {
            if !about.is_file {
                return Ok(Place::AsItStands);
            }
            place_behind(alloc, disk, name)
        }
        Err(_) => Ok(Place::AsItStands),
    }
}

// The path of a draft of this number for a target, and the target.
fn draft_path(alloc: Global, target: &str, number: u32) -> Result<String, AllocError> {
    let name = format!(in alloc; ".aqfp-{number}.part")?;
    beside(alloc, target, name.as_str())
}

// Makes a draft under the first name that no file has.
#[tactic(auto, using(crate::proofs::Drafting::drafting_calls))]
fn first_draft<R: RuntimeFiles>(
    alloc: Global,
    disk: &mut Disk<R>,
    target: &str,
    mode: Option<u32>,
) -> Result<(), StoreRefusal>
    ensures made { OnOk result (Drafts target.now (acts_of disk.old) (acts_of disk.new)) }
    ensures refused { OnErr result (Adds is_idle (acts_of disk.old) (acts_of disk.new)) }
{
    for number in 0..MOST_DRAFTS {
        let Ok(path) = draft_path(alloc, target, number) else {
            return Err(StoreRefusal::Memory);
        };
        let Ok(kept) = String::from_str(alloc, target) else {
            return Err(StoreRefusal::Memory);
        };
        match disk.draft(path, kept, mode) {
            Ok(true) => return Ok(()),
            Ok(false) => {}
            Err(why) => return Err(why),
        }
    }
    Err(StoreRefusal::Failed)
}

// Opens the folder of a target, if it can be opened. Only memory is refused.
fn open_folder<R: RuntimeFiles>(
    alloc: Global,
    disk: &mut Disk<R>,
    target: &str,
) -> Result<(), AllocError>
    ensures { acts_of disk.new ≡ acts_of disk.old }
{
    let folder = beside(alloc, target, ".")?;
    disk.open_folder(folder.as_str());
    Ok(())
}

// Makes a draft for a target, if what stands there may be replaced.
#[tactic(auto, using(crate::proofs::Drafting::drafting_calls))]
fn open_draft<R: RuntimeFiles>(
    alloc: Global,
    disk: &mut Disk<R>,
    target: &str,
    old: Option<About>,
) -> Result<(), StoreRefusal>
    ensures made { OnOk result (Drafts target.now (acts_of disk.old) (acts_of disk.new)) }
    ensures refused { OnErr result (Adds is_idle (acts_of disk.old) (acts_of disk.new)) }
{
    if open_folder(alloc, disk, target).is_err() {
        return Err(StoreRefusal::Memory);
    }
    let Some(old) = old else {
        return first_draft(alloc, disk, target, None);
    };
    match disk.try_to_write(target) {
        Ok(()) => first_draft(alloc, disk, target, Some(old.mode)),
        Err(why) => Err(why),
    }
}

// Whether two of what the system knows of files are of one file.
fn is_same_file(one: &About, other: &About) -> bool {
    one.device == other.device && one.number == other.number
}

// Whether a name leads to the regular file that standard output or standard error goes to: what is printed there would
// lie over the bytes that are stored. A stream that is shut, or can't be asked, is no file.
fn takes_what_is_printed<R: RuntimeFiles>(disk: &Disk<R>, name: &str) -> bool {
    let Ok(Some(about)) = disk.about(name) else {
        return false;
    };
    if !about.is_file {
        return false;
    }
    for stream in ["/dev/fd/1", "/dev/fd/2"] {
        if let Ok(Some(printed)) = disk.about(stream) {
            if is_same_file(&about, &printed) {
                return true;
            }
        }
    }
    false
}

/// Opens a file that is to be stored under a name. What stands there stays until the file is closed, if it is a regular
/// file or none. The file of standard output or standard error is refused.
#[tactic(auto, using(crate::proofs::Drafting::drafting_calls))]
pub(crate) fn open<R: RuntimeFiles>(
    alloc: Global,
    disk: &mut Disk<R>,
    name: &str,
) -> Result<(), StoreRefusal>
    ensures made { OnOk result (Creates name.now (acts_of disk.old) (acts_of disk.new)) }
    ensures refused { OnErr result (Adds is_idle (acts_of disk.old) (acts_of disk.new)) }
{
    if takes_what_is_printed(disk, name) {
        return Err(StoreRefusal::Failed);
    }
    match place_for(alloc, disk, name) {
        Ok(Place::AsItStands) => disk.make(name),
        Ok(Place::At { path, old }) => open_draft(alloc, disk, path.as_str(), old),
        Err(why) => Err(why),
    }
}

// Whether what was written is on its way to stay. Only a regular file is synced: a pipe, a terminal or a device keeps
// nothing.
#[tactic(auto, using(crate::proofs::Drafting::closing_calls))]
fn is_kept<R: RuntimeFiles>(disk: &mut Disk<R>) -> bool
    ensures { Tries IsKept result (acts_of disk.old) (acts_of disk.new) }
{
    if disk.is_special() {
        return true;
    }
    disk.sync()
}

// Whether the draft may take its place: it has its mode, and what it holds is on its way to stay.
#[tactic(auto, using(crate::proofs::Drafting::closing_calls))]
fn is_ready<R: RuntimeFiles>(disk: &mut Disk<R>) -> bool
    ensures { Tries IsReady result (acts_of disk.old) (acts_of disk.new) }
{
    if disk.has_mode() {
        return disk.sync();
    }
    if !disk.set_mode() {
        return false;
    }
    disk.sync()
}

// Whether the new name is on its way to stay. A folder that can't be opened is taken to keep it.
#[tactic(auto, using(crate::proofs::Drafting::closing_calls))]
fn is_named<R: RuntimeFiles>(disk: &mut Disk<R>) -> bool
    ensures { Tries IsNamed result (acts_of disk.old) (acts_of disk.new) }
{
    if disk.has_folder() {
        return disk.sync_folder();
    }
    true
}

// Puts the draft in its place, if it is ready.
#[tactic(auto, using(crate::proofs::Drafting::closing_calls))]
fn put<R: RuntimeFiles>(disk: &mut Disk<R>) -> bool
    ensures { Tries IsPlaced result (acts_of disk.old) (acts_of disk.new) }
{
    if !is_ready(disk) {
        return false;
    }
    if !disk.place() {
        return false;
    }
    is_named(disk)
}

// Whether the file that is open stands under its name with all that it was given.
#[tactic(auto, using(crate::proofs::Drafting::closing_calls))]
fn is_closed<R: RuntimeFiles>(disk: &mut Disk<R>, took_all: bool) -> bool
    ensures { Tries Closes result (acts_of disk.old) (acts_of disk.new) }
{
    if !disk.flush() {
        return false;
    }
    if !disk.has_draft() {
        return is_kept(disk);
    }
    if !took_all {
        return false;
    }
    put(disk)
}

/// Gives up the file that is open: a draft is removed, so that all is as it was.
#[tactic(auto, using(crate::proofs::Drafting::closing_calls))]
pub(crate) fn give_up<R: RuntimeFiles>(disk: &mut Disk<R>)
    ensures { LeavesNone (acts_of disk.old) (acts_of disk.new) }
{
    disk.release();
    if disk.has_draft() {
        let _ = disk.remove();
    }
}

/// Ends a file that is open, and says whether it stands under its name with all that it was given. A draft that did not
/// take all of it is removed.
#[tactic(auto, using(crate::proofs::Drafting::closing_calls))]
pub(crate) fn finish<R: RuntimeFiles>(disk: &mut Disk<R>, took_all: bool) -> bool
    ensures { Ends result (acts_of disk.old) (acts_of disk.new) }
{
    if is_closed(disk, took_all) {
        disk.release();
        return true;
    }
    give_up(disk);
    false
}
