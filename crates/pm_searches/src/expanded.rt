//! The files of folders that are given as images of `find`, `grep` and `info`.
use pm_files::{Host, Kind};
use pm_plan::{Plan, SearchPlan};
use std::alloc::{AllocError, Global};
use std::{fs, io};

/// The maximum number of folders that are read for one path.
const MOST_FOLDERS: usize = 100_000;

/// The files and folders of a folder that are still to be examined, and the files that were found.
#[derive(Drop)]
struct Found {
    /// The paths of folders that are still to be read.
    folders: Vec<String>,
    /// The paths of files.
    files: Vec<String>,
}

/// Returns whether a folder is at `path`. A link to a folder counts as a folder.
fn is_folder<R: Host>(rt: &R, path: &str) -> bool {
    fs::metadata(rt, path).is_ok_and(|file| file.is_dir())
}

/// Returns whether a regular file is at `path`, or a link to one.
fn is_file<R: Host>(rt: &R, path: &str) -> bool {
    fs::metadata(rt, path).is_ok_and(|file| file.is_file())
}

/// Adds `path`, a path in a folder, to the folders or to the files of `found`. A link to a file is a file. A link to a
/// folder, a device, a pipe and a socket are not added.
fn add_path<R: Host>(rt: &R, found: &mut Found, path: String) -> io::Result<()> {
    let Some(node) = rt.node_at(path.as_str(), false)? else {
        return Ok(());
    };
    match node.kind {
        Kind::File => found.files.push(path)?,
        Kind::Link if is_file(rt, path.as_str()) => found.files.push(path)?,
        Kind::Other if is_folder(rt, path.as_str()) => found.folders.push(path)?,
        Kind::Link | Kind::Other => {}
    }
    Ok(())
}

/// Adds the files and folders of the folder at `path` to `found`.
fn add_folder<R: Host>(rt: &R, alloc: Global, found: &mut Found, path: &str) -> io::Result<()> {
    let folder = path.trim_end_matches('/');
    for name in rt.names(alloc, path)? {
        let path = format!(in alloc; "{folder}/{name}")?;
        add_path(rt, found, path)?;
    }
    Ok(())
}

/// Returns the paths of the files in the folder at `path` and in the folders below it, in the order of their bytes. If
/// this folder, or one below it, cannot be read, its own path is among them, so that the search reports it.
fn files_below<R: Host>(rt: &R, alloc: Global, path: &str) -> Result<Vec<String>, AllocError> {
    let mut found = Found {
        folders: Vec::new(alloc),
        files: Vec::new(alloc),
    };
    found.folders.push(String::from_str(alloc, path)?)?;
    for _ in 0..MOST_FOLDERS {
        let Some(folder) = found.folders.pop() else {
            break;
        };
        if add_folder(rt, alloc, &mut found, folder.as_str()).is_err() {
            found.files.push(folder)?;
        }
    }
    let Found { folders, mut files } = found;
    files.extend(folders)?;
    files.sort()?;
    Ok(files)
}

/// Returns `paths` with the files of each folder in place of the path of the folder. Links to folders in a folder are
/// not followed, and no device, pipe or socket in a folder is included.
fn expanded<R: Host>(rt: &R, alloc: Global, paths: Vec<String>) -> Result<Vec<String>, AllocError> {
    let mut files = Vec::new(alloc);
    for path in paths {
        if is_folder(rt, path.as_str()) {
            files.extend(files_below(rt, alloc, path.as_str())?)?;
        } else {
            files.push(path)?;
        }
    }
    Ok(files)
}

/// Returns `plan` with the files of each folder in place of the folder, if the plan is a search. Links to folders in a
/// folder are not followed, and no device, pipe or socket in a folder is included.
///
/// # Errors
///
/// - Out of memory: `AllocError`.
pub fn with_files<R: Host + AllocGlobal>(rt: &R, plan: Plan) -> Result<Plan, AllocError> {
    match plan {
        Plan::Search(SearchPlan { sought, images }) => {
            let images = expanded(rt, rt.alloc(), images)?;
            Ok(Plan::Search(SearchPlan { sought, images }))
        }
        plan => Ok(plan),
    }
}
