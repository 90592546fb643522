//! Folders among the arguments, each of which means its files of items.

use crate::failed;
use souper_ir::parse::Kind;
use souper_watched::Watched;
use std::alloc::Global;
use std::io::{ErrorKind, Write};
use std::{fs, io};

/// The kind that the end of a file's name says.
pub(crate) fn kind_of_name(path: &str) -> Option<Kind> {
    let (_, word) = path.rsplit_once('.')?;
    Kind::from_word(word)
}

fn is_folder(rt: &HostRuntime, path: &str) -> bool {
    fs::metadata(rt, path).is_ok_and(|metadata| metadata.is_dir())
}

fn append_path(alloc: Global, path: &str, paths: &mut Vec<String>) -> io::Result<()> {
    Ok(paths.push(String::from_str(alloc, path)?)?)
}

// Appends the files of the folder whose names say the kind, or any kind, in the order of their bytes. Folders in it are left out.
fn append_files(
    rt: &HostRuntime,
    kind: Option<Kind>,
    folder: &str,
    paths: &mut Vec<String>,
) -> io::Result<()> {
    let mut found = Vec::new(rt.alloc());
    for entry in fs::read_dir(rt, folder)? {
        let entry = entry?;
        let named = kind_of_name(entry.file_name());
        let is_wanted = named.is_some() && (kind.is_none() || named == kind);
        if is_wanted && !entry.file_type()?.is_dir() {
            append_path(rt.alloc(), entry.path().as_str(), &mut found)?;
        }
    }
    if found.is_empty() {
        let says = "a folder without files whose names end in the kind";
        return Err(io::Error::new(ErrorKind::NotFound, says));
    }
    found.sort()?;
    Ok(paths.append(&mut found)?)
}

/// The paths, with the files of a folder in its place: those whose names end in `.lhs`, `.rhs` or `.rep`, as the kind says. A folder that
/// cannot be read, or has no such file, is reported, and the status of the program returned.
pub(crate) fn expand<E: Write>(
    rt: &HostRuntime,
    kind: Option<Kind>,
    paths: &[&str],
    err: &mut Watched<E>,
) -> Result<Vec<String>, u8> {
    let mut files = Vec::new(rt.alloc());
    for path in paths {
        let appended = if is_folder(rt, path) {
            append_files(rt, kind, path, &mut files)
        } else {
            append_path(rt.alloc(), path, &mut files)
        };
        if let Err(fault) = appended {
            return Err(failed(rt.alloc(), path, &fault, err));
        }
    }
    Ok(files)
}
