//! Files that are rewritten by their canonical texts.

use crate::differ::canonical;
use crate::losses::say_lost;
use crate::{failed, out_of_memory};
use souper_cli::progress::{Meter, Metered};
use souper_ir::parse::Kind;
use souper_records::layout::{Layout, PLAIN};
use souper_stream::StreamItem;
use souper_watched::Watched;
use std::alloc::{AllocError, Global};
use std::fs::{File, Metadata, OpenOptions};
use std::io::{ErrorKind, Read, Write};
use std::os::unix::fs::OpenOptionsExt;
use std::path::{Path, PathBuf};
use std::{fs, io};

/// How files are rewritten.
#[derive(Clone, Copy)]
pub(crate) struct Rewriting {
    /// Whether names are by the printed order.
    pub(crate) rename: bool,

    /// Whether write-protected files are rewritten too.
    pub(crate) force: bool,

    /// Whether nothing is said of comments and definitions that were not written.
    pub(crate) quiet: bool,
}

// A file that is not a link.
#[derive(Drop)]
struct Target {
    path: PathBuf,
    metadata: Metadata,
    bytes: Vec<u8>,
}

// Of the message at most 80 bytes are kept.
fn refusal(says: &'static str) -> io::Error {
    io::Error::new(ErrorKind::InvalidInput, says)
}

// Fails if nobody may write to the file, or the user may not.
fn check_writable(rt: &HostRuntime, path: Path<'_>, metadata: &Metadata) -> io::Result<()> {
    if metadata.permissions().readonly() {
        return Err(refusal("write-protected; --force rewrites it"));
    }
    match OpenOptions::new().write(true).open(rt, path) {
        Ok(_) => Ok(()),
        Err(fault) if fault.kind() == ErrorKind::PermissionDenied => {
            Err(refusal("no permission to write; --force rewrites it"))
        }
        Err(fault) => Err(fault),
    }
}

// The file of the path, or the one that a link of this path leads to.
fn read_target(
    rt: &HostRuntime,
    force: bool,
    meter: &mut Meter<'_>,
    name: &str,
) -> io::Result<Target> {
    let path = fs::canonicalize(rt, name)?;
    let metadata = fs::metadata(rt, path.as_path())?;
    if !metadata.is_file() {
        return Err(refusal("not a file"));
    }
    if !force {
        check_writable(rt, path.as_path(), &metadata)?;
    }
    let mut bytes = Vec::new(rt.alloc());
    let reader = File::open(rt, path.as_path())?;
    Metered { reader, meter }.read_to_end(&mut bytes)?;
    Ok(Target {
        path,
        metadata,
        bytes,
    })
}

// The path of the new file: beside the old one, so that it can be renamed over it.
fn new_path(alloc: Global, path: Path<'_>) -> Result<PathBuf, AllocError> {
    let name = path.file_name().unwrap_or("");
    let name = format!(in alloc; ".{name}.souper_items-new")?;
    path.with_file_name(alloc, name.as_str())
}

// Only the user may read a new file until it has the permissions of the old one.
fn create(rt: &HostRuntime, path: Path<'_>) -> io::Result<File> {
    let mut options = OpenOptions::new();
    let options = options.write(true).create_new(true).mode(0o600);
    match options.open(rt, path) {
        Err(fault) if fault.kind() == ErrorKind::AlreadyExists => Err(refusal(
            "left by an interrupted run, or in use; if no other run uses it, remove it",
        )),
        result => result,
    }
}

fn fill(mut file: File, metadata: &Metadata, text: &str) -> io::Result<()> {
    file.write_all(text.as_bytes())?;
    file.set_permissions(metadata.permissions())?;
    file.sync_all()
}

// Writes the text to a new file, and renames that over the old one. Returns the status of the program.
fn replace<E: Write>(
    rt: &HostRuntime,
    name: &str,
    target: &Target,
    text: &str,
    err: &mut Watched<E>,
) -> u8 {
    let alloc = rt.alloc();
    let Ok(path) = new_path(alloc, target.path.as_path()) else {
        return out_of_memory(err);
    };
    let path = path.as_path();
    let file = match create(rt, path) {
        Ok(file) => file,
        Err(fault) => return failed(alloc, path.as_str(), &fault, err),
    };
    let filled = fill(file, &target.metadata, text);
    match filled.and_then(|()| fs::rename(rt, path, target.path.as_path())) {
        Ok(()) => 0,
        Err(fault) => {
            let _ = fs::remove_file(rt, path);
            failed(alloc, name, &fault, err)
        }
    }
}

/// Rewrites the file by its canonical text, or by that with names by the printed order, unless it has it already or has no item. Says what
/// was not written, and that a file has no item. Returns the status of the program: 0, it has that text, or no item; 1, it is invalid; 2, it
/// cannot be read or replaced, it is write-protected and `force` is false, it is not UTF-8, or memory ran out. With 1 and 2 it is as before,
/// and why was reported.
pub(crate) fn rewrite<T: StreamItem + Drop, E: Write>(
    rt: &HostRuntime,
    how: Rewriting,
    kind: Kind,
    meter: &mut Meter<'_>,
    name: &str,
    err: &mut Watched<E>,
) -> u8 {
    let alloc = rt.alloc();
    let target = match read_target(rt, how.force, meter, name) {
        Ok(target) => target,
        Err(fault) => return failed(alloc, name, &fault, err),
    };
    let rename = how.rename;
    let layout = Layout { rename, ..PLAIN };
    let text = match canonical::<T, E>(alloc, layout, name, Some(kind), &target.bytes, err) {
        Ok(text) => text,
        Err(status) => return status,
    };
    if text.as_bytes() == target.bytes.as_slice() {
        return 0;
    }
    if text.as_str().is_empty() {
        if !how.quiet {
            let _ = writeln!(err, "{name}: no item; the file stays as it is");
        }
        return 0;
    }
    let status = replace(rt, name, &target, text.as_str(), err);
    if status == 0 && !how.quiet {
        say_lost::<T, E>(alloc, name, &target.bytes, err);
    }
    status
}
