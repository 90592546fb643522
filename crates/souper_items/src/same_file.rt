//! Whether an input is the file to which standard output goes.

use std::fs;
use std::os::unix::fs::MetadataExt;

/// A regular file, by its device and its number there.
pub(crate) type FileId = (u64, u64);

/// The regular file of the path, or the one that a link of this path leads to.
pub(crate) fn file_id(rt: &HostRuntime, path: &str) -> Option<FileId> {
    let file = fs::metadata(rt, path).ok()?;
    file.is_file().then_some((file.dev(), file.ino()))
}
