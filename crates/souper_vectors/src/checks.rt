//! The comparison of plain values, and what a run did as one plain value.
use std::fmt::Debug;
use std::process::Abort;

/// The status of a run, and the texts that it wrote to `out` and `err`.
pub type Ran<'a> = (u8, &'a str, &'a str);

/// What [`told`] gives in place of the line of a fault.
pub const FAULT: &str = "IO error: ...\n";

/// The bytes as a text.
pub fn text(bytes: &[u8]) -> &str {
    str::from_utf8(bytes).unwrap_or("bytes that are no text")
}

/// The bytes as a text, or [`FAULT`] if they are the line of a fault, whose words come from the system.
pub fn told(bytes: &[u8]) -> &str {
    let line = text(bytes);
    if line.starts_with("IO error: ") && line.ends_with("\n") {
        FAULT
    } else {
        line
    }
}

pub fn equal<T: Copy + PartialEq + Debug>(rt: &impl Abort, found: T, want: T) {
    assert_eq!(rt; found, want);
}
