//! What became of a call while one allocation failed, and comparisons.
use anyhow::{Result, anyhow};
use std::alloc::Global;
use std::fmt;
use std::fmt::Debug;

/// What became of a call whose result was allowed.
#[derive(Clone, Copy)]
pub enum Met {
    /// An allocation failed before the call.
    Unreached,
    /// The call returned out of memory.
    Refused,
    /// The call returned its result with ample memory.
    Completed,
    /// The same, and the allocation that fails is the next one after the call's.
    NoneRefused,
}

impl fmt::Display for Met {
    fn fmt<W: fmt::Write>(&self, f: &mut fmt::Formatter<W>) -> fmt::Result {
        f.write_str(match self {
            Met::Unreached => "not reached",
            Met::Refused => "refused memory",
            Met::Completed => "completed",
            Met::NoneRefused => "refused nothing",
        })
    }
}

/// The call just returned its result with ample memory.
pub fn completed(alloc: Global) -> Met {
    match Vec::from_slice(alloc, b"next") {
        Ok(_) => Met::Completed,
        Err(_) => Met::NoneRefused,
    }
}

/// What became of a call that just returned its result with ample memory, or else out of memory.
pub fn completed_if(alloc: Global, has_completed: bool) -> Met {
    if has_completed {
        completed(alloc)
    } else {
        Met::Refused
    }
}

/// An error that shows both values if they are not equal.
pub fn equal<T: Copy + PartialEq + Debug>(found: T, want: T) -> Result<()> {
    if found == want {
        return Ok(());
    }
    Err(anyhow!("want {want:?}").context(format_args!("found {found:?}")))
}
