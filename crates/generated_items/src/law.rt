//! The report of a broken law.
use souper_ir::parse::ParseError;
use souper_ir::stringify::TextError;
use std::alloc::{AllocError, AllocFailed, Global};
use std::fmt;

/// Why the program ends.
#[derive(Drop)]
pub(crate) enum Broken {
    Memory,
    /// The law, and the text of which it does not hold.
    Law(&'static str, String),
}

impl From<AllocError> for Broken {
    fn from(_error: AllocError) -> Broken {
        Broken::Memory
    }
}

impl<T: Drop> From<AllocFailed<T>> for Broken {
    fn from(_error: AllocFailed<T>) -> Broken {
        Broken::Memory
    }
}

impl fmt::Display for Broken {
    fn fmt<W: fmt::Write>(&self, f: &mut fmt::Formatter<W>) -> fmt::Result {
        match self {
            Broken::Memory => f.write_str("out of memory"),
            Broken::Law(law, text) => {
                f.write_str("not so: ")?;
                f.write_str(*law)?;
                f.write_str(", of\n")?;
                f.write_str(text.as_str())
            }
        }
    }
}

/// Nothing if the law holds, of which the text is an example.
pub(crate) fn law(alloc: Global, holds: bool, law: &'static str, text: &str) -> Result<(), Broken> {
    if holds {
        return Ok(());
    }
    Err(Broken::Law(law, String::from_str(alloc, text)?))
}

/// The value, of which the law is that it is there.
pub(crate) fn there<T: Drop>(
    alloc: Global,
    value: Option<T>,
    law: &'static str,
    text: &str,
) -> Result<T, Broken> {
    match value {
        Some(value) => Ok(value),
        None => Err(Broken::Law(law, String::from_str(alloc, text)?)),
    }
}
