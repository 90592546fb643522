//! The error of a reader, which becomes the error of a parse.
ghost use Rattle.std.specs.Prelude.{◌≡◌, ◌≤◌, length, string_bytes, option_copied, IfOk, IfSome, Some};
ghost use Rattle.souper_errors.specs.Places.{direct_text};
ghost use Rattle.souper_errors.specs.Errors.{error_of, widened, kind_of, offset_of, at_end_of, shown_error, IsLocated, HasLocation};

use crate::error::{Cause, ParseError, ParseErrorKind, Refusal, locate_refusal};
use std::alloc::{AllocError, Global};

/// Why a reader failed: a `ParseError` that is no I/O error, small enough for registers.
#[derive(Drop)]
pub enum ReadError {
    /// The text was rejected.
    Refused(Box<Refusal>),
    /// Memory ran out, for the result or for the error.
    Memory,
}

impl ReadError {
    /// A parse error at an offset, in bytes.
    pub fn refused(
        alloc: Global,
        offset: usize,
        at_end: bool,
        message: String,
    ) -> Result<ReadError, AllocError>
        ensures kind { IfOk result (λ error. kind_of (error_of error) ≡ ParseErrorKind.Parse) }
        ensures offset { IfOk result (λ error. offset_of (error_of error) ≡ Some offset) }
        ensures at_end { IfOk result (λ error. at_end_of (error_of error) ≡ at_end) }
        ensures shown { IfOk result (λ error. shown_error (error_of error) ≡ Some (direct_text offset (string_bytes message))) }
    {
        let refusal = Refusal {
            offset,
            at_end,
            message,
            places: None,
        };
        Ok(ReadError::Refused(Box::new(alloc, refusal)?))
    }
}

impl From<ReadError> for ParseError {
    ghost from_gives = { λ read e. e ≡ error_of read };

    fn from(read: ReadError) -> ParseError {
        let cause = match read {
            ReadError::Refused(refusal) => Cause::Parse(refusal),
            ReadError::Memory => Cause::Memory,
        };
        ParseError { cause }
    }
}

/// What a reader returned, with the error that callers of the parser get.
pub fn widen<T>(read: Result<T, ReadError>) -> Result<T, ParseError>
    ensures { result ≡ widened read }
{
    match read {
        Ok(value) => Ok(value),
        Err(error) => Err(error.into()),
    }
}

/// Gives a parse error its place and its location in the source. Other errors stay as they are.
pub fn locate(error: ParseError, alloc: Global, source: &str, file: Option<&str>) -> ParseError
    requires { IfSome (offset_of error) (λ offset. offset ≤ length source.now) }
    ensures located { IsLocated (option_copied file.entry) source.now error result }
    ensures location { kind_of result ≡ ParseErrorKind.Parse → HasLocation source.now result }
    ensures at_end { kind_of result ≡ ParseErrorKind.Parse → at_end_of result ≡ at_end_of error }
{
    match error.cause {
        Cause::Parse(refusal) => locate_refusal(refusal, alloc, source, file),
        cause => ParseError { cause },
    }
}
