//! The error of a parse.
ghost use Rattle.std.specs.Prelude.{◌≡◌, ◌≤◌, ◌+◌, ◌⊎◌, ◌↔◌, length, string_bytes, option_copied, option_map, IfSome, IsSome, Some};
ghost use Rattle.std.specs.Fmt.{DisplaysOnOk, DisplaysStyledOnOk, WritesOnOk};
ghost use Rattle.souper_errors.specs.declared.place.Places.{Places};
ghost use Rattle.souper_errors.specs.Errors.{kind_of, offset_of, at_end_of, place_of, line_of, column_of, location_of, message_of, fault_of, shown_error, shown_refusal_of, located_error, located_refusal_of, IsPlacedAfter, IsLocatedAfter, IsRefusalAt, HasLocation, HasLocationAfter, ShowsFault};

use crate::place::{Location, Place, Places};
use crate::unstyled::write_unstyled;
use arrayvec::ArrayString;
use std::alloc::{AllocError, AllocFailed, Global};
use std::error::Error;
use std::fmt::Write;
use std::{fmt, io};

/// Why a parse failed.
#[derive(Clone, Copy, Debug, PartialEq, Eq)]
pub enum ParseErrorKind {
    /// A read failed, or what was read is not UTF-8.
    Io,
    /// The text was rejected.
    Parse,
    /// Memory ran out, for the result or for the error.
    Memory,
}

/// The error of a parse. It shows why the parse failed and, if a text was rejected, where.
#[derive(Drop)]
pub struct ParseError {
    pub(crate) cause: Cause,
}

/// How much comes before a text: whole lines, each with its newline.
#[derive(Clone, Copy, Debug, PartialEq, Eq)]
pub struct Before {
    pub bytes: usize,
    pub lines: usize,
}

/// Why a parse failed, with what is known of it.
#[derive(Drop)]
pub(crate) enum Cause {
    Io(io::Error),
    Parse(Box<Refusal>),
    Memory,
}

/// A parse error of a text. It has no place and no location until its source is known.
#[derive(Drop)]
pub struct Refusal {
    pub(crate) offset: usize,
    // Whether the text ended where more is wanted.
    pub(crate) at_end: bool,
    pub(crate) message: String,
    pub(crate) places: Option<Places>,
}

impl ParseError {
    /// Gives a parse error of a part of a text its place and its location in the whole text.
    ///
    /// The part begins at the byte `skipped` of `source` and ends where `source` does, and `before` says what comes before
    /// `source`. A parse error is then at that place of the whole text, and shows it, unless memory runs out for that. Other errors stay
    /// as they are. The place of an offset is the place of the byte before it: if anything comes before `source`, the offset in
    /// `source` must not be 0.
    pub fn locate_after(
        self,
        alloc: Global,
        before: Before,
        source: &str,
        skipped: usize,
        file: Option<&str>,
    ) -> ParseError
        requires { IfSome (offset_of self) (λ offset. skipped + offset ≤ length source.now) }
        ensures located { IsLocatedAfter (option_copied file.entry) before source.now skipped self result }
        ensures location { kind_of result ≡ ParseErrorKind.Parse → HasLocationAfter before source.now result }
        ensures message { kind_of result ≡ ParseErrorKind.Parse → message_of result ≡ message_of self }
        ensures at_end { kind_of result ≡ ParseErrorKind.Parse → at_end_of result ≡ at_end_of self }
    {
        match self.cause {
            Cause::Parse(refusal) => locate_after(refusal, alloc, before, source, skipped, file),
            cause => ParseError { cause },
        }
    }

    /// Why the parse failed.
    pub fn kind(&self) -> ParseErrorKind
        ensures { result ≡ kind_of self.now }
    {
        match &self.cause {
            Cause::Io(_) => ParseErrorKind::Io,
            Cause::Parse(_) => ParseErrorKind::Parse,
            Cause::Memory => ParseErrorKind::Memory,
        }
    }

    /// Where the text was rejected: `Some` if and only if the kind is `Parse`. An offset is a number of bytes from the
    /// text's first byte, from 0 to the text's length.
    pub fn offset(&self) -> Option<usize>
        ensures { result ≡ offset_of self.now }
    {
        match &self.cause {
            Cause::Parse(refusal) => Some(refusal.offset),
            _ => None,
        }
    }

    /// The line that a parse error shows, counted from 1: `Some` if and only if the source is known, as for the parse errors of
    /// the `_str` and `_file` calls.
    pub fn line(&self) -> Option<usize>
        ensures { result ≡ line_of self.now }
    {
        match self.place() {
            Some(place) => Some(place.line),
            None => None,
        }
    }

    /// The column that a parse error shows, in bytes and counted from 1: `Some` if and only if the source is known.
    pub fn column(&self) -> Option<usize>
        ensures { result ≡ column_of self.now }
    {
        match self.place() {
            Some(place) => Some(place.column),
            None => None,
        }
    }

    /// What a parse error says is wrong, as the first line that it shows has it: `Some` if and only if the kind is `Parse`.
    pub fn message(&self) -> Option<&str>
        ensures { option_copied result ≡ message_of self.now }
    {
        match &self.cause {
            Cause::Parse(refusal) => Some(refusal.message.as_str()),
            _ => None,
        }
    }

    /// Where the text is at fault, which is not where the error shows it to be (see [`ParseError::offset`]): `Some` if and only if
    /// the source is known, as for the parse errors of the `_str` and `_file` calls.
    pub fn location(&self) -> Option<&Location>
        ensures { option_copied result ≡ location_of self.now }
    {
        match &self.cause {
            Cause::Parse(refusal) => refusal.location(),
            _ => None,
        }
    }

    /// Shows the error with the line and the column of its location, in the form of the error's own text.
    pub fn with_location(&self) -> WithLocation<'_>
        ensures { result.error.now ≡ self.now }
    {
        WithLocation { error: self }
    }

    /// Whether the text ended where a token is wanted, after tokens that fit, or in the word `knownBits`; so a longer text might not
    /// be rejected.
    ///
    /// A token that the text ends in is read as it stands. So this is false of a text that ends in `%` or `knownBits=`, which are no
    /// tokens, or in the word `inf`, which does not fit, though a longer text could continue each.
    pub fn is_at_end(&self) -> bool
        ensures { result ≡ at_end_of self.now }
    {
        match &self.cause {
            Cause::Parse(refusal) => refusal.at_end,
            _ => false,
        }
    }

    fn place(&self) -> Option<&Place>
        ensures { option_copied result ≡ place_of self.now }
    {
        match &self.cause {
            Cause::Parse(refusal) => refusal.place(),
            _ => None,
        }
    }

    /// The error of the read: `Some` if and only if the kind is `Io`.
    pub fn io_error(&self) -> Option<&io::Error>
        ensures fault { option_copied result ≡ fault_of self.now }
        ensures kind { IsSome result ↔ (kind_of self.now ≡ ParseErrorKind.Io) }
    {
        match &self.cause {
            Cause::Io(fault) => Some(fault),
            Cause::Parse(_) => None,
            Cause::Memory => None,
        }
    }
}

/// Gives a parse error its place and its location in the source.
pub(crate) fn locate_refusal(
    mut refusal: Box<Refusal>,
    alloc: Global,
    source: &str,
    file: Option<&str>,
) -> ParseError
    requires { refusal.value.offset ≤ length source.now }
    ensures placed { (kind_of result ≡ ParseErrorKind.Memory) ⊎ IsRefusalAt (option_copied file.entry) source.now refusal.value.offset result }
    ensures location { kind_of result ≡ ParseErrorKind.Parse → HasLocation source.now result }
    ensures at_end { kind_of result ≡ ParseErrorKind.Parse → at_end_of result ≡ refusal.value.at_end }
{
    match Places::new(alloc, source, refusal.offset, refusal.at_end, file) {
        Ok(places) => {
            refusal.places = Some(places);
            ParseError {
                cause: Cause::Parse(refusal),
            }
        }
        Err(refused) => ParseError::from(refused),
    }
}

// Gives a parse error of a part of a text its place and its location in the whole text.
fn locate_after(
    mut refusal: Box<Refusal>,
    alloc: Global,
    before: Before,
    source: &str,
    skipped: usize,
    file: Option<&str>,
) -> ParseError
    requires { skipped + refusal.value.offset ≤ length source.now }
    ensures placed { IsPlacedAfter (option_copied file.entry) before source.now (skipped + refusal.value.offset) result }
    ensures location { kind_of result ≡ ParseErrorKind.Parse → HasLocationAfter before source.now result }
    ensures message { kind_of result ≡ ParseErrorKind.Parse → message_of result ≡ Some (string_bytes refusal.value.message) }
    ensures at_end { kind_of result ≡ ParseErrorKind.Parse → at_end_of result ≡ refusal.value.at_end }
{
    let offset = skipped + refusal.offset;
    match Places::new(alloc, source, offset, refusal.at_end, file) {
        Ok(mut places) => {
            places.place.line = places.place.line.saturating_add(before.lines);
            places.location.line = places.location.line.saturating_add(before.lines);
            places.location.offset = places.location.offset.saturating_add(before.bytes);
            refusal.places = Some(places);
            refusal.offset = offset.saturating_add(before.bytes);
            ParseError {
                cause: Cause::Parse(refusal),
            }
        }
        Err(refused) => ParseError::from(refused),
    }
}

impl fmt::Display for Refusal {
    ghost output = { λ refusal. Some (shown_refusal_of refusal) };

    fn fmt<W: fmt::Write>(&self, f: &mut fmt::Formatter<W>) -> fmt::Result {
        let message = self.message.as_str();
        match &self.places {
            Some(places) => places.place.show(f, message),
            None => {
                let offset = self.offset;
                write!(
                    f,
                    "unknown:1:1: {message}\n     |\n   1 | byte offset {offset}\n     | ^"
                )
            }
        }
    }
}

impl Refusal {
    fn place(&self) -> Option<&Place>
        ensures { option_copied result ≡ option_map (λ (places : Places). places.place) self.now.places }
    {
        match &self.places {
            Some(places) => Some(&places.place),
            None => None,
        }
    }

    fn location(&self) -> Option<&Location>
        ensures { option_copied result ≡ option_map (λ (places : Places). places.location) self.now.places }
    {
        match &self.places {
            Some(places) => Some(&places.location),
            None => None,
        }
    }

    // Shows the parse error at its location, if it has one.
    fn show_location<W: fmt::Write>(&self, f: &mut fmt::Formatter<W>) -> fmt::Result
        ensures { WritesOnOk W.write_str_gives f.old result (located_refusal_of self.now) f.new }
    {
        match &self.places {
            Some(places) => {
                places
                    .place
                    .show_location(&places.location, f, self.message.as_str())
            }
            None => fmt::Display::fmt(self, f),
        }
    }
}

// A parse error as it is shown at its location.
#[derive(Clone, Copy)]
struct AtLocation<'a> {
    refusal: &'a Refusal,
}

impl fmt::Display for AtLocation<'_> {
    ghost output = { λ shown. Some (located_refusal_of shown.refusal.now) };

    fn fmt<W: fmt::Write>(&self, f: &mut fmt::Formatter<W>) -> fmt::Result {
        self.refusal.show_location(f)
    }
}

/// An error that is shown with its location ([`ParseError::with_location`]).
#[derive(Clone, Copy)]
pub struct WithLocation<'a> {
    error: &'a ParseError,
}

/// Width, fill, precision and sign are ignored.
impl fmt::Display for WithLocation<'_> {
    ghost output = { λ shown. located_error shown.error.now };

    ghost styled_output = { λ shown _. located_error shown.error.now };

    fn fmt<W: fmt::Write>(&self, f: &mut fmt::Formatter<W>) -> fmt::Result
        ensures writes { DisplaysOnOk W.write_str_gives f.old result (located_error self.now.error.now) f.new }
        ensures styled { DisplaysStyledOnOk W.write_str_gives f.old result (located_error self.now.error.now) f.new }
        ensures fault { kind_of self.now.error.now ≡ ParseErrorKind.Io → ShowsFault W.write_str_gives f.old result f.new }
    {
        match &self.error.cause {
            Cause::Parse(refusal) => write_unstyled(f, AtLocation { refusal }),
            _ => fmt::Display::fmt(self.error, f),
        }
    }
}

// An I/O error has no allocator, and its text, which the system gives, at most 279 bytes.
fn show_fault<W: fmt::Write>(fault: &io::Error, f: &mut fmt::Formatter<W>) -> fmt::Result
    ensures { ShowsFault W.write_str_gives f.old result f.new }
{
    let mut text = ArrayString::<512>::new();
    write!(text, "{fault}")?;
    f.write_str("IO error: ")?;
    f.write_str(text.as_str())
}

/// Width, fill, precision and sign are ignored.
impl fmt::Display for ParseError {
    ghost output = { shown_error };

    ghost styled_output = { λ error _. shown_error error };

    fn fmt<W: fmt::Write>(&self, f: &mut fmt::Formatter<W>) -> fmt::Result
        ensures writes { DisplaysOnOk W.write_str_gives f.old result (shown_error self.now) f.new }
        ensures styled { DisplaysStyledOnOk W.write_str_gives f.old result (shown_error self.now) f.new }
        ensures fault { kind_of self.now ≡ ParseErrorKind.Io → ShowsFault W.write_str_gives f.old result f.new }
    {
        match &self.cause {
            Cause::Io(fault) => show_fault(fault, f),
            Cause::Parse(refusal) => write_unstyled(f, refusal),
            Cause::Memory => f.write_str("out of memory"),
        }
    }
}

/// Shows the same text as `Display`. Width, fill, precision and sign are ignored.
impl fmt::Debug for ParseError {
    ghost debug_output = { shown_error };

    fn fmt<W: fmt::Write>(&self, f: &mut fmt::Formatter<W>) -> fmt::Result
        ensures writes { DisplaysOnOk W.write_str_gives f.old result (shown_error self.now) f.new }
        ensures styled { DisplaysStyledOnOk W.write_str_gives f.old result (shown_error self.now) f.new }
        ensures fault { kind_of self.now ≡ ParseErrorKind.Io → ShowsFault W.write_str_gives f.old result f.new }
    {
        fmt::Display::fmt(self, f)
    }
}

impl Error for ParseError {}

impl From<io::Error> for ParseError {
    ghost use Rattle.souper_errors.specs.declared.error.ParseErrorKind.TheVariants.{Io};

    ghost from_gives = { λ fault e. (kind_of e ≡ Io) × (fault_of e ≡ Some fault) };

    fn from(fault: io::Error) -> ParseError {
        ParseError {
            cause: Cause::Io(fault),
        }
    }
}

impl From<AllocError> for ParseError {
    ghost use Rattle.souper_errors.specs.declared.error.ParseErrorKind.TheVariants.{Memory};

    ghost from_gives = { λ _ e. kind_of e ≡ Memory };

    fn from(_refused: AllocError) -> ParseError {
        ParseError {
            cause: Cause::Memory,
        }
    }
}

impl<T: Drop> From<AllocFailed<T>> for ParseError {
    ghost use Rattle.souper_errors.specs.declared.error.ParseErrorKind.TheVariants.{Memory};

    ghost from_gives = { λ _ e. kind_of e ≡ Memory };

    fn from(_refused: AllocFailed<T>) -> ParseError {
        ParseError {
            cause: Cause::Memory,
        }
    }
}

#[cfg(test)]
mod tests {
    use super::*;
    use crate::read::{ReadError, locate};
    use std::test::Fail;

    // The test of the ported crate.
    #[test]
    fn refusal_shows_its_line(rt: HostRuntime) -> Result<(), Fail> {
        let alloc = rt.alloc();
        let source = "hello, how are you?\n> I am good, thanks\nthats good\n";
        let message = String::from_str(alloc, "missing apostrophe")?;
        let refusal = ReadError::refused(alloc, 45, false, message)?;
        let error = locate(
            ParseError::from(refusal),
            alloc,
            source,
            Some("path/to/foo.txt"),
        );
        let shown = error.to_string(alloc)?;
        let wanted =
            "path/to/foo.txt:3:5: missing apostrophe\n     |\n   3 | thats good\n     |     ^";
        assert_eq!(rt; shown.as_str(), wanted);
        Ok(())
    }
}
