//! The place of a byte in a source, and the lines that show it.
ghost use Rattle.std.specs.Prelude.{◌≡◌, ◌≤◌, ◌+◌, length, option_copied, option_map, string_bytes, IfOk};
ghost use Rattle.std.specs.Fmt.{WritesOnOk};
ghost use Rattle.souper_errors.specs.Places.{IsEnd, IsLineFrom, IsPlace, file_or_unknown, shown_refusal};
ghost use Rattle.souper_errors.specs.Errors.{ArePlacesIn, IsLocationIn, IsPlaceOn, shown_at, shown_at_location};

use std::alloc::{AllocError, Global};
use std::fmt;

// A line of a source, and a column of it.
#[derive(Clone, Copy)]
struct Line<'a> {
    number: usize,
    column: usize,
    text: &'a str,
}

// The line of an offset in a source, where it begins, and the source from there on.
#[derive(Clone, Copy)]
struct LineOf<'a> {
    line: Line<'a>,
    start: usize,
    rest: &'a str,
}

/// Where a text is at fault: where the token at fault begins or, if the text ends where more is wanted, where it ends, without
/// the ASCII white space at its end.
#[derive(Debug, Drop)]
pub struct Location {
    /// In bytes, from the first byte of the whole input.
    pub offset: usize,
    /// Counted from 1.
    pub line: usize,
    /// In bytes, counted from 1.
    pub column: usize,
    /// The text of the line, without its line end.
    pub text: String,
}

impl Location {
    // The location of a parse error at the offset, whose line is given, or at the end of the source.
    fn new(
        alloc: Global,
        source: &str,
        offset: usize,
        at_end: bool,
        place: LineOf<'_>,
    ) -> Result<Location, AllocError>
        requires within { offset ≤ length source.now }
        requires line { IsLineFrom source.now offset place.line.number place.start place.rest.now }
        ensures { IfOk result (IsLocationIn source.now offset at_end) }
    {
        let location = if at_end {
            end_of(source)
        } else {
            next_of(source, offset, place)
        };
        let text = String::from_str(alloc, location.line.text)?;
        Ok(Location {
            offset: location.offset,
            line: location.line.number,
            column: location.line.column,
            text,
        })
    }
}

// An offset of a source, and its line.
#[derive(Clone, Copy)]
struct Located<'a> {
    offset: usize,
    line: Line<'a>,
}

// The end of the source, without the white space there.
fn end_of(source: &str) -> Located<'_>
    ensures end { IsEnd source.now result.offset }
    ensures place { IsPlace source.now (result.offset + 1) result.line.number result.line.column result.line.text.now }
{
    let offset = source.trim_ascii_end().len();
    let found = line_of(source, offset + 1);
    Located {
        offset,
        line: found.line,
    }
}

// The byte at the offset, given the line of the byte before it.
fn next_of<'a>(source: &'a str, offset: usize, before: LineOf<'a>) -> Located<'a>
    requires within { offset ≤ length source.now }
    requires line { IsLineFrom source.now offset before.line.number before.start before.rest.now }
    ensures offset { result.offset ≡ offset }
    ensures place { IsPlace source.now (offset + 1) result.line.number result.line.column result.line.text.now }
{
    let found = line_of(before.rest, offset + 1 - before.start);
    let number = found.line.number + (before.line.number - 1);
    Located {
        offset,
        line: Line {
            number,
            ..found.line
        },
    }
}

/// Where a parse error of a source is: the place that it shows, and where the source is at fault.
#[derive(Drop)]
pub(crate) struct Places {
    pub(crate) place: Place,
    pub(crate) location: Location,
}

impl Places {
    /// Those of a parse error at the offset, or at the end of the source, which has that file name.
    pub(crate) fn new(
        alloc: Global,
        source: &str,
        offset: usize,
        at_end: bool,
        file: Option<&str>,
    ) -> Result<Places, AllocError>
        requires { offset ≤ length source.now }
        ensures { IfOk result (ArePlacesIn (option_copied file.entry) source.now offset at_end) }
    {
        let line = line_of(source, offset);
        let place = Place::new(alloc, line, file)?;
        let location = Location::new(alloc, source, offset, at_end, line)?;
        Ok(Places { place, location })
    }
}

/// Where an offset is in a source, as an error shows it.
#[derive(Drop)]
pub(crate) struct Place {
    file: Option<String>,
    pub(crate) line: usize,
    pub(crate) column: usize,
    text: String,
}

impl Place {
    // The place of the byte before an offset, whose line is given, in a source with that file name.
    fn new(alloc: Global, found: LineOf<'_>, file: Option<&str>) -> Result<Place, AllocError>
        ensures { IfOk result (IsPlaceOn (option_copied file.entry) found.entry.line.number found.entry.line.column found.entry.line.text.now) }
    {
        let file = match file {
            Some(name) => Some(String::from_str(alloc, name)?),
            None => None,
        };
        let text = String::from_str(alloc, found.line.text)?;
        Ok(Place {
            file,
            line: found.line.number,
            column: found.line.column,
            text,
        })
    }

    /// The name of the source's file, or `unknown`.
    fn file(&self) -> &str
        ensures { result.now ≡ file_or_unknown (option_map string_bytes self.now.file) }
    {
        match &self.file {
            Some(name) => name.as_str(),
            None => "unknown",
        }
    }

    /// Writes a message, the line that it is about and a caret below the column.
    pub(crate) fn show<W: fmt::Write>(
        &self,
        f: &mut fmt::Formatter<W>,
        message: &str,
    ) -> fmt::Result
        ensures { WritesOnOk W.write_str_gives f.old result (shown_at self.now message.now) f.new }
    {
        let line = Line {
            number: self.line,
            column: self.column,
            text: self.text.as_str(),
        };
        show(f, self.file(), line, message)
    }

    /// The same, with the line and the column of a location.
    pub(crate) fn show_location<W: fmt::Write>(
        &self,
        location: &Location,
        f: &mut fmt::Formatter<W>,
        message: &str,
    ) -> fmt::Result
        ensures { WritesOnOk W.write_str_gives f.old result (shown_at_location self.now location.now message.now) f.new }
    {
        let line = Line {
            number: location.line,
            column: location.column,
            text: location.text.as_str(),
        };
        show(f, self.file(), line, message)
    }
}

// Writes a message, the line that it is about and a caret below the column.
fn show<W: fmt::Write>(
    f: &mut fmt::Formatter<W>,
    file: &str,
    line: Line<'_>,
    message: &str,
) -> fmt::Result
    ensures { WritesOnOk W.write_str_gives f.old result (shown_refusal file.now line.entry.number line.entry.column line.entry.text.now message.now) f.new }
{
    let Line {
        number,
        column,
        text,
    } = line;
    write!(f, "{file}:{number}:{column}: {message}\n     |\n")?;
    write!(f, "{number:>4} | {text}\n     | ")?;
    for _ in 1..column {
        write!(f, " ")?;
    }
    write!(f, "^")
}

// The line of the byte before the offset, or of the first byte if the offset is 0. The end of the source is such a byte too.
fn line_of(source: &str, offset: usize) -> LineOf<'_>
    requires { offset ≤ length source.now + 1 }
    ensures place { IsPlace source.now offset result.line.number result.line.column result.line.text.now }
    ensures from { IsLineFrom source.now offset result.line.number result.start result.rest.now }
{
    let position = offset.saturating_sub(1);
    let mut number = 1;
    let mut start = 0;
    let mut rest = source;
    while let Some((body, after)) = rest.split_once('\n') {
        let end = start + body.len();
        if position <= end {
            let line = Line {
                number,
                column: position - start + 1,
                text: body.strip_suffix('\r').unwrap_or(body),
            };
            return LineOf { line, start, rest };
        }
        number += 1;
        start = end + 1;
        rest = after;
    }
    let line = Line {
        number,
        column: position - start + 1,
        text: rest,
    };
    LineOf { line, start, rest }
}
