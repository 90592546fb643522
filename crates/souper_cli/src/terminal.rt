//! Errors at a terminal.

use crate::excerpt::Style;
use std::alloc::{AllocError, Global};
use std::cell::Cell;
use std::fmt::Write as _;
use std::io;
use std::io::Write;

const BOLD: &str = "\x1b[1m";

const BLUE: &str = "\x1b[34m";

const RED: &str = "\x1b[31m";

const RESET: &str = "\x1b[0m";

const ERASE: &[u8] = b"\x1b[K";

// What the second line of a parse error is, and its fourth begins with.
const FRAME: &str = "     |";

// The line for out of memory is shorter, so that it takes no allocation.
const ROOM: usize = 64;

// A line of a parse error, or any other.
#[derive(Clone, Copy, PartialEq, Eq)]
enum Part {
    Message,
    Source,
    Caret,
}

/// A writer of lines, each of which is shown when it is whole. The line of the source that a parse error shows waits for its caret.
#[derive(Drop)]
pub struct Terminal<'a, W> {
    inner: W,
    style: Style,

    // Whether a report of progress is on the line of the cursor.
    is_shown: &'a Cell<bool>,

    // Is set where a parse error is shown.
    is_refused: &'a Cell<bool>,

    line: Vec<u8>,

    // The line of the source.
    source: String,

    shown: String,

    // What the next line is.
    part: Part,
}

impl<'a, W: Write> Terminal<'a, W> {
    pub fn new(
        alloc: Global,
        inner: W,
        style: Style,
        is_shown: &'a Cell<bool>,
        is_refused: &'a Cell<bool>,
    ) -> Result<Terminal<'a, W>, AllocError>
    where
        W: Drop,
    {
        Ok(Terminal {
            inner,
            style,
            is_shown,
            is_refused,
            line: Vec::with_capacity(alloc, ROOM)?,
            source: String::new(alloc),
            shown: String::with_capacity(alloc, ROOM)?,
            part: Part::Message,
        })
    }

    // Shows the line, and forgets it.
    fn show(&mut self) -> io::Result<()> {
        self.shown.clear();
        let (style, shown) = (self.style, &mut self.shown);
        let (next, result) = match (str::from_utf8(&self.line), self.part) {
            (Ok(FRAME), Part::Message) => (Part::Source, append_frame(style, shown)),
            (Ok(line), Part::Message) => (Part::Message, append_message(style, line, shown)),
            (Ok(line), Part::Source) => (Part::Caret, replace(&mut self.source, line)),
            (Ok(line), Part::Caret) => (
                Part::Message,
                append_excerpt(style, self.source.as_str(), line, shown),
            ),
            (Err(_), _) => (Part::Message, append_ascii(&self.line, shown)),
        };
        self.line.clear();
        result?;
        self.part = next;
        match next {
            Part::Caret => return Ok(()),
            Part::Source => self.is_refused.set(true),
            Part::Message => {}
        }
        self.shown.push('\n')?;
        if self.is_shown.replace(false) {
            self.inner.write_all(ERASE)?;
        }
        self.inner.write_all(self.shown.as_bytes())
    }

    fn take(&mut self, byte: u8) -> io::Result<()> {
        if byte == b'\n' {
            return self.show();
        }
        Ok(self.line.push(byte)?)
    }
}

impl<W: Write> Write for Terminal<'_, W> {
    fn write(&mut self, buf: &[u8]) -> io::Result<usize> {
        for byte in buf {
            self.take(*byte)?;
        }
        Ok(buf.len())
    }

    fn flush(&mut self) -> io::Result<()> {
        self.inner.flush()
    }
}

// What begins or ends a color, where there are colors.
fn code(style: Style, code: &'static str) -> &'static str {
    if style == Style::Color { code } else { "" }
}

fn append_frame(style: Style, shown: &mut String) -> Result<(), AllocError> {
    let (blue, reset) = (code(style, BLUE), code(style, RESET));
    write!(shown, "{blue}{FRAME}{reset}").map_err(|_| AllocError)
}

fn replace(old: &mut String, text: &str) -> Result<(), AllocError> {
    old.clear();
    old.push_str(text)
}

// Of bytes that are no text the ASCII characters.
fn append_ascii(line: &[u8], shown: &mut String) -> Result<(), AllocError> {
    for byte in line {
        let c = if byte.is_ascii() {
            *byte as char
        } else {
            char::REPLACEMENT_CHARACTER
        };
        Style::Clean.append_char(c, shown)?;
    }
    Ok(())
}

fn is_number(text: &str) -> bool {
    !text.is_empty() && text.bytes().all(|byte| byte.is_ascii_digit())
}

// What follows `LINE:COLUMN: `, if the text begins with that.
fn after_location(text: &str) -> Option<&str> {
    let (line, rest) = text.split_once(':')?;
    let (column, rest) = rest.split_once(':')?;
    let message = rest.strip_prefix(' ')?;
    (is_number(line) && is_number(column)).then_some(message)
}

// The location of a line that begins with `NAME:LINE:COLUMN: `, and what follows.
fn split_location(line: &str) -> Option<(&str, &str)> {
    for (index, byte) in line.bytes().enumerate() {
        if byte == b':'
            && let Some((_, rest)) = line.split_at_checked(index.saturating_add(1))
            && let Some(message) = after_location(rest)
        {
            return line.split_at_checked(line.len().saturating_sub(message.len()));
        }
    }
    None
}

// Appends a line that is a message, or another one.
fn append_message(style: Style, line: &str, shown: &mut String) -> Result<(), AllocError> {
    match split_location(line) {
        Some((location, message)) if style == Style::Color => {
            style.append_around(location, location.len(), shown)?;
            shown.push_str(BOLD)?;
            style.append_around(message, 0, shown)?;
            shown.push_str(RESET)
        }
        _ => style.append_around(line, 0, shown).map(|_| ()),
    }
}

// Appends both lines: the one of the source after its number, or of a long one what is around the caret, and the one with the caret.
fn append_excerpt(
    style: Style,
    source: &str,
    line: &str,
    shown: &mut String,
) -> Result<(), AllocError> {
    let (number, text) = source.split_once("| ").unwrap_or(("     ", source));
    // Before the caret are the frame and a space.
    let caret = line.len().saturating_sub(FRAME.len() + 2);
    let (blue, red, reset) = (code(style, BLUE), code(style, RED), code(style, RESET));
    write!(shown, "{blue}{number}|{reset} ").map_err(|_| AllocError)?;
    let columns = style.append_around(text, caret, shown)?;
    write!(shown, "\n{blue}{FRAME}{reset}{red}").map_err(|_| AllocError)?;
    for _ in 0..=columns {
        shown.push(' ')?;
    }
    write!(shown, "^{reset}").map_err(|_| AllocError)
}
