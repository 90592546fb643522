//! What of a line is shown, and in how many columns.

use std::alloc::AllocError;
use std::fmt::Write;
use unicode_width::UnicodeWidthChar;

/// How lines are shown.
#[derive(Clone, Copy, PartialEq, Eq)]
pub enum Style {
    /// As they are, but for what is cut from a long one.
    Bytes,

    /// Without characters that a terminal obeys, and in characters that are seen.
    Clean,

    /// The same, in color.
    Color,
}

// In place of what is cut from a line.
const CUT: char = '…';

// A character of one column that a terminal does not obey, in place of one that it may obey.
fn clean(c: char) -> char {
    match c {
        '\0'..='\x1f' => char::from_u32(0x2400 + c as u32).unwrap_or(char::REPLACEMENT_CHARACTER),
        '\x7f' => '\u{2421}',
        '\u{80}'..='\u{9f}' | '\u{202a}'..='\u{202e}' | '\u{2066}'..='\u{2069}' => {
            char::REPLACEMENT_CHARACTER
        }
        _ => c,
    }
}

// Whether a terminal shows the character as nothing.
fn is_unseen(c: char) -> bool {
    c.width() == Some(0)
}

// The columns of a code point that is shown by its number, as `<U+FEFF>`.
fn number_columns(c: char) -> usize {
    match c {
        '\0'..='\u{ffff}' => 8,
        '\u{10000}'..='\u{fffff}' => 9,
        _ => 10,
    }
}

impl Style {
    // The most columns of a line that are shown; of one that is shown as it is, bytes.
    fn limit(self) -> usize {
        match self {
            Style::Bytes => 4096,
            Style::Clean | Style::Color => 160,
        }
    }

    // The columns that a character takes; of one that is shown as it is, its bytes.
    fn columns_of(self, c: char) -> usize {
        let shown = clean(c);
        match self {
            Style::Bytes => c.len_utf8(),
            _ if is_unseen(shown) => number_columns(shown),
            _ => shown.width().unwrap_or(1),
        }
    }

    // The columns of the characters that end within the first `len` bytes.
    fn columns(self, line: &str, len: usize) -> usize {
        let (mut columns, mut end): (usize, usize) = (0, 0);
        for c in line.chars() {
            end = end.saturating_add(c.len_utf8());
            if end <= len {
                columns = columns.saturating_add(self.columns_of(c));
            }
        }
        columns
    }

    /// Appends a character as it is shown: one that is not seen by its number, as `<U+FEFF>`.
    pub fn append_char(self, c: char, shown: &mut String) -> Result<(), AllocError> {
        let c = if self == Style::Bytes { c } else { clean(c) };
        if self == Style::Bytes || !is_unseen(c) {
            return shown.push(c);
        }
        write!(shown, "<U+{:04X}>", c as u32).map_err(|_| AllocError)
    }

    /// Appends a line, or of a long one what is around the byte at `caret`. Returns the columns before that.
    pub fn append_around(
        self,
        line: &str,
        caret: usize,
        shown: &mut String,
    ) -> Result<usize, AllocError> {
        let before = match self {
            Style::Bytes => caret,
            Style::Clean | Style::Color => self.columns(line, caret),
        };
        let all = self.columns(line, line.len());
        let limit = self.limit();
        let first = before
            .saturating_sub(limit / 2)
            .min(all.saturating_sub(limit));
        let end = first.saturating_add(limit);
        if first > 0 {
            shown.push(CUT)?;
        }
        let (mut column, mut skipped) = (0, 0);
        for c in line.chars() {
            let next = self.columns_of(c).saturating_add(column);
            if column < first {
                skipped = next;
            } else if next <= end {
                self.append_char(c, shown)?;
            }
            column = next;
        }
        if end < all {
            shown.push(CUT)?;
        }
        let cut = usize::from(first > 0);
        Ok(before.saturating_sub(skipped).saturating_add(cut))
    }
}
