//! What comes before an error: where its item begins, and its statement.

use crate::headings::Headings;
use crate::tokens::{Token, tokens_of};
use crate::words::{ends_item, is_beginning};
use souper_errors::Kind;

/// What the text before an error has, by offsets.
#[derive(Clone, Copy)]
pub(crate) struct Marks {
    /// Where the item begins.
    pub(crate) item: usize,

    /// Where its last statement or last line begins.
    pub(crate) statement: usize,

    /// Where the last token ends.
    pub(crate) end: usize,

    /// How many definitions the item has.
    pub(crate) definitions: usize,

    /// Whether the item has an infer line, and needs another line after it.
    pub(crate) has_infer: bool,

    /// The last statement or last line that begins after an empty line in the item, or after its infer line.
    pub(crate) paragraph: Option<usize>,

    /// Whether a statement begins after the infer line.
    pub(crate) continues: bool,

    /// Whether the line that ends the item has begun.
    pub(crate) is_ended: bool,
}

/// Whether an empty line is in a gap between tokens.
pub(crate) fn has_empty_line(gap: &str) -> bool {
    match gap.rsplit_once('\n') {
        Some((lines, _)) => lines.split('\n').skip(1).any(|line| line.trim().is_empty()),
        None => false,
    }
}

impl Marks {
    const NONE: Marks = Marks {
        item: 0,
        statement: 0,
        end: 0,
        definitions: 0,
        has_infer: false,
        paragraph: None,
        continues: false,
        is_ended: false,
    };

    /// Reads the text, which has items of the kind.
    pub(crate) fn read(kind: Kind, front: &str) -> Marks {
        let mut marks = Marks::NONE;
        let mut headings = Headings::new();
        for token in tokens_of(front) {
            marks.end = token.end();
            if let Some(name) = headings.take(token) {
                marks.begin(front, name);
                marks.definitions = marks.definitions.saturating_add(1);
            } else if is_beginning(token.text) {
                marks.begin(front, token);
                marks.end_with(kind, token.text);
            }
        }
        marks
    }

    // Begins the statement or last line of this first token.
    fn begin(&mut self, front: &str, first: Token<'_>) {
        let gap = front.get(first.gap..first.offset).unwrap_or("");
        if self.is_ended {
            *self = Marks {
                item: first.offset,
                end: self.end,
                ..Marks::NONE
            };
        } else if has_empty_line(gap) {
            self.paragraph = Some(first.offset);
        }
        self.continues = self.has_infer;
        self.statement = first.offset;
    }

    // The word begins a last line, if it is a word of one.
    fn end_with(&mut self, kind: Kind, word: &str) {
        if ends_item(kind, word) {
            self.is_ended = true;
            self.has_infer = false;
        } else if word == "infer" {
            self.has_infer = true;
            self.paragraph = None;
        }
    }
}
