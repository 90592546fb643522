//! A rejected text at its error.
ghost use Rattle.std.specs.Prelude.{◌≡◌};

use crate::headings::{Headings, without_percent};
use crate::hints::LastLine;
use crate::marks::{Marks, has_empty_line};
use crate::statement::Statement;
use crate::tokens::{is_type, is_word, tokens_from, tokens_of};
use crate::words::{ends_item, operand_count};
use souper_errors::Kind;

/// A rejected text at its error.
#[derive(Clone, Copy)]
pub(crate) struct Scene<'a> {
    pub(crate) kind: Kind,

    /// The text before the token at fault.
    pub(crate) front: &'a str,

    /// The text from the token at fault on.
    pub(crate) back: &'a str,

    /// The line of the token at fault.
    pub(crate) line: usize,

    /// What comes before the token at fault.
    pub(crate) marks: Marks,
}

fn has_token(text: &str, wanted: &str) -> bool {
    for token in tokens_of(text) {
        if token.text == wanted {
            return true;
        }
    }
    false
}

fn newlines(text: &str) -> usize {
    text.bytes().filter(|byte| *byte == b'\n').count()
}

impl<'a> Scene<'a> {
    /// The scene of a text of items of the kind, which is given before and from the token at fault on, with the line of that.
    pub(crate) fn new(kind: Kind, front: &'a str, back: &'a str, line: usize) -> Scene<'a>
        ensures { result.front.now ≡ front.now }
    {
        Scene {
            kind,
            front,
            back,
            line,
            marks: Marks::read(kind, front),
        }
    }

    /// The token at fault.
    pub(crate) fn token(&self) -> Option<&'a str> {
        Some(tokens_of(self.back).next()?.text)
    }

    /// The token after it.
    pub(crate) fn next_token(&self) -> Option<&'a str> {
        Some(tokens_of(self.back).nth(1)?.text)
    }

    /// The token of this index, from the one at fault on; empty if there is none.
    pub(crate) fn token_at(&self, index: usize) -> &'a str {
        match tokens_of(self.back).nth(index) {
            Some(token) => token.text,
            None => "",
        }
    }

    /// Whether `:` and a type begin at the token of this index, from the one at fault on.
    pub(crate) fn has_type(&self, index: usize) -> bool {
        self.token_at(index) == ":" && is_type(self.token_at(index.saturating_add(1)))
    }

    /// Whether the token of this index, from the one at fault on, comes after a name that is defined: `=` and a word, which a type may
    /// come before.
    pub(crate) fn is_in_heading(&self, index: usize) -> bool {
        let at = if self.has_type(index) {
            index.saturating_add(2)
        } else {
            index
        };
        self.token_at(at) == "=" && is_word(self.token_at(at.saturating_add(1)))
    }

    /// Whether the token after it is on the same line.
    pub(crate) fn has_next_on_line(&self) -> bool {
        match tokens_of(self.back).nth(1) {
            Some(token) => !token.begins_line(self.back),
            None => false,
        }
    }

    // What is between the last token and the token at fault.
    fn gap(&self) -> &'a str {
        self.front.get(self.marks.end..).unwrap_or("")
    }

    /// Whether the token at fault follows the one before it directly.
    pub(crate) fn is_joined(&self) -> bool {
        self.gap().is_empty()
    }

    /// Whether the token at fault is on another line than the one before it.
    pub(crate) fn is_on_new_line(&self) -> bool {
        self.gap().contains('\n')
    }

    /// The statement or last line that the error is in or after.
    pub(crate) fn statement(&self) -> Statement<'a> {
        Statement::read(self.front.get(self.marks.statement..).unwrap_or(""))
    }

    /// The line of an offset before the error.
    pub(crate) fn line_of(&self, offset: usize) -> usize {
        let lines = newlines(self.front.get(offset..).unwrap_or(""));
        self.line.saturating_sub(lines)
    }

    /// Where the item defines the name first, which is given without its `%`.
    pub(crate) fn definition(&self, word: &str) -> Option<usize> {
        let mut headings = Headings::new();
        for token in tokens_from(self.front, self.marks.item) {
            if let Some(name) = headings.take(token)
                && without_percent(name.text) == word
            {
                return Some(name.offset);
            }
        }
        None
    }

    /// Whether the first name that the item defines is at this offset.
    pub(crate) fn is_first_definition(&self, offset: usize) -> bool {
        let mut headings = Headings::new();
        for token in tokens_from(self.front, self.marks.item) {
            if let Some(name) = headings.take(token) {
                return name.offset == offset;
            }
        }
        false
    }

    /// The line on which the item defines the name first after the error.
    pub(crate) fn later_definition(&self, name: &str) -> Option<usize> {
        if ends_item(self.kind, self.statement().word) {
            return None;
        }
        let mut headings = Headings::new();
        for token in tokens_of(self.back) {
            if ends_item(self.kind, token.text) {
                return None;
            }
            if let Some(defined) = headings.take(token)
                && defined.offset > 0
                && defined.text == name
            {
                let lines = newlines(self.back.get(..defined.offset).unwrap_or(""));
                return Some(self.line.saturating_add(lines));
            }
        }
        None
    }

    /// Whether the statement or last line of the error has the name, before the error or after it on its line.
    pub(crate) fn has_operand(&self, name: &str) -> bool {
        let before = self.front.get(self.marks.statement..).unwrap_or("");
        let after = match self.back.split_once('\n') {
            Some((line, _)) => line,
            None => self.back,
        };
        has_token(before, name) || has_token(after, name)
    }

    /// The number of predecessors of the block of this name.
    pub(crate) fn predecessors(&self, name: &str) -> Option<usize> {
        let offset = self.definition(without_percent(name))?;
        let (_heading, side) = self.front.get(offset..)?.split_once('=')?;
        let mut tokens = tokens_of(side);
        if tokens.next()?.text != "block" {
            return None;
        }
        tokens.next()?.text.parse::<usize>().ok()
    }

    /// How many names and numbers a statement or last line has that is whole.
    pub(crate) fn wanted(&self, statement: Statement<'_>) -> Option<usize> {
        match statement.word {
            "phi" => Some(self.predecessors(statement.first)?.saturating_add(1)),
            word => operand_count(word),
        }
    }

    /// Whether the text up to the error ends with a whole statement or last line.
    pub(crate) fn is_whole(&self) -> bool {
        let statement = self.statement();
        match self.wanted(statement) {
            Some(operands) => statement.is_whole(operands),
            None => false,
        }
    }

    /// The last line that the item lacks before the error.
    pub(crate) fn last_line(&self) -> LastLine {
        match self.kind {
            Kind::Lhs => LastLine::Infer,
            Kind::Rhs => LastLine::Result,
            Kind::Rep if self.marks.has_infer => LastLine::Result,
            Kind::Rep => LastLine::InferOrCand,
        }
    }

    /// The line that seems to begin another item, after an empty line: the one of the error, or the last one before it after this offset.
    pub(crate) fn paragraph(&self, after: usize) -> Option<usize> {
        if has_empty_line(self.gap()) {
            return Some(self.line);
        }
        match self.marks.paragraph {
            Some(offset) if offset > after => Some(self.line_of(offset)),
            _ => None,
        }
    }

    /// The line that begins another item after the infer line, if that is clear.
    pub(crate) fn next_item(&self) -> Option<usize> {
        match self.paragraph(0) {
            None if !self.marks.continues => Some(self.line),
            line => line,
        }
    }
}
