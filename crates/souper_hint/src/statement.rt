//! The statement or last line that an error is in or after.

use crate::tokens::{is_name, is_operand, tokens_of};

/// What of a statement or last line comes before an error.
#[derive(Clone, Copy)]
pub(crate) struct Statement<'a> {
    /// The word that says what it is, of a definition the one after `=`; empty if there is none.
    pub(crate) word: &'a str,

    /// The token after the word; empty if there is none.
    pub(crate) first: &'a str,

    /// How many names and numbers follow the word, up to the attributes.
    pub(crate) operands: usize,

    pub(crate) has_attributes: bool,

    /// Whether the last token is on another line than the one before it.
    pub(crate) ends_on_new_line: bool,

    // The last token after the word; empty if there is none.
    last: &'a str,
}

impl<'a> Statement<'a> {
    /// Reads the statement that begins the text.
    pub(crate) fn read(text: &'a str) -> Statement<'a> {
        let mut statement = Statement {
            word: "",
            first: "",
            operands: 0,
            has_attributes: false,
            ends_on_new_line: false,
            last: "",
        };
        let mut in_heading = is_name(text);
        for token in tokens_of(text) {
            if in_heading {
                in_heading = token.text != "=";
            } else {
                statement.take(token.text);
                statement.ends_on_new_line = token.begins_line(text);
            }
        }
        statement
    }

    fn take(&mut self, token: &'a str) {
        if self.word.is_empty() {
            self.word = token;
            return;
        }
        if self.first.is_empty() {
            self.first = token;
        }
        if token == "(" {
            self.has_attributes = true;
        }
        if !self.has_attributes && is_operand(token) {
            self.operands = self.operands.saturating_add(1);
        }
        self.last = token;
    }

    /// Whether it is whole, if it has this number of names and numbers.
    pub(crate) fn is_whole(self, operands: usize) -> bool {
        let is_closed = match self.last {
            ")" => true,
            "," | ":" => false,
            _ => !self.has_attributes,
        };
        is_closed && self.operands == operands
    }
}
