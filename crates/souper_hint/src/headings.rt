//! The names that a text defines.
ghost use Rattle.std.specs.Prelude.{◌≡◌, None, Some, IfSome};

use crate::tokens::{Token, is_after_name, is_name};

/// Finds the names that the tokens of a text define.
#[derive(Clone, Copy)]
pub(crate) struct Headings<'a> {
    last: Option<Token<'a>>,
}

impl<'a> Headings<'a> {
    pub(crate) fn new() -> Headings<'a>
        ensures { result.last ≡ None }
    {
        Headings { last: None }
    }

    /// Takes the next token, and returns the name that it shows to be defined.
    pub(crate) fn take(&mut self, token: Token<'a>) -> Option<Token<'a>>
        ensures last { self.new.last ≡ Some token.entry }
        ensures found { IfSome result (λ name. self.old.last ≡ Some name) }
    {
        let last = self.last;
        self.last = Some(token);
        match last {
            Some(name) if is_name(name.text) && is_after_name(token.text) => Some(name),
            _ => None,
        }
    }
}

/// A name without its `%`.
pub(crate) fn without_percent(name: &str) -> &str {
    name.strip_prefix('%').unwrap_or(name)
}
