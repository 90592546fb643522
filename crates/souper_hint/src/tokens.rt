//! The tokens of a text up to an error, as far as hints need them.
//!
//! `souper_lexer` has the tokens of the grammar. Here a character that begins none is white space, and the bits of `knownBits` are tokens.
ghost use Rattle.std.specs.Prelude.{◌≡◌, ◌≤◌, ◌<◌, ◌-◌, length};
ghost use Rattle.std.specs.Iterator.{at_most};

/// A token, with its offset in the text, and the offset at which the token before it ends.
#[derive(Clone, Copy)]
pub(crate) struct Token<'a> {
    pub(crate) gap: usize,
    pub(crate) offset: usize,
    pub(crate) text: &'a str,
}

impl Token<'_> {
    /// The offset at which it ends.
    pub(crate) fn end(&self) -> usize {
        self.offset.saturating_add(self.text.len())
    }

    /// Whether it is on another line of the text than the token before it.
    pub(crate) fn begins_line(&self, text: &str) -> bool {
        text.get(self.gap..self.offset)
            .is_some_and(|gap| gap.contains('\n'))
    }
}

/// The tokens of a text from some offset on.
#[derive(Drop)]
pub(crate) struct Tokens<'a> {
    text: &'a str,
    at: usize,
}

/// The tokens of the text.
pub(crate) fn tokens_of(text: &str) -> Tokens<'_>
    ensures { result.text.now ≡ text.now }
{
    Tokens { text, at: 0 }
}

/// The tokens of the text from this offset on.
pub(crate) fn tokens_from(text: &str, at: usize) -> Tokens<'_>
    ensures { result.text.now ≡ text.now }
{
    Tokens { text, at }
}

// What the characters of a token are, from the second one on.
#[derive(Clone, Copy)]
enum Class {
    Name,
    Digit,
}

// Whether a name may have the character.
fn is_name_byte(byte: &u8) -> bool {
    byte.is_ascii_alphanumeric() || *byte == b'_' || *byte == b'.'
}

fn is_in(class: Class, byte: u8) -> bool {
    match class {
        Class::Name => is_name_byte(&byte),
        Class::Digit => byte.is_ascii_digit(),
    }
}

// The index of the first byte from this one on that is neither white space nor in a comment.
fn gap_end(bytes: &[u8], from: usize) -> usize
    requires { from ≤ length bytes.now }
    ensures start { from ≤ result }
    ensures end { result ≤ length bytes.now }
{
    let mut in_comment = false;
    for index in from..bytes.len() {
        match bytes[index] {
            b'\n' => in_comment = false,
            b';' => in_comment = true,
            b'!'..=b'~' if !in_comment => return index,
            _ => {}
        }
    }
    bytes.len()
}

// The index of the first byte from this one on that is not of the class.
fn run_end(bytes: &[u8], from: usize, class: Class) -> usize
    requires { from ≤ length bytes.now }
    ensures start { from ≤ result }
    ensures end { result ≤ length bytes.now }
{
    for index in from..bytes.len() {
        if !is_in(class, bytes[index]) {
            return index;
        }
    }
    bytes.len()
}

// Where the token ends that begins at this index.
fn token_end(bytes: &[u8], start: usize) -> usize
    requires { start < length bytes.now }
    ensures start { start < result }
    ensures end { result ≤ length bytes.now }
{
    let next = start + 1;
    match bytes[start] {
        b'%' | b'a'..=b'z' | b'A'..=b'Z' => run_end(bytes, next, Class::Name),
        b'-' | b'0'..=b'9' => run_end(bytes, next, Class::Digit),
        _ => next,
    }
}

impl<'a> Iterator for Tokens<'a> {
    type Item = Token<'a>;

    ghost use Rattle.souper_hint.specs.Tokens.{GivesPart};

    ghost next_gives = { GivesPart };

    ghost remaining = { λ t. at_most (length t.text.now - t.at) };

    fn next(&mut self) -> Option<Token<'a>> {
        let text = self.text;
        let bytes = text.as_bytes();
        let gap = self.at.min(bytes.len());
        let offset = gap_end(bytes, gap);
        if offset == bytes.len() {
            return None;
        }
        let end = token_end(bytes, offset);
        self.at = end;
        Some(Token {
            gap,
            offset,
            text: text.get(offset..end).unwrap_or(""),
        })
    }
}

/// Whether the token is a name, with its `%`.
pub(crate) fn is_name(token: &str) -> bool {
    token.starts_with('%')
}

/// Whether the token is a word.
pub(crate) fn is_word(token: &str) -> bool {
    match token.as_bytes().first() {
        Some(byte) => byte.is_ascii_alphabetic(),
        None => false,
    }
}

/// Whether the token is a name or a number.
pub(crate) fn is_operand(token: &str) -> bool {
    match token.as_bytes().first() {
        Some(byte) => byte.is_ascii_digit() || matches!(*byte, b'-' | b'%') && token.len() > 1,
        None => false,
    }
}

/// Whether all characters of a text are digits, of which there is at least one.
pub(crate) fn is_number(text: &str) -> bool {
    !text.is_empty() && text.bytes().all(|byte| byte.is_ascii_digit())
}

/// Whether the word is `i` and digits.
pub(crate) fn is_type(word: &str) -> bool {
    match word.strip_prefix('i') {
        Some(digits) => is_number(digits),
        None => false,
    }
}

/// Whether the token is after the name of a definition.
pub(crate) fn is_after_name(token: &str) -> bool {
    token == "=" || token == ":"
}
