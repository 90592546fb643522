//! The lines of a text, and which of them begin or end an item.
ghost use Rattle.std.specs.Prelude.{◌≡◌, ◌≤◌, ◌<◌, ◌∷◌, [], length, take, drop, true, false, IfOk, IfSome, IfNone, OnErr, IsUtf8};
ghost use Rattle.std.specs.Io.{StartsWith};
ghost use Rattle.std.specs.Io.BufRead.{take_through};
ghost use Rattle.souper_stream.specs.Prelude.{IsOneLine, kinds, is_name, IsLines};
ghost use Rattle.souper_lexer.specs.TokenView.{lexeme_of, Yields};
ghost use Rattle.souper_stream.specs.Lines.{last_word, line_word, token_begins_terminator, shows_line, defines, starts_line, begins_terminator, first_state, state_after, scanned, IsAbsent, NoTerminatorWord, IsWithoutEnd};
ghost use Rattle.souper_stream.specs.Segments.{tokens_of, IsLastLineAt};

use crate::item::StreamItem;
use memchr::{memchr, memmem, memrchr};
use souper_lexer::{Fault, Lexer, Token};
use std::io::ErrorKind;
use std::{io, str};

// Whether the word begins a path condition, or one of an item's last lines.
fn is_line_word(word: &str) -> bool
    ensures { result ≡ line_word word.now }
{
    let is_last = word == "infer" || (word == "result" || word == "cand");
    is_last || (word == "pc" || word == "blockpc")
}

// The next token. It is lexed as the parser lexes it, so that a program has one caller of `Lexer::next_token`.
fn next_token<'a>(lexer: &mut Lexer<'a>) -> Result<Option<(usize, Token<'a>)>, Fault>
    ensures { Yields lexer.old result lexer.new }
{
    let (mut ahead, mut offset) = (None, 0);
    lexer.lex(&mut ahead, &mut offset)?;
    Ok(ahead)
}

/// The scanner state after a sequence of tokens.
#[derive(Clone, Copy)]
pub(crate) struct ScanState {
    /// Whether the last token is a name. If `ends_item` is false, it is not used.
    pub after_name: bool,

    /// Whether, of the statements and last lines that begin in them, the last is a terminator.
    pub ends_item: bool,
}

impl ScanState {
    /// The state after no tokens.
    pub(crate) fn new() -> ScanState
        ensures { result ≡ first_state }
    {
        ScanState {
            after_name: false,
            ends_item: false,
        }
    }

    // The state after one token more. A line begins at its word, or at what defines the name before it.
    fn after<T: StreamItem>(self, token: Token<'_>) -> ScanState
        ensures { result ≡ state_after T.item_type self (lexeme_of token.entry) }
    {
        let ends_item = match token {
            Token::Ident(word) if is_line_word(word) => T::ends_with(word),
            Token::Eq if self.after_name => false,
            Token::Colon if self.after_name => false,
            _ => self.ends_item,
        };
        ScanState {
            after_name: matches!(&token, Token::ValName(_)),
            ends_item,
        }
    }
}

/// The state after the tokens of the line, up to a fault, given the state before them.
pub(crate) fn scan_line<T: StreamItem>(line: &str, before: ScanState) -> ScanState
    ensures { result ≡ scanned T.item_type before (tokens_of line.now) }
{
    let mut lexer = Lexer::new(line);
    let mut state = before;
    'tokens: loop {
        state = match next_token(&mut lexer) {
            Ok(Some((_, token))) => state.after::<T>(token),
            _ => return state,
        };
    }
}

/// Whether the line begins with a statement, or is one of an item's last lines.
pub(crate) fn starts_line(line: &str) -> bool
    ensures { result ≡ starts_line (tokens_of line.now) }
{
    let mut lexer = Lexer::new(line);
    let first = match next_token(&mut lexer) {
        Ok(Some((_, token))) => token,
        _ => return false,
    };
    match first {
        Token::Ident(word) => is_line_word(word),
        Token::ValName(_) => match next_token(&mut lexer) {
            Ok(Some((_, token))) => matches!(&token, Token::Eq | Token::Colon),
            _ => false,
        },
        _ => false,
    }
}

/// The bytes as text. The error says that they are not UTF-8.
pub(crate) fn utf8(bytes: &[u8]) -> io::Result<&str>
    ensures same { IfOk result (λ text. text.now ≡ bytes.now) }
    ensures utf8 { IfOk result (λ text. IsUtf8 text.now) }
    ensures failed { OnErr result (¬ (IsUtf8 bytes.now)) }
{
    str::from_utf8(bytes).map_err(|_| io::Error::from(ErrorKind::InvalidData))
}

/// The length of the first line of the text, with its newline.
#[tactic(auto, using(crate::proofs::LineLists::through_found, crate::proofs::LineLists::through_none))]
pub(crate) fn first_line_len(text: &[u8]) -> usize
    ensures line { result ≡ length (take_through 10 text.now) }
    ensures within { result ≤ length text.now }
    ensures some { 0 < length text.now → 0 < result }
{
    match memchr(b'\n', text) {
        Some(index) => index + 1,
        None => text.len(),
    }
}

/// The offset of the last line of the text, in bytes.
#[tactic(auto, using(crate::proofs::LineLists::last_line_at))]
pub(crate) fn last_line_start(text: &[u8]) -> usize
    requires { 0 < length text.now }
    ensures { IsLastLineAt text.now result }
{
    lines_len(&text[..text.len() - 1])
}

/// The length in bytes of the whole lines that the bytes begin with: up to the last newline, and 0 if there is none.
#[tactic(auto, using(crate::proofs::LineLists::one_after))]
pub fn lines_len(bytes: &[u8]) -> usize
    ensures bound { result ≤ length bytes.now }
    ensures lines { IsLines (take result bytes.now) }
    ensures rest { IsOneLine (drop result bytes.now) }
{
    match memrchr(b'\n', bytes) {
        Some(index) => index + 1,
        None => 0,
    }
}

// The bytes before the first occurrence of the word, if an item of the type ends with a line that it begins; else all.
#[tactic(auto, using(crate::proofs::Cutting::front_take, crate::proofs::Cutting::absent_before, crate::proofs::Cutting::terminator_some))]
fn before_word<'a, T: StreamItem>(bytes: &'a [u8], word: &str) -> &'a [u8]
    ensures front { StartsWith bytes.now result.now }
    ensures none { begins_terminator T.item_type word.now ≡ true → IsAbsent word.now result.now }
{
    if !T::ends_with(word) {
        return bytes;
    }
    match memmem::find(bytes, word.as_bytes()) {
        Some(index) => &bytes[..index],
        None => bytes,
    }
}

// The most bytes that are searched at once: an item may end with a word that is nowhere in the buffer, and another that comes soon.
const WINDOW: usize = 512;

/// The length of lines that the bytes begin with, in which the words that items of the type end with do not occur, and how many bytes were
/// searched for the first of the words. 0 if the lines are not UTF-8: the line at fault is then found line by line.
pub(crate) fn len_without_end<T: StreamItem>(bytes: &[u8]) -> (usize, usize)
    ensures { IsWithoutEnd T.item_type bytes.now result.0 }
{
    let front = before_word::<T>(&bytes[..bytes.len().min(WINDOW)], "infer");
    let front = before_word::<T>(front, "result");
    let searched = front.len();
    let front = before_word::<T>(front, "cand");
    let len = lines_len(front);
    match utf8(&front[..len]) {
        Ok(_) => (len, searched),
        Err(_) => (0, searched),
    }
}

// The end of the first byte of the last occurrence of the word, if items of the type end with a line that it begins. Else 0.
fn last_occurrence<T: StreamItem>(bytes: &[u8], word: &str) -> usize
    ensures within { result ≤ length bytes.now }
    ensures none { result ≡ 0 → begins_terminator T.item_type word.now ≡ true → IsAbsent word.now bytes.now }
{
    // Where the word does not occur, a search forward finds that out faster.
    if !T::ends_with(word) || before_word::<T>(bytes, word).len() == bytes.len() {
        return 0;
    }
    match memmem::rfind(bytes, word.as_bytes()) {
        Some(index) => index + 1,
        None => 0,
    }
}

/// The offset of the last line in which a word occurs that items of the type end with, be it in a token or in a comment.
pub(crate) fn last_line_with_end<T: StreamItem>(bytes: &[u8]) -> Option<usize>
    ensures line { IfSome result (λ start. IsLines (take start bytes.now) × (start ≤ length bytes.now)) }
    ensures none { IfNone result (NoTerminatorWord T.item_type bytes.now) }
{
    let infer = last_occurrence::<T>(bytes, "infer");
    let result = last_occurrence::<T>(bytes, "result");
    let end = infer.max(result).max(last_occurrence::<T>(bytes, "cand"));
    if end == 0 {
        None
    } else {
        Some(last_line_start(&bytes[..end]))
    }
}
