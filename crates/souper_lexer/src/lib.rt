//! The tokens of a text of Souper IR, each with the offset of its first byte.
//!
//! Souper IR is the text format of the superoptimizer [Souper](https://github.com/google/souper), which the crate
//! `souper_ir` reads. [`Lexer::next_token`] passes white space and comments, and returns the next [`Token`], `None` at the
//! end, or the [`Fault`] that the text has there.
#![tactic(auto)]

ghost use Rattle.std.specs.Prelude.{◌≡◌, ℕ, ◌+◌, ◌<◌, ◌≤◌, ◌^◌, List, length, drop, IsCharBoundary, IfErr, IfSome, IfNone, OnOk, OnErr, Some, slice_index, option_map, is_some, true, false};
ghost use Rattle.std.specs.List.{prefix_len};
ghost use Rattle.std.specs.Char.{is_ascii_alphabetic};
ghost use Rattle.souper_graph.specs.Names.{is_name_char};
ghost use Rattle.souper_graph.specs.Syntax.Tokens.{Lexeme, ident, val_name, int, comma, begins_int, IsTextOf};
ghost use Rattle.souper_graph.specs.Syntax.TokenLaws.{AreTokensOf};
ghost use Rattle.souper_lexer.specs.TokenReading.{remark, space_len, after_from, after_gap, run_of, after_run, found, lexed_of, Lexed, bits_at, word_at, name_at, mark_of, longer_at, front_of};
ghost use Rattle.souper_lexer.specs.TokenView.{lexeme_of, is_in, IsCut, Reads, Takes, BeginsWith, Yields, Lexes};

use memchr::memchr;
use std::fmt;
use std::marker::Model;

/// A token, with its content as a slice of the source.
#[derive(Clone, Copy, Debug, PartialEq, Eq)]
pub enum Token<'a> {
    /// A letter and name characters, and not the word `knownBits`.
    Ident(&'a str),

    /// `%` and one or more name characters, all of it.
    ValName(&'a str),

    /// The text after `knownBits=`: one or more of `0`, `1`, `x`.
    KnownBits(&'a str),

    /// A digit or `-`, and digits.
    Int(&'a str),

    /// `,`
    Comma,

    /// `:`
    Colon,

    /// `=`
    Eq,

    /// `(`
    OpenParen,

    /// `)`
    CloseParen,

    /// `[`
    OpenBracket,
}

/// Why there is no token at an offset.
#[derive(Clone, Copy, Debug, PartialEq, Eq)]
pub enum FaultKind {
    /// No name character after a `%`.
    ExpectedValueName,

    /// This character after `knownBits`.
    ExpectedEquals(char),

    /// The end of the text after `knownBits`.
    UnexpectedEnd,

    /// No bit after `knownBits=`.
    ExpectedBits,

    /// A character that begins no token.
    Unexpected(char),
}

impl fmt::Display for FaultKind {
    fn fmt<W: fmt::Write>(&self, f: &mut fmt::Formatter<W>) -> fmt::Result {
        match self {
            FaultKind::ExpectedValueName => write!(f, "expected value name"),
            FaultKind::ExpectedEquals(c) => write!(f, "expected '=', found '{c}'"),
            FaultKind::UnexpectedEnd => write!(f, "unexpected EOF"),
            FaultKind::ExpectedBits => { write!(f, "expected [0|1|x]+ bit pattern for knownBits") }
            FaultKind::Unexpected(c) => write!(f, "unexpected '{c}'"),
        }
    }
}

/// Where there is no token, in bytes from the source's first byte, and why.
#[derive(Clone, Copy, Debug, PartialEq, Eq)]
pub struct Fault {
    pub offset: usize,
    pub kind: FaultKind,
}

/// The tokens of a text from some offset on.
#[derive(Debug, Drop)]
pub struct Lexer<'a> {
    offset: usize,
    rest: &'a str,
}

#[derive(Clone, Copy)]
enum Class {
    Name,
    Digit,
    Bit,
}

// Each name character is at its own index, and a comma at every other.
static NAME_CHARACTERS: [u8; 256] = *b"\
    ,,,,,,,,,,,,,,,,,,,,,,,,,,,,,,,,\
    ,,,,,,,,,,,,,,.,0123456789,,,,,,\
    ,ABCDEFGHIJKLMNOPQRSTUVWXYZ,,,,_\
    ,abcdefghijklmnopqrstuvwxyz,,,,,\
    ,,,,,,,,,,,,,,,,,,,,,,,,,,,,,,,,\
    ,,,,,,,,,,,,,,,,,,,,,,,,,,,,,,,,\
    ,,,,,,,,,,,,,,,,,,,,,,,,,,,,,,,,\
    ,,,,,,,,,,,,,,,,,,,,,,,,,,,,,,,,";

fn is_name_char(b: u8) -> bool
    ensures { result ≡ is_name_char b }
{
    NAME_CHARACTERS[b as usize] != b','
}

fn is_in(class: Class, b: u8) -> bool
    ensures { result ≡ is_in class b }
{
    match class {
        Class::Name => is_name_char(b),
        Class::Digit => b.is_ascii_digit(),
        Class::Bit => b == b'0' || b == b'1' || b == b'x',
    }
}

// The length in bytes of the longest prefix whose bytes are all of the class.
#[tactic(auto, using(crate::proofs::TokenText::class_boundary))]
fn front_len(text: &str, class: Class) -> usize
    ensures len { result ≡ prefix_len (is_in class) text.now }
    ensures boundary { IsCharBoundary text.now result }
{
    let bytes = text.as_bytes();
    let mut n = 0;
    while n < bytes.len() && is_in(class, bytes[n]) {
        n += 1;
    }
    n
}

// The rest of the text after a comment whose `;` has been taken: the newline and the text after it, or nothing. The search is not
// inlined, since most gaps have no comment.
#[inline(never)]
fn after_comment(text: &str) -> &str
    ensures rest { after_gap result.now ≡ after_from remark text.now }
    ensures len { length result.now ≤ length text.now }
{
    match memchr(b'\n', text.as_bytes()) {
        Some(n) => &text[n..],
        None => "",
    }
}

// The length in bytes of the white space character that the text begins with, or 0.
fn space_len(text: &str) -> usize
    ensures len { result ≡ space_len text.now }
    ensures boundary { IsCharBoundary text.now result }
{
    match text.chars().next() {
        Some(c) if c.is_whitespace() => c.len_utf8(),
        _ => 0,
    }
}

// The rest of the text after the gap.
#[tactic(auto, using(crate::proofs::TokenGap::gap_past_blank, crate::proofs::TokenGap::gap_past_control, crate::proofs::TokenGap::gap_past_remark, crate::proofs::TokenGap::gap_past_space, crate::proofs::TokenGap::gap_stops_below, crate::proofs::TokenGap::gap_stops_above, crate::proofs::TokenGap::gap_stops_wide, crate::proofs::TokenGap::gap_nil))]
fn after_gap(text: &str) -> &str
    ensures rest { result.now ≡ after_gap text.now }
    ensures len { length result.now ≤ length text.now }
{
    let mut rest = text;
    loop {
        match rest.as_bytes() {
            [b' ', ..] => rest = after_first(rest),
            [b'\t'..=b'\r', ..] => rest = after_first(rest),
            [b';', ..] => rest = after_comment(after_first(rest)),
            [(0x80..), ..] => {
                let n = space_len(rest);
                if n == 0 {
                    return rest;
                }
                rest = &rest[n..];
            }
            _ => return rest,
        }
    }
}

// The rest of the text after the first character, which is ASCII.
#[tactic(auto, using(crate::proofs::TokenText::boundary_after_first))]
fn after_first(text: &str) -> &str
    requires { (0 < length text.now) × (slice_index text.now 0 < 128) }
    ensures { result.now ≡ drop 1 text.now }
{
    &text[1..]
}

// The rest of the text after one space, if the text begins with one.
#[inline(always)]
#[tactic(auto, using(crate::proofs::TokenGap::gap_past_blank))]
fn after_space(text: &str) -> &str
    ensures rest { after_gap result.now ≡ after_gap text.now }
    ensures len { length result.now ≤ length text.now }
{
    match text.as_bytes() {
        [b' ', ..] => after_first(text),
        _ => text,
    }
}

// The rest of the text after one space or newline, if the text begins with one.
#[inline(always)]
#[tactic(auto, using(crate::proofs::TokenGap::gap_past_blank, crate::proofs::TokenGap::gap_past_control))]
fn after_blank(text: &str) -> &str
    ensures rest { after_gap result.now ≡ after_gap text.now }
    ensures len { length result.now ≤ length text.now }
{
    match text.as_bytes() {
        [b' ', ..] => after_first(text),
        [b'\n', ..] => after_first(text),
        _ => text,
    }
}

fn first_char(text: &str) -> char
    requires { 0 < length text.now }
{
    match text.chars().next() {
        Some(c) => c,
        None => unreachable!(),
    }
}

// The longest run of a token's first byte and bytes of the class after it, and the rest.
fn split_run(text: &str, class: Class) -> (&str, &str)
    requires { (0 < length text.now) × (slice_index text.now 0 < 128) }
    ensures run { result.0.now ≡ run_of (is_in class) (slice_index text.now 0) (drop 1 text.now) }
    ensures rest { result.1.now ≡ after_run (is_in class) (drop 1 text.now) }
    ensures len { length result.0.now + length result.1.now ≡ length text.now }
{
    text.split_at(1 + front_len(after_first(text), class))
}

#[tactic(auto, unfolding(crate::specs::TokenReading::bits_at))]
fn bits_at(offset: usize, text: &str) -> Result<(Token<'_>, &str), Fault>
    requires start { 0 < offset }
    requires room { offset + length text.now < 2 ^ 64 }
    ensures reads { Reads result (bits_at text.now) }
    ensures offset { IfErr result (λ f. f.offset ≤ offset + length text.now) }
{
    match text.as_bytes() {
        [] => Err(Fault {
            offset: offset - 1,
            kind: FaultKind::UnexpectedEnd,
        }),
        [b'=', ..] => {
            let text = after_first(text);
            let n = front_len(text, Class::Bit);
            if n == 0 {
                return Err(Fault {
                    offset: offset + 1,
                    kind: FaultKind::ExpectedBits,
                });
            }
            let (bits, rest) = text.split_at(n);
            Ok((Token::KnownBits(bits), rest))
        }
        _ => Err(Fault {
            offset,
            kind: FaultKind::ExpectedEquals(first_char(text)),
        }),
    }
}

#[tactic(auto, unfolding(crate::specs::TokenReading::word_at))]
fn word_at<'a>(offset: usize, word: &'a str, rest: &'a str) -> Result<(Token<'a>, &'a str), Fault>
    requires start { 0 < length word.now }
    requires room { offset + length word.now + length rest.now < 2 ^ 64 }
    ensures reads { Reads result (word_at word.now rest.now) }
    ensures offset { IfErr result (λ f. f.offset ≤ offset + length word.now + length rest.now) }
{
    if word == "knownBits" {
        bits_at(offset + word.len(), rest)
    } else {
        Ok((Token::Ident(word), rest))
    }
}

#[tactic(auto, unfolding(crate::specs::TokenReading::name_at))]
fn name_at<'a>(offset: usize, name: &'a str, rest: &'a str) -> Result<(Token<'a>, &'a str), Fault>
    ensures reads { Reads result (name_at name.now rest.now) }
    ensures offset { IfErr result (λ f. f.offset ≤ offset) }
{
    if name.len() == 1 {
        return Err(Fault {
            offset,
            kind: FaultKind::ExpectedValueName,
        });
    }
    Ok((Token::ValName(name), rest))
}

// The token of one character.
fn mark_of(b: u8) -> Option<Token<'static>>
    ensures { option_map lexeme_of result ≡ mark_of b }
{
    match b {
        b',' => Some(Token::Comma),
        b':' => Some(Token::Colon),
        b'=' => Some(Token::Eq),
        b'(' => Some(Token::OpenParen),
        b')' => Some(Token::CloseParen),
        b'[' => Some(Token::OpenBracket),
        _ => None,
    }
}

fn begins_int(b: u8) -> bool
    ensures { result ≡ begins_int b }
{
    b.is_ascii_digit() || b == b'-'
}

// A token of more than one character, and the rest of the text after it.
#[tactic(auto, unfolding(crate::specs::TokenReading::longer_at))]
fn longer_at(offset: usize, text: &str) -> Result<(Token<'_>, &str), Fault>
    requires some { 0 < length text.now }
    requires room { offset + length text.now < 2 ^ 64 }
    ensures reads { Reads result (longer_at (slice_index text.now 0) (drop 1 text.now)) }
    ensures offset { IfErr result (λ f. f.offset ≤ offset + length text.now) }
{
    let first = text.as_bytes()[0];
    if first == b'%' {
        let (name, rest) = split_run(text, Class::Name);
        return name_at(offset, name, rest);
    }
    if first.is_ascii_alphabetic() {
        let (word, rest) = split_run(text, Class::Name);
        return word_at(offset, word, rest);
    }
    if begins_int(first) {
        let (digits, rest) = split_run(text, Class::Digit);
        return Ok((Token::Int(digits), rest));
    }
    Err(Fault {
        offset,
        kind: FaultKind::Unexpected(first_char(text)),
    })
}

// The token that the text begins with, and the rest of the text after it.
#[tactic(auto, unfolding(crate::specs::TokenReading::front_of))]
fn token_at(offset: usize, text: &str) -> Result<(Token<'_>, &str), Fault>
    requires some { 0 < length text.now }
    requires room { offset + length text.now < 2 ^ 64 }
    ensures reads { Reads result (front_of (slice_index text.now 0) (drop 1 text.now)) }
    ensures offset { IfErr result (λ f. f.offset ≤ offset + length text.now) }
{
    match mark_of(text.as_bytes()[0]) {
        Some(mark) => Ok((mark, after_first(text))),
        None => longer_at(offset, text),
    }
}

impl<'a> Model for Lexer<'a> {
    ghost Value = { Lexed };

    ghost view = { λ l. lexed_of l.offset l.rest.now };

    ghost invariant = { λ l. l.offset + length l.rest.now < 2 ^ 64 };
}

impl<'a> Lexer<'a> {
    /// The tokens of the whole source.
    pub fn new(source: &'a str) -> Self
        ensures value { result ≡ lexed_of 0 source.now }
        ensures len { result.len ≡ length source.now }
        ensures tokens { AreTokensOf source.now result.tokens result.fault }
        ensures cut { IsCut source.now result.tokens result.fault result.cut }
        ensures only { (ts : List (ℕ × Lexeme)) → IsTextOf source.now ts → (result.tokens ≡ ts) × (result.fault ≡ false) }
    {
        Lexer {
            offset: 0,
            rest: source,
        }
    }

    /// The next token with the offset of its first byte, and `None` at the end.
    pub fn next_token(&mut self) -> Result<Option<(usize, Token<'a>)>, Fault>
        ensures next { Yields self.old result self.new }
        ensures offset { IfErr result (λ f. f.offset ≤ self.old.len) }
    {
        let text = after_gap(self.rest);
        if text.is_empty() {
            return Ok(None);
        }
        let offset = self.offset + (self.rest.len() - text.len());
        let (token, rest) = token_at(offset, text)?;
        self.offset = offset + (text.len() - rest.len());
        self.rest = rest;
        Ok(Some((offset, token)))
    }

    /// Lexes the next token into `ahead`, which is `None` at the end, and sets `offset` to the offset of its first byte.
    ///
    /// The same as [`Lexer::next_token`], for callers that keep the token: as a result it would be copied once more in each
    /// of them.
    // It is not inlined, so that `next_token` is, here: but for tests that has no other caller.
    #[inline(never)]
    pub fn lex(
        &mut self,
        ahead: &mut Option<(usize, Token<'a>)>,
        offset: &mut usize,
    ) -> Result<(), Fault>
        ensures next { Lexes self.old result ahead.new self.new }
        ensures last { offset.old ≤ self.old.len → offset.new ≤ self.old.len }
        ensures placed { OnOk result (IfSome ahead.new (λ token. offset.new ≡ token.0)) }
        ensures ended { OnOk result (IfNone ahead.new (offset.new ≡ offset.old)) }
        ensures faulty { OnErr result ((ahead.new ≡ ahead.old) × (offset.new ≡ offset.old)) }
        ensures fault { IfErr result (λ fault. fault.offset ≤ self.old.len) }
    {
        *ahead = self.next_token()?;
        if let Some((start, _)) = *ahead {
            *offset = start;
        }
        Ok(())
    }

    /// Takes the next token, if it is this mark and one space at most comes before it, and returns its offset. A shortcut
    /// of [`Lexer::next_token`]: `None` leaves the lexer as it was, and says nothing of what comes next.
    #[inline(always)]
    pub fn take_mark(&mut self, mark: u8) -> Option<usize>
        requires { is_some (mark_of mark) ≡ true }
        ensures taken { IfSome result (λ offset. (t : Lexeme) → mark_of mark ≡ Some t → Takes self.old offset t self.new) }
        ensures kept { IfNone result (self.new ≡ self.old) }
    {
        let text = after_space(self.rest);
        match text.as_bytes() {
            [b, ..] if *b == mark => {}
            _ => return None,
        }
        let offset = self.offset + (self.rest.len() - text.len());
        let rest = after_first(text);
        self.offset = offset + (text.len() - rest.len());
        self.rest = rest;
        Some(offset)
    }

    /// Takes the next token, if it is a value name and one space or newline at most comes before it, and returns the offset of
    /// its first byte, and the name. A shortcut of [`Lexer::next_token`]: `None` leaves the lexer as it was, and says nothing
    /// of what comes next.
    #[inline(always)]
    pub fn take_name(&mut self) -> Option<(usize, &'a str)>
        ensures taken { IfSome result (λ name. Takes self.old name.0 (val_name name.1.now) self.new) }
        ensures kept { IfNone result (self.new ≡ self.old) }
    {
        let text = after_blank(self.rest);
        match text.as_bytes() {
            [b'%', ..] => {}
            _ => return None,
        }
        let offset = self.offset + (self.rest.len() - text.len());
        let (name, rest) = split_run(text, Class::Name);
        if name.len() == 1 {
            return None;
        }
        self.offset = offset + (text.len() - rest.len());
        self.rest = rest;
        Some((offset, name))
    }

    /// Whether a newline and then a value name come next. `false` says nothing of what comes next.
    #[inline(always)]
    pub fn name_on_next_line(&self) -> bool
        ensures { result ≡ true → BeginsWith (λ t. (n : List ℕ) × (t ≡ val_name n)) self.now }
    {
        match self.rest.as_bytes() {
            [b'\n', b'%', b, ..] => is_name_char(*b),
            _ => false,
        }
    }

    /// Whether a comma comes next. `false` says nothing of what comes next.
    #[inline(always)]
    pub fn comma_comes(&self) -> bool
        ensures { result ≡ true → BeginsWith (λ t. t ≡ comma) self.now }
    {
        matches!(self.rest.as_bytes(), [b',', ..])
    }

    /// Whether an integer comes next. `false` says nothing of what comes next.
    #[inline(always)]
    pub fn int_comes(&self) -> bool
        ensures { result ≡ true → BeginsWith (λ t. (digits : List ℕ) × (t ≡ int digits)) self.now }
    {
        match after_space(self.rest).as_bytes() {
            [b, ..] => begins_int(*b),
            _ => false,
        }
    }

    /// Takes the next token, if it is an integer and one space at most comes before it, and returns the offset of its first
    /// byte, and the integer. A shortcut of [`Lexer::next_token`]: `None` leaves the lexer as it was, and says nothing of
    /// what comes next.
    #[inline(always)]
    pub fn take_int(&mut self) -> Option<(usize, &'a str)>
        ensures taken { IfSome result (λ digits. Takes self.old digits.0 (int digits.1.now) self.new) }
        ensures kept { IfNone result (self.new ≡ self.old) }
    {
        let text = after_space(self.rest);
        match text.as_bytes() {
            [b, ..] if begins_int(*b) => {}
            _ => return None,
        }
        let offset = self.offset + (self.rest.len() - text.len());
        let (digits, rest) = split_run(text, Class::Digit);
        self.offset = offset + (text.len() - rest.len());
        self.rest = rest;
        Some((offset, digits))
    }

    /// Takes the next token, if it is an identifier and one space at most comes before it, and returns the offset of its first
    /// byte, and the word. A shortcut of [`Lexer::next_token`]: `None` leaves the lexer as it was, and says nothing of
    /// what comes next.
    #[inline(always)]
    pub fn take_word(&mut self) -> Option<(usize, &'a str)>
        ensures taken { IfSome result (λ word. Takes self.old word.0 (ident word.1.now) self.new) }
        ensures kept { IfNone result (self.new ≡ self.old) }
    {
        let text = after_space(self.rest);
        match text.as_bytes() {
            [b, ..] if b.is_ascii_alphabetic() => {}
            _ => return None,
        }
        let offset = self.offset + (self.rest.len() - text.len());
        let (word, rest) = split_run(text, Class::Name);
        if word == "knownBits" {
            return None;
        }
        self.offset = offset + (text.len() - rest.len());
        self.rest = rest;
        Some((offset, word))
    }

    /// The length of the whole text, in bytes.
    pub fn len(&self) -> usize
        ensures { result ≡ self.now.len }
    {
        self.offset + self.rest.len()
    }
}
