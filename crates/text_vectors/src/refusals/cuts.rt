//! Texts that are cut off.
use crate::cases::read_cases;
use crate::checks::equal_in;
use crate::sources::{WORDS, applied, chain, thousand, word_and_count};
use souper_format::command::Kind;
use souper_format::items::read_items;
use souper_ir::parse::{ParseError, ParseErrorKind, parse_left_hand_sides_str};
use std::alloc::Global;
use std::process::Abort;
use text_cases::formatted::FORMATTED;
use text_cases::refused::REFUSED;

const SOURCE: &str = "%a = var\n%b = var\ninfer %b";

// The length of each prefix, the offset at which it is rejected, and the message.
const PREFIXES: &str = "1 0 expected value name
2 1 unexpected EOF
3 2 unexpected EOF
4 3 expected a constant, var, block, phi, or instruction
5 3 expected a constant, var, block, phi, or instruction
6 5 expected a constant, var, block, phi, or instruction
7 5 expected a constant, var, block, phi, or instruction
8 7 unexpected EOF
9 8 unexpected EOF
10 9 expected value name
11 10 unexpected EOF
12 11 unexpected EOF
13 12 expected a constant, var, block, phi, or instruction
14 12 expected a constant, var, block, phi, or instruction
15 14 expected a constant, var, block, phi, or instruction
16 14 expected a constant, var, block, phi, or instruction
17 16 unexpected EOF
18 17 unexpected EOF
19 18 expected 'infer'
20 18 expected 'infer'
21 18 expected 'infer'
22 18 expected 'infer'
23 22 unexpected EOF
24 23 unexpected EOF
25 24 expected value name";

fn read_row(row: &str) -> Option<(usize, usize, &str)> {
    let (len, rest) = row.split_once(' ')?;
    let (offset, message) = rest.split_once(' ')?;
    let len = len.parse::<usize>().ok()?;
    Some((len, offset.parse::<usize>().ok()?, message))
}

// The message in the first line of what an error shows.
fn message(shown: &str) -> Option<&str> {
    let (_place, message) = shown.lines().next()?.split_once(": ")?;
    Some(message)
}

fn prefix_is_refused(rt: &impl Abort, alloc: Global, row: &str) {
    let (len, offset, want) = read_row(row).expect(rt, row);
    let prefix = SOURCE.get(..len).expect(rt, row);
    let error = parse_left_hand_sides_str(alloc, prefix, None).err();
    let error = error.expect(rt, row);
    equal_in(rt, error.kind(), ParseErrorKind::Parse, row);
    equal_in(rt, error.offset(), Some(offset), row);
    let shown = error.to_string(alloc).expect(rt, "memory");
    equal_in(rt, message(shown.as_str()), Some(want), row);
}

#[test]
fn each_prefix_of_a_text_is_refused(rt: HostRuntime) {
    for row in PREFIXES.lines() {
        prefix_is_refused(&rt, rt.alloc(), row);
    }
}

#[test]
fn empty_prefix_and_whole_text_are_read(rt: HostRuntime) {
    let none = parse_left_hand_sides_str(rt.alloc(), "", None).expect(&rt, "no item");
    equal_in(&rt, none.len(), 0, "");
    let items = parse_left_hand_sides_str(rt.alloc(), SOURCE, None).expect(&rt, SOURCE);
    equal_in(&rt, (SOURCE.len(), items.len()), (26, 1), SOURCE);
}

// The text is rejected within it.
fn is_refused_within(rt: &impl Abort, error: &ParseError, text: &str) {
    equal_in(rt, error.kind(), ParseErrorKind::Parse, text);
    let offset = error.offset().expect(rt, text);
    equal_in(rt, offset <= text.len(), true, text);
}

// Each prefix of the text is read, or rejected within it.
fn cuts_of(rt: &impl Abort, alloc: Global, kind: Kind, text: &str) {
    for len in 0..=text.len() {
        let Some(prefix) = text.get(..len) else {
            continue;
        };
        if let Err(error) = read_items(alloc, kind, prefix, None) {
            is_refused_within(rt, &error, prefix);
        }
    }
}

#[test]
fn prefixes_of_refused_texts_are_read_or_refused(rt: HostRuntime) {
    for case in read_cases(&rt, rt.alloc(), REFUSED).iter() {
        cuts_of(&rt, rt.alloc(), case.kind, case.text);
    }
}

#[test]
fn prefixes_of_items_are_read_or_refused(rt: HostRuntime) {
    for case in read_cases(&rt, rt.alloc(), FORMATTED).iter() {
        cuts_of(&rt, rt.alloc(), case.kind, case.text);
        cuts_of(&rt, rt.alloc(), case.kind, case.want);
    }
}

#[test]
fn prefixes_of_instructions_are_read_or_refused(rt: HostRuntime) {
    for line in WORDS.lines() {
        let (word, count) = word_and_count(line).expect(&rt, line);
        let source = applied(&rt, rt.alloc(), word, count);
        cuts_of(&rt, rt.alloc(), Kind::Lhs, source.as_str());
    }
}

#[test]
fn prefixes_of_long_texts_are_read_or_refused(rt: HostRuntime) {
    let source = chain(&rt, rt.alloc(), 199);
    cuts_of(&rt, rt.alloc(), Kind::Lhs, source.as_str());
    let source = thousand(&rt, rt.alloc());
    cuts_of(&rt, rt.alloc(), Kind::Lhs, source.as_str());
}
