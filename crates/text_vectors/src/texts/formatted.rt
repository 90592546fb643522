//! Texts of the three kinds that are read, and the texts of their items.
use crate::cases::{Case, read_cases};
use crate::checks::{equal, items};
use crate::sources::{WORDS, applied, chain, thousand, word_and_count};
use crate::texts::kept::{formats, formats_as};
use souper_format::command::Kind;
use souper_format::items::read_items;
use std::alloc::Global;
use std::process::Abort;
use text_cases::formatted::FORMATTED;

#[test]
fn texts_are_formatted(rt: HostRuntime) {
    for case in read_cases(&rt, rt.alloc(), FORMATTED).iter() {
        formats(&rt, rt.alloc(), *case);
    }
}

#[test]
fn items_are_formatted_again(rt: HostRuntime) {
    for case in read_cases(&rt, rt.alloc(), FORMATTED).iter() {
        let text = case.want;
        formats(&rt, rt.alloc(), Case { text, ..*case });
    }
}

// The source with `count` operands is printed as it is, and that with one less, if there is one, is rejected.
fn has_operands(rt: &impl Abort, alloc: Global, word: &str, count: usize) {
    let source = applied(rt, alloc, word, count);
    let want = format!(in alloc; "{source}\n\n").expect(rt, "memory");
    formats_as(rt, alloc, source.as_str(), want.as_str());
    if count > 0 {
        let source = applied(rt, alloc, word, count - 1);
        let is_refused = read_items(alloc, Kind::Lhs, source.as_str(), None).is_err();
        equal(rt, (word, is_refused), (word, true));
    }
}

#[test]
fn every_instruction_is_read_and_printed(rt: HostRuntime) {
    for line in WORDS.lines() {
        let (word, count) = word_and_count(line).expect(&rt, line);
        has_operands(&rt, rt.alloc(), word, count);
    }
}

#[test]
fn one_of_a_thousand_statements_is_printed(rt: HostRuntime) {
    let mut source = thousand(&rt, rt.alloc());
    source.push_str("infer %999").expect(&rt, "memory");
    let want = "%999 = var\ninfer %999\n\n";
    formats_as(&rt, rt.alloc(), source.as_str(), want);
}

#[test]
fn chains_of_doublings_print_themselves(rt: HostRuntime) {
    for doublings in [199, 299_999] {
        let source = chain(&rt, rt.alloc(), doublings);
        let want = format!(in rt.alloc(); "{source}\n").expect(&rt, "memory");
        formats_as(&rt, rt.alloc(), source.as_str(), want.as_str());
    }
}

fn has_debug_text(rt: &impl Abort, alloc: Global, kind: Kind, source: &str) {
    let items = items(rt, alloc, kind, source, source);
    let shown = format!(in alloc; "{items:?}").expect(rt, "memory");
    equal(rt, shown.is_empty(), false);
}

// The text of `{:?}` is not specified, but it is not empty.
#[test]
fn items_have_a_debug_text(rt: HostRuntime) {
    let lhs = "%b = block 1\n%x:i8 = phi %b, 1 (nonZero)\nblockpc %b 0 %x 2\npc %x 1\n\
               infer %x (harvestedFromUse)";
    has_debug_text(&rt, rt.alloc(), Kind::Lhs, lhs);
    has_debug_text(&rt, rt.alloc(), Kind::Rhs, "result 1");
    let rep = "%x = var\n%y = add %x, 1\ninfer %y\nresult %x\ncand 1, 2";
    has_debug_text(&rt, rt.alloc(), Kind::Rep, rep);
}
