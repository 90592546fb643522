//! The tokens of a text, one by one.
use crate::checks::is_text;
use souper_lexer::{Fault, Lexer};
use std::alloc::Global;
use std::fmt::Write;
use std::process::Abort;

// The offset and the content of each token, a line each, and last the offset and the content of the fault, if there is one.
fn listed(rt: &impl Abort, alloc: Global, source: &str) -> String {
    let mut lexer = Lexer::new(source);
    let mut lines = String::new(alloc);
    // Each token has a byte at least.
    for _ in 0..=source.len() {
        match lexer.next_token() {
            Ok(Some((offset, token))) => write!(lines, "{offset} {token:?}\n").expect(rt, "memory"),
            Ok(None) => break,
            Err(Fault { offset, kind }) => {
                write!(lines, "{offset} {kind:?}: {kind}\n").expect(rt, "memory");
                break;
            }
        }
    }
    lines
}

fn lexes(rt: &impl Abort, alloc: Global, source: &str, want: &str) {
    is_text(rt, listed(rt, alloc, source), want);
}

#[test]
fn words(rt: HostRuntime) {
    let want = "0 Ident(\"foo\")\n4 Ident(\"foo1\")\n9 Ident(\"foo_foo\")\n17 Ident(\"FOO\")\n";
    lexes(&rt, rt.alloc(), "foo foo1 foo_foo FOO", want);
    let want =
        "0 ValName(\"%0\")\n3 ValName(\"%foo\")\n8 ValName(\"%FOO\")\n13 ValName(\"%foo1\")\n";
    lexes(&rt, rt.alloc(), "%0 %foo %FOO %foo1", want);
    let source = "knownBits=0 knownBits=1 knownBits=x knownBits=01x01x01x";
    let want = "0 KnownBits(\"0\")\n12 KnownBits(\"1\")\n24 KnownBits(\"x\")\n\
                36 KnownBits(\"01x01x01x\")\n";
    lexes(&rt, rt.alloc(), source, want);
}

#[test]
fn marks_and_numbers(rt: HostRuntime) {
    let want = "0 Comma\n2 Colon\n4 Eq\n6 OpenParen\n8 CloseParen\n10 OpenBracket\n";
    lexes(&rt, rt.alloc(), ", : = ( ) [", want);
    lexes(
        &rt,
        rt.alloc(),
        "1234 -4567",
        "0 Int(\"1234\")\n5 Int(\"-4567\")\n",
    );
}

#[test]
fn mixtures(rt: HostRuntime) {
    let want = "0 ValName(\"%0\")\n2 Colon\n3 Ident(\"i8\")\n";
    lexes(&rt, rt.alloc(), "%0:i8", want);
    let source = "hello ; blah blah blah\n goodbye";
    lexes(
        &rt,
        rt.alloc(),
        source,
        "0 Ident(\"hello\")\n24 Ident(\"goodbye\")\n",
    );
    let source = "foo %123 knownBits=01x ,   :   =   (   )   [   42";
    let want =
        "0 Ident(\"foo\")\n4 ValName(\"%123\")\n9 KnownBits(\"01x\")\n23 Comma\n27 Colon\n31 Eq\n\
                35 OpenParen\n39 CloseParen\n43 OpenBracket\n47 Int(\"42\")\n";
    lexes(&rt, rt.alloc(), source, want);
}

#[test]
fn edges(rt: HostRuntime) {
    lexes(&rt, rt.alloc(), "", "");
    lexes(&rt, rt.alloc(), " ; only a comment é", "");
    let source = "12ab 1-2 knownBitsX %knownBits -";
    let want =
        "0 Int(\"12\")\n2 Ident(\"ab\")\n5 Int(\"1\")\n6 Int(\"-2\")\n9 Ident(\"knownBitsX\")\n\
                20 ValName(\"%knownBits\")\n31 Int(\"-\")\n";
    lexes(&rt, rt.alloc(), source, want);
    let source = "a\u{3000}b\u{a0};é\u{85}\nc\u{2028}";
    let want = "0 Ident(\"a\")\n4 Ident(\"b\")\n13 Ident(\"c\")\n";
    lexes(&rt, rt.alloc(), source, want);
    let want = "0 KnownBits(\"01x\")\n13 Ident(\"a\")\n";
    lexes(&rt, rt.alloc(), "knownBits=01xa", want);
}

#[test]
fn refused(rt: HostRuntime) {
    let want = "0 Ident(\"a\")\n2 Unexpected('é'): unexpected 'é'\n";
    lexes(&rt, rt.alloc(), "a é", want);
    let want = "0 Ident(\"a\")\n2 Unexpected(']'): unexpected ']'\n";
    lexes(&rt, rt.alloc(), "a ]", want);
    let want = "0 Ident(\"a\")\n2 ExpectedValueName: expected value name\n";
    lexes(&rt, rt.alloc(), "a % b", want);
    let want = "10 ExpectedBits: expected [0|1|x]+ bit pattern for knownBits\n";
    lexes(&rt, rt.alloc(), "knownBits= ", want);
    lexes(&rt, rt.alloc(), "knownBits=2", want);
}

#[test]
fn refused_after_known_bits(rt: HostRuntime) {
    let want = "9 ExpectedEquals(' '): expected '=', found ' '\n";
    lexes(&rt, rt.alloc(), "knownBits =01", want);
    lexes(&rt, rt.alloc(), "knownBits =", want);
    let want = "9 ExpectedEquals('\\u{3000}'): expected '=', found '\u{3000}'\n";
    lexes(&rt, rt.alloc(), "knownBits\u{3000}", want);
    let want = "0 Ident(\"a\")\n10 UnexpectedEnd: unexpected EOF\n";
    lexes(&rt, rt.alloc(), "a knownBits", want);
    lexes(
        &rt,
        rt.alloc(),
        "knownBits",
        "8 UnexpectedEnd: unexpected EOF\n",
    );
}

#[test]
fn refused_at_once(rt: HostRuntime) {
    lexes(&rt, rt.alloc(), "é", "0 Unexpected('é'): unexpected 'é'\n");
    lexes(
        &rt,
        rt.alloc(),
        "%",
        "0 ExpectedValueName: expected value name\n",
    );
    let want = "0 Ident(\"a\")\n1 Unexpected('\\u{200b}'): unexpected '\u{200b}'\n";
    lexes(&rt, rt.alloc(), "a\u{200b}", want);
}
