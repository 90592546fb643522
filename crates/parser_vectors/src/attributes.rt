//! Lists of attributes, from parsers that are used directly.
use crate::checks::{is_text, refuses};
use souper_ir::ast::{Attribute, RootAttribute};
use souper_ir::parse::{Parse, Parser, Peek};
use std::alloc::Global;
use std::process::Abort;

// The source begins with the attributes that are shown so.
fn read<P: Peek + Drop + std::fmt::Debug>(
    rt: &impl Abort,
    alloc: Global,
    source: &str,
    want: &str,
) {
    let mut parser = Parser::new(alloc, source);
    let attributes = Vec::<P>::parse(&mut parser).expect(rt, "a value");
    is_text(
        rt,
        format!(in alloc; "{attributes:?}").expect(rt, "memory"),
        want,
    );
}

#[test]
fn attributes(rt: HostRuntime) {
    let alloc = rt.alloc();
    read::<Attribute>(&rt, alloc, "", "[]");
    let want = "[PowerOfTwo, Negative]";
    read::<Attribute>(&rt, alloc, "(powerOfTwo) (negative)", want);
    let source = "(nonNegative)(nonZero)(hasExternalUses)";
    let want = "[NonNegative, NonZero, HasExternalUses]";
    read::<Attribute>(&rt, alloc, source, want);
    let want = "[KnownBits([Some(false), None, Some(true)])]";
    read::<Attribute>(&rt, alloc, "(knownBits=0x1)", want);
    read::<Attribute>(&rt, alloc, "( signBits = 007 )", "[SignBits(7)]");
    read::<Attribute>(&rt, alloc, "(range=[-5,300)) x", "[Range(-5, 300)]");
}

#[test]
fn root_attributes(rt: HostRuntime) {
    let source = "(demandedBits=0110) (harvestedFromUse)";
    let want = "[DemandedBits([false, true, true, false]), HarvestedFromUse]";
    read::<RootAttribute>(&rt, rt.alloc(), source, want);
}

fn refused(rt: &impl Abort, alloc: Global, source: &str, offset: usize, message: &str) {
    refuses::<Attribute>(rt, alloc, source, offset, message);
}

#[test]
fn refused_attributes(rt: HostRuntime) {
    let alloc = rt.alloc();
    refused(&rt, alloc, "negative", 0, "expected '('");
    refused(&rt, alloc, "(odd)", 1, "unknown attribute 'odd'");
    refused(&rt, alloc, "(12)", 1, "expected an attribute identifier");
    refused(&rt, alloc, "(negative", 8, "unexpected EOF");
    refused(&rt, alloc, "(negative,", 9, "expected ')'");
    refused(
        &rt,
        alloc,
        "(signBits=x)",
        10,
        "expected an integer literal",
    );
    let large = "number too large to fit in target type";
    refused(&rt, alloc, "(signBits=256)", 10, large);
    let small = "number too small to fit in target type";
    refused(&rt, alloc, "(signBits=-1)", 10, small);
    refused(&rt, alloc, "(range=(0,1))", 7, "expected '['");
}

#[test]
fn refused_root_attributes(rt: HostRuntime) {
    let alloc = rt.alloc();
    let word = "expected 'demandedBits' or 'harvestedFromUse'";
    refuses::<RootAttribute>(&rt, alloc, "(negative)", 1, word);
    let bits = "expected [0|1]+ bit pattern";
    refuses::<RootAttribute>(&rt, alloc, "(demandedBits=012)", 14, bits);
    refuses::<RootAttribute>(&rt, alloc, "(demandedBits=x)", 14, bits);
}
