//! Width, fill, precision and sign are ignored in the shown text of a node, an item or an error.
use crate::fixtures::{Graph, equal, foreign_id, is_text, number, typed};
use souper_graph::ast::{Attribute, Block, Constant, RootAttribute, Type};
use souper_graph::stringify::TextError;
use std::alloc::Global;
use std::fmt::Display;
use std::process::Abort;

// Whatever the options are, the text is the same.
fn shows<D: Display>(rt: &impl Abort, alloc: Global, value: &D, want: &str) {
    is_text(rt, format!(in alloc; "{value}").expect(rt, "memory"), want);
    is_text(
        rt,
        format!(in alloc; "{value:99}").expect(rt, "memory"),
        want,
    );
    is_text(
        rt,
        format!(in alloc; "{value:*^99}").expect(rt, "memory"),
        want,
    );
    is_text(
        rt,
        format!(in alloc; "{value:.1}").expect(rt, "memory"),
        want,
    );
    is_text(
        rt,
        format!(in alloc; "{value:+}").expect(rt, "memory"),
        want,
    );
    is_text(
        rt,
        format!(in alloc; "{value:#}").expect(rt, "memory"),
        want,
    );
    is_text(
        rt,
        format!(in alloc; "{value:>+#099.3}").expect(rt, "memory"),
        want,
    );
    let within = format!(in alloc; "[{value:_<+99.0}]").expect(rt, "memory");
    equal(rt, within.len(), want.len() + 2);
}

#[test]
fn leaves_have_no_style(rt: HostRuntime) {
    let alloc = rt.alloc();
    let ty = Type { width: 32 };
    shows(&rt, alloc, &ty, "i32");
    shows(&rt, alloc, &Constant { value: 7, ty: None }, "7");
    let typed = Constant {
        value: -12,
        ty: Some(ty),
    };
    shows(&rt, alloc, &typed, "-12:i32");
    shows(&rt, alloc, &Block { predecessors: 12 }, "block 12");
}

#[test]
fn attributes_have_no_style(rt: HostRuntime) {
    let alloc = rt.alloc();
    let known = Vec::from_slice(alloc, &[Some(false), None, Some(true)]).expect(&rt, "memory");
    shows(&rt, alloc, &Attribute::KnownBits(known), "(knownBits=0x1)");
    shows(&rt, alloc, &Attribute::PowerOfTwo, "(powerOfTwo)");
    shows(&rt, alloc, &Attribute::SignBits(3), "(signBits=3)");
    shows(&rt, alloc, &Attribute::Range(-1, 5), "(range=[-1,5))");
    let demanded = Vec::from_slice(alloc, &[true, false]).expect(&rt, "memory");
    let demanded = RootAttribute::DemandedBits(demanded);
    shows(&rt, alloc, &demanded, "(demandedBits=10)");
    shows(
        &rt,
        alloc,
        &RootAttribute::HarvestedFromUse,
        "(harvestedFromUse)",
    );
}

#[test]
fn errors_have_no_style(rt: HostRuntime) {
    let alloc = rt.alloc();
    let id = foreign_id(&rt, alloc, 3);
    let fault = TextError::OutOfRange(id.into());
    shows(&rt, alloc, &fault, "statement id 3 is out of range");
    shows(&rt, alloc, &TextError::OutOfMemory, "out of memory");
}

#[test]
fn left_hand_sides_have_no_style(rt: HostRuntime) {
    let mut graph = Graph::new(rt.alloc());
    let x = graph.typed_var(&rt, "%x", 8);
    shows(&rt, rt.alloc(), &graph.infer(x), "%x:i8 = var\ninfer %x\n");
}

#[test]
fn right_hand_sides_have_no_style(rt: HostRuntime) {
    let item = Graph::new(rt.alloc()).result(typed(-5, 8));
    shows(&rt, rt.alloc(), &item, "result -5:i8");
}

#[test]
fn replacements_have_no_style(rt: HostRuntime) {
    let item = Graph::new(rt.alloc()).cand(number(1), number(2));
    shows(&rt, rt.alloc(), &item, "cand 1 2\n");
}

#[test]
fn replacements_by_a_result_have_no_style(rt: HostRuntime) {
    let mut graph = Graph::new(rt.alloc());
    let x = graph.var(&rt, "%x");
    let item = graph.replaced(x, number(0));
    shows(&rt, rt.alloc(), &item, "%x = var\ninfer %x\nresult 0\n");
}
