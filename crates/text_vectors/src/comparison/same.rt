//! Lists with pairwise the same graphs, and lists without.
use crate::cases::read_cases;
use crate::checks::{equal_in, items};
use souper_format::command::Kind;
use souper_format::same::same;
use std::alloc::Global;
use std::process::Abort;
use text_cases::different::DIFFERENT;
use text_cases::same::SAME;

// A list of items: their kind and their text.
type Source<'a> = (Kind, &'a str);

// The lists are the same or not.
fn compares(rt: &impl Abort, alloc: Global, a: Source<'_>, b: Source<'_>, want: bool, case: &str) {
    let first = items(rt, alloc, a.0, a.1, case);
    let second = items(rt, alloc, b.0, b.1, case);
    let found = same(alloc, &first, &second).expect(rt, case);
    equal_in(rt, (a, b, found), (a, b, want), case);
}

// The two lists of each case are the same or not.
fn compare_all(rt: &impl Abort, alloc: Global, file: &str, want: bool) {
    for case in read_cases(rt, alloc, file).iter() {
        let (a, b) = ((case.kind, case.text), (case.kind, case.want));
        compares(rt, alloc, a, b, want, case.lines);
    }
}

#[test]
fn lists_of_the_same_graphs_are_same(rt: HostRuntime) {
    compare_all(&rt, rt.alloc(), SAME, true);
}

#[test]
fn other_lists_are_different(rt: HostRuntime) {
    compare_all(&rt, rt.alloc(), DIFFERENT, false);
}

#[test]
fn empty_lists_are_same_within_a_kind(rt: HostRuntime) {
    let (rt, alloc) = (&rt, rt.alloc());
    let (lhs, rhs) = ((Kind::Lhs, ""), (Kind::Rhs, ""));
    compares(rt, alloc, rhs, rhs, true, "no items");
    compares(rt, alloc, rhs, (Kind::Rhs, " \n"), true, "no items");
    compares(rt, alloc, lhs, rhs, false, "no items");
    compares(rt, alloc, rhs, lhs, false, "no items");
}
