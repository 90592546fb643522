//! Texts with many names, and long names.

use crate::hints::is_hinted;
use souper_hint::Kind;
use std::alloc::Global;
use std::process::Abort;

const MANY: u32 = 100_000;

// Definitions of `%name0`, `%name1` and so on, and an infer line of this name.
fn with_names(rt: &impl Abort, alloc: Global, root: &str) -> String {
    let mut text = String::new(alloc);
    for number in 0..MANY {
        let line = format!(in alloc; "%name{number} = var\n").expect(rt, root);
        text.push_str(line.as_str()).expect(rt, root);
    }
    text.push_str("infer ").expect(rt, root);
    text.push_str(root).expect(rt, root);
    text
}

#[test]
fn last_names_of_many_are_compared(rt: HostRuntime) {
    let alloc = rt.alloc();
    let text = with_names(&rt, alloc, "%nam99999");
    let want = "did you mean '%name99999'?";
    is_hinted(&rt, alloc, Kind::Lhs, text.as_str(), want);
}

#[test]
fn first_names_of_many_are_not_compared(rt: HostRuntime) {
    let alloc = rt.alloc();
    let text = with_names(&rt, alloc, "%nime0");
    is_hinted(&rt, alloc, Kind::Lhs, text.as_str(), "");
}

#[test]
fn long_name_is_not_compared(rt: HostRuntime) {
    let alloc = rt.alloc();
    let mut name = String::new(alloc);
    for _ in 0..100_000 {
        name.push('n').expect(&rt, "memory");
    }
    let text = format!(in alloc; "%{name} = var\ninfer %{name}n").expect(&rt, "memory");
    is_hinted(&rt, alloc, Kind::Lhs, text.as_str(), "");
}
