//! Reads the cases of a file of `text_cases`, which describes their format.
use souper_format::command::Kind;
use std::alloc::Global;
use std::process::Abort;
use text_cases::formatted::FORMATTED;

const KINDS: [(&str, Kind); 3] = [("lhs", Kind::Lhs), ("rhs", Kind::Rhs), ("rep", Kind::Rep)];

/// A text, and what is expected of it.
#[derive(Clone, Copy)]
pub struct Case<'a> {
    /// The lines of the case, which a failure shows.
    pub lines: &'a str,
    pub kind: Kind,
    pub text: &'a str,
    pub want: &'a str,
}

// Appends the case of these lines, of each kind that its head names.
fn push_case<'a>(rt: &impl Abort, cases: &mut Vec<Case<'a>>, lines: &'a str) {
    let (head, parts) = lines.split_once('\n').expect(rt, lines);
    let (word, _name) = head.split_once(' ').expect(rt, lines);
    let (text, want) = parts.split_once("\n---\n").expect(rt, lines);
    let count = cases.len();
    for (name, kind) in KINDS {
        if word == name || word == "any" {
            let case = Case {
                lines,
                kind,
                text,
                want,
            };
            cases.push(case).expect(rt, lines);
        }
    }
    assert!(rt; cases.len() > count, "no kind in {lines}");
}

/// The cases of a file, of which there is at least one.
pub fn read_cases<'a>(rt: &impl Abort, alloc: Global, file: &'a str) -> Vec<Case<'a>> {
    let mut cases = Vec::new(alloc);
    let rest = file
        .strip_prefix("\n=== ")
        .expect(rt, "no case at the beginning");
    let rest = rest.strip_suffix("\n").expect(rt, "no newline at the end");
    for lines in rest.split("\n=== ") {
        push_case(rt, &mut cases, lines);
    }
    cases
}

/// The texts of the items of the kind that are formatted, each on lines of its own.
pub fn joined_texts(rt: &impl Abort, alloc: Global, kind: Kind) -> String {
    let mut all = String::new(alloc);
    for case in read_cases(rt, alloc, FORMATTED).iter() {
        if case.kind == kind {
            all.push_str(case.text).expect(rt, case.lines);
            all.push('\n').expect(rt, case.lines);
        }
    }
    all
}
