//! The texts of cases of `text_cases`, which describes their format.
use souper_format::command::Kind;
use std::alloc::Global;
use std::process::Abort;
use text_cases::formatted::FORMATTED;

/// The texts of the items of the kind that are formatted, each on lines of its own.
pub fn joined_texts(rt: &impl Abort, alloc: Global, kind: Kind) -> String {
    let name = match kind {
        Kind::Lhs => "lhs ",
        Kind::Rhs => "rhs ",
        Kind::Rep => "rep ",
    };
    let mut all = String::new(alloc);
    let rest = FORMATTED.strip_prefix("\n=== ").expect(rt, "no case");
    for lines in rest.split("\n=== ") {
        let (head, parts) = lines.split_once('\n').expect(rt, lines);
        let (text, _want) = parts.split_once("\n---\n").expect(rt, lines);
        if head.starts_with(name) || head.starts_with("any ") {
            all.push_str(text).expect(rt, lines);
            all.push('\n').expect(rt, lines);
        }
    }
    all
}
