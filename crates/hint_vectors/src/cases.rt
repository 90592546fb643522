//! Rejected texts with their hints. A case is
//!
//! ```text
//! === KIND NAME
//! TEXT
//! ---
//! HINT
//! ```
//!
//! KIND is the type of the items that TEXT is read as: `lhs`, `rhs` or `rep`. NAME says in a few words what is wrong. HINT is empty if
//! there is none.

use souper_hint::Kind;
use std::process::Abort;

/// A rejected text, and its hint.
#[derive(Clone, Copy)]
pub struct Case<'a> {
    /// The lines of the case, which a failure shows.
    pub lines: &'a str,
    pub kind: Kind,
    pub text: &'a str,
    pub want: &'a str,
}

/// The case of these lines.
pub fn read_case<'a>(rt: &impl Abort, lines: &'a str) -> Case<'a> {
    let (head, parts) = lines.split_once('\n').expect(rt, lines);
    let (word, _name) = head.split_once(' ').expect(rt, lines);
    let (text, want) = parts.split_once("\n---\n").expect(rt, lines);
    let kind = match word {
        "rhs" => Kind::Rhs,
        "rep" => Kind::Rep,
        _ => Kind::Lhs,
    };
    Case {
        lines,
        kind,
        text,
        want,
    }
}
