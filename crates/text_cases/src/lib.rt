//! The cases of tests: texts in one format, a file of them for each kind of test. A case is
//!
//! ```text
//! === KIND NAME
//! TEXT
//! ---
//! WANT
//! ```
//!
//! KIND is the type of the items that TEXT is read as: `lhs`, `rhs` or `rep`, or `any` for each of the three. NAME says in a few
//! words what the case shows. TEXT and WANT may have several lines, or be empty: the newline before `---`, the one before
//! `===` and the last one of the file are not part of them. Escapes are as in a string literal: write `\u{d}` for a carriage
//! return, `\u{9}` for a tab, and `\u{20}` for a space at the end of a line.
//!
//! | File | WANT |
//! |---|---|
//! | `formatted` | the text of each item, and a newline after each. The text of a left-hand side or a replacement ends in a newline too |
//! | `renamed` | the text of the first item, when that is named by its printed order |
//! | `orders` | of the first item: how many statements are printed, how many of them before an infer line, and the turns |
//! | `refused` | what the error shows; its offset comes before NAME: `=== KIND OFFSET NAME` |
//! | `refused_streams` | how many items are taken before the error |
//! | `same`, `different` | a text of a list with pairwise the same graphs, or without |
#![tactic(auto)]

pub mod different;
pub mod formatted;
pub mod orders;
pub mod refused;
pub mod refused_streams;
pub mod renamed;
pub mod same;
