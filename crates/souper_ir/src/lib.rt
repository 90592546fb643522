//! Souper IR: its syntax tree, its parser and its canonical text.
//!
//! Souper IR is the text format of the superoptimizer [Souper](https://github.com/google/souper): left-hand sides,
//! right-hand sides and replacements over a graph of integer operations, most of them defined in the
//! [LLVM language reference](https://llvm.org/docs/LangRef.html).
//!
//! ```rust
//! use souper_ir::ast::LeftHandSide;
//! use souper_ir::parse::{ParseError, parse_left_hand_sides_str};
//! use std::alloc::Global;
//!
//! /// The left-hand side that the text spells, if it spells exactly one.
//! pub fn read_one(alloc: Global, source: &str) -> Result<Option<LeftHandSide>, ParseError> {
//!     let mut items = parse_left_hand_sides_str(alloc, source, None)?;
//!     match items.pop() {
//!         Some(item) if items.is_empty() => Ok(Some(item)),
//!         _ => Ok(None),
//!     }
//! }
//!
//! let item = read_one(rt.alloc(), "%x:i8 = var\ninfer %x")?.ok_or("not one")?;
//! assert_eq!(rt; item.to_text()?.as_str(), "%x:i8 = var\ninfer %x\n");
//! ```
//!
//! - [`ast`]: the nodes, the arena of statements, builders, copies, and whether an item is well formed.
//! - [`parse`]: items from texts and files, all at once or one by one, and parts of a text.
//! - [`stringify`]: the canonical text of items, the order of the statements in it, and the text of nodes.
//! - [`laws`]: theorems about the definitions that the contracts cite.
//!
//! The first and the third are modules of `souper_graph`. A text spells at most one list of items of a type, and a text
//! that is rejected spells none.
#![tactic(auto)]

pub use souper_graph::{ast, stringify};

pub mod laws;
pub mod parse;
