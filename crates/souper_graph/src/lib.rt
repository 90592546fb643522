//! Souper IR as values: the nodes of the syntax tree, and their text.
//!
//! Souper IR is the text format of the superoptimizer [Souper](https://github.com/google/souper): left-hand sides,
//! right-hand sides and replacements over a graph of integer operations, most of them defined in the
//! [LLVM language reference](https://llvm.org/docs/LangRef.html). The crate `souper_ir` reads it, and re-exports `ast` and
//! `stringify`.
//!
//! ```rust
//! use souper_graph::ast::{AssignmentRhs, Constant, Instruction, ReplacementBuilder, Type};
//!
//! let mut builder = ReplacementBuilder::new(alloc);
//! let name = String::from_str(alloc, "%x")?;
//! let ty = Some(Type { width: 32 });
//! let x = builder.assignment(Some(name), ty, AssignmentRhs::Var, Vec::new(alloc))?;
//! let two = Constant { value: 2, ty: None };
//! let product = Instruction::Mul { a: x.into(), b: two.into() };
//! let twice = builder.assignment(None, None, product.into(), Vec::new(alloc))?;
//! let one = Constant { value: 1, ty: None };
//! let shift = Instruction::Shl { a: x.into(), b: one.into() };
//! let shifted = builder.assignment(None, None, shift.into(), Vec::new(alloc))?;
//! let item = builder.finish(twice, shifted.into(), Vec::new(alloc));
//! let want = "%x:i32 = var\n%1 = mul %x, 2\ninfer %1\n%2 = shl %x, 1\nresult %2\n";
//! assert_eq!(rt; item.to_text()?.as_str(), want);
//! ```
//!
//! - [`ast`]: the nodes, the arena of statements, builders, copies, and whether an item is well formed.
//! - [`stringify`]: the canonical text of items, the order of the statements in it, and the text of nodes.
//! - [`laws`]: theorems about the definitions that the contracts cite.
#![tactic(auto)]

pub mod ast;
pub mod laws;
pub mod stringify;
