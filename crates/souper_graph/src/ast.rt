//! The nodes of Souper IR, their arenas and their builders.

mod arenas;
mod attributes;
mod builders;
mod clones;
mod flaws;
mod ids;
mod instructions;
mod item;
mod items;
mod left;
mod lookup;
mod operands;
mod parts;
mod replacing;
mod statements;
mod taken_names;
mod uses;
mod well_formed;

pub use arenas::{Arena, Iter};
pub use attributes::{Attribute, RootAttribute};
pub use builders::{Builder, LeftHandSideBuilder, ReplacementBuilder, RightHandSideBuilder};
pub use flaws::{Flaw, FlawLocation, FlawReason};
pub use ids::{BlockId, Id, ValueId};
pub use instructions::Instruction;
pub(crate) use instructions::Operands;
pub use item::Item;
pub use items::{Cand, Infer, LeftHandSide, Replacement, RightHandSide};
pub use operands::{Constant, Operand, Type};
pub use parts::{Ending, Parts};
pub use statements::{Assignment, AssignmentRhs, Block, BlockPc, Pc, Phi, Statement, Var};
pub use uses::{Use, Uses};
