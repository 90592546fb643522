//! The meaning of Souper IR: what an item gives in a run, and when a replacement is sound.
#![tactic(auto)]

mod conditions;
mod drawing;
mod edges;
mod evaluation;
mod exhausting;
mod facts;
mod generator;
mod giving;
mod instructions;
mod item_outcomes;
pub mod laws;
mod numbering;
mod odometer;
mod operands;
mod pins;
mod planning;
mod plans;
mod refining;
mod refusals;
mod refuting;
mod sampling;
mod spans;
mod statements;
mod stepping;
mod trials;
mod wanted;
mod worlds;

pub use conditions::meets;
pub use evaluation::eval_into;
pub use exhausting::{Verdict, exhaust};
pub use giving::is_world;
pub use instructions::word_of;
pub use item_outcomes::{EvalError, Evaluation, eval};
pub use planning::plan;
pub use plans::{Plan, PlanError};
pub use refining::{are_one_number, refines};
pub use refuting::{Refutation, refute};
pub use worlds::{Mode, World};
