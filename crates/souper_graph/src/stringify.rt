//! The canonical text of items, and the text of their nodes.

mod append;
mod context;
mod errors;
mod leaves;
mod lines;
mod marks;
mod names;
mod needed;
mod nodes;
mod numbers;
mod order;
mod order_into;
mod renamed;
mod text;
mod texts;

pub use context::DisplayWithContext;
pub use errors::TextError;
pub use order::Order;
pub(crate) use renamed::write_names;
