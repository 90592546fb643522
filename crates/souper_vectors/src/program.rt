//! The functions of the formatter's program.
mod commands;
mod dispatch;
mod runs;
mod watched;
