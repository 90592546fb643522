//! A stream that records how its calls ended.

pub use souper_watched::Watched;
